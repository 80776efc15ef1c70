// How often each line of a sheet came. No function has a clause (`naive` says why).
#![tactic(auto)]

use std::io;

// What a line is counted as.
#[derive(Clone, Copy)]
pub enum Count {
    Trace,
    Text,
    Sheet,
    FinalOpen,
    FinalClosed,
    NotFinal,
    Reported,
    NeverReported,
    Row,
    // Of them, those with a stamp ahead of the clock.
    RowAhead,
    NoRow,
    TooLong,
    Empty,
    Bad1,
    Bad2,
    Bad4,
    Bad5,
}

const NAMES: [&str; 17] = [
    "traces",
    "texts",
    "sheets",
    "final, open",
    "final, closed",
    "not final",
    "boxes that are late",
    "boxes that have not reported",
    "rows",
    "rows with a stamp ahead of the clock",
    "final, without a row",
    "too long",
    "empty",
    "bad 1",
    "bad 2",
    "bad 4",
    "bad 5",
];

// What a line begins with, of those that are counted but for rows and boxes.
const BEGINNINGS: [(&str, Count); 11] = [
    ("set-up: ", Count::Sheet),
    ("final: no box", Count::FinalOpen),
    ("final: the recorder", Count::FinalClosed),
    ("not final: ", Count::NotFinal),
    ("rows: 0", Count::NoRow),
    ("too long: ", Count::TooLong),
    ("empty: ", Count::Empty),
    ("bad 1 ", Count::Bad1),
    ("bad 2 ", Count::Bad2),
    ("bad 4 ", Count::Bad4),
    ("bad 5 ", Count::Bad5),
];

#[derive(Drop)]
pub struct Counts {
    counts: [u64; 17],
}

// What a line of a sheet is counted as. A row alone begins with a capital letter, a digit or a hyphen.
fn count_of(line: &str) -> Option<Count> {
    if line.starts_with("box ") {
        return Some(if line.ends_with("has reported nothing that was accepted") {
            Count::NeverReported
        } else {
            Count::Reported
        });
    }
    if let Some(b'A'..=b'Z' | b'0'..=b'9' | b'-') = line.as_bytes().first() {
        return Some(Count::Row);
    }
    for (beginning, count) in BEGINNINGS {
        if line.starts_with(beginning) {
            return Some(count);
        }
    }
    None
}

// Whether the time of a row's stamp, the third word, is another than its clock, the last.
fn is_ahead(row: &str) -> bool {
    let (Some(stamp), Some(clock)) = (row.split(' ').nth(2), row.split(' ').last()) else {
        return false;
    };
    match stamp.split_once('.') {
        Some((time, _)) => time != clock,
        None => false,
    }
}

impl Counts {
    pub fn new() -> Counts {
        Counts { counts: [0; 17] }
    }

    pub fn add(&mut self, count: Count) {
        if let Some(so_far) = self.counts.get_mut(count as usize) {
            *so_far = so_far.saturating_add(1);
        }
    }

    pub fn add_text(&mut self, text: &str) {
        self.add(Count::Text);
        for line in text.lines() {
            let Some(count) = count_of(line) else {
                continue;
            };
            self.add(count);
            if matches!(count, Count::Row) && is_ahead(line) {
                self.add(Count::RowAhead);
            }
        }
    }

    pub fn print(&self, rt: &impl Print) -> io::Result<()> {
        for (name, count) in NAMES.iter().zip(self.counts.iter()) {
            println!(rt; "{name}: {count}")?;
        }
        Ok(())
    }
}
