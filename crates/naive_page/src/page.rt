// The sheet's lines.

use crate::puts::{Put, page_of};
use crate::replayed::{NoPage, Replay, Replayed};
use naive::answers::Answer;
use naive::stamp_rules::Stamp;
use naive_format::records::{Key, Record};
use std::alloc::{AllocError, Global};

const COUNTERS: u64 = 65_536;

// 281474976710655.65535, the highest stamp of all.
const HIGHEST: u64 = u64::MAX;

fn add_no_page(text: &mut String, no_page: NoPage) -> Result<(), AllocError> {
    match no_page {
        NoPage::TooLong => writeln!(
            text,
            "too long: there is no page of a trace of more than 65536 bytes"
        ),
        NoPage::Empty => writeln!(text, "empty: there is no page of a trace without a record"),
        NoPage::Bad { number, place } => writeln!(
            text,
            "bad {number} at {place}: there is no page of such a trace"
        ),
    }
}

fn add_key(text: &mut String, key: &Key) -> Result<(), AllocError> {
    match key {
        Key::Point(point) => write!(text, "{point}"),
        Key::Tag(tag) => {
            for byte in tag {
                if *byte != 0 {
                    text.push(char::from(*byte))?;
                }
            }
            Ok(())
        }
    }
}

// A value in units, with three decimals.
fn add_value(text: &mut String, value: i32) -> Result<(), AllocError> {
    if value < 0 {
        write!(text, "-")?;
    }
    let size = value.unsigned_abs();
    let (units, thousandths) = (size / 1_000, size % 1_000);
    let (tenths, hundredths) = (thousandths / 100, thousandths / 10 % 10);
    write!(text, "{units}.{tenths}{hundredths}{}", thousandths % 10)
}

fn add_stamp(text: &mut String, stamp: Stamp) -> Result<(), AllocError> {
    let (time, counter) = (stamp.time, stamp.counter);
    write!(text, "{time}.{counter}")
}

fn add_row(text: &mut String, row: &Put) -> Result<(), AllocError> {
    add_key(text, &row.key)?;
    write!(text, " ")?;
    add_value(text, row.value)?;
    write!(text, " ")?;
    add_stamp(text, row.stamp)?;
    let (node, record, clock) = (row.node, row.record, row.clock);
    writeln!(text, " {node} {record} {clock}")
}

impl Replayed {
    // How many puts were accepted, and how many refused.
    fn count_puts(&self) -> (usize, usize) {
        let (mut accepted, mut refused) = (0usize, 0usize);
        for (record, answer) in &self.records {
            match (record, answer) {
                (Record::Put { .. }, Answer::Refused(_)) => refused = refused.saturating_add(1),
                (Record::Put { .. }, _) => accepted = accepted.saturating_add(1),
                _ => {}
            }
        }
        (accepted, refused)
    }

    fn add_set_up(&self, text: &mut String) -> Result<(), AllocError> {
        let (boxes, lead, backstep) = (self.set_up.nodes, self.set_up.lead, self.set_up.backstep);
        let keys = if self.set_up.key_kind == 0 {
            "points"
        } else {
            "tags"
        };
        writeln!(
            text,
            "set-up: boxes {boxes}, keys {keys}, lead {lead} ms, backstep {backstep} ms"
        )?;
        let bound = u64::from(lead).saturating_add(u64::from(backstep));
        writeln!(
            text,
            "bound: no stamp is more than {bound} ms ahead of its box's clock"
        )?;
        let (accepted, refused) = self.count_puts();
        writeln!(
            text,
            "puts in the trace: {accepted} accepted, {refused} refused"
        )
    }

    fn add_rows(&self, text: &mut String, heap: Global, code: u64) -> Result<(), AllocError> {
        writeln!(text, "key value stamp box record clock")?;
        let page = page_of(heap, self, code)?;
        for row in &page {
            add_row(text, row)?;
        }
        writeln!(text, "rows: {}", page.len())
    }

    // The boxes that may still report up to the stamp.
    fn add_late_boxes(&self, text: &mut String, code: u64) -> Result<(), AllocError> {
        writeln!(
            text,
            "not final: refused with 18, since a box may still report at or below this stamp"
        )?;
        for node in 0..self.set_up.nodes {
            let last = self.last_stamp(node);
            if last.code() >= code {
                continue;
            }
            write!(text, "box {node} ")?;
            // No event has the stamp 0.0.
            if last.code() == 0 {
                writeln!(text, "has reported nothing that was accepted")?;
            } else {
                write!(text, "last reported ")?;
                add_stamp(text, last)?;
                writeln!(text)?;
            }
        }
        Ok(())
    }

    // Adds the sheet at a stamp's code, or without one at the newest stamp at which a page is final.
    fn add_sheet(
        &self,
        text: &mut String,
        heap: Global,
        stamp: Option<u64>,
        closed: bool,
    ) -> Result<(), AllocError> {
        self.add_set_up(text)?;
        let lowest = if closed {
            HIGHEST
        } else {
            self.lowest_last_code()
        };
        let code = stamp.unwrap_or(lowest);
        write!(text, "page: ")?;
        add_stamp(
            text,
            Stamp {
                time: code / COUNTERS,
                counter: code % COUNTERS,
            },
        )?;
        writeln!(text)?;
        if closed {
            writeln!(
                text,
                "final: the recorder is closed, as asked, and no box will report any more"
            )?;
            self.add_rows(text, heap, code)
        } else if code <= lowest {
            writeln!(
                text,
                "final: no box can report at or below this stamp any more"
            )?;
            self.add_rows(text, heap, code)
        } else {
            self.add_late_boxes(text, code)
        }
    }
}

// Adds the sheet of a trace that was replayed, or the one line that stands in its place where there is no page.
pub fn add_page_of(
    text: &mut String,
    heap: Global,
    replay: &Replay,
    stamp: Option<u64>,
    closed: bool,
) -> Result<(), AllocError> {
    match replay {
        Ok(replayed) => replayed.add_sheet(text, heap, stamp, closed),
        Err(no_page) => add_no_page(text, *no_page),
    }
}
