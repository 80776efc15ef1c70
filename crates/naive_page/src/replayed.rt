// A trace that was replayed: its records, each with what was answered.

use naive::answers::Answer;
use naive::listing::{LONGEST, Outcome, Run};
use naive::stamp_rules::{Stamp, ZERO};
use naive_format::decoder::{Found, record_at};
use naive_format::records::{Record, SetUp};
use std::alloc::{AllocError, Global};

// Why there is no page.
#[derive(Clone, Copy)]
pub enum NoPage {
    TooLong,
    Empty,
    Bad { number: u8, place: usize },
}

#[derive(Drop)]
pub struct Replayed {
    pub set_up: SetUp,
    // The first is the set-up, and the record numbered n stands at n - 1.
    pub records: Vec<(Record, Answer)>,
}

impl Replayed {
    // The stamp of the last event of a node; 0.0 if it has none.
    pub fn last_stamp(&self, node: u8) -> Stamp {
        let mut last = ZERO;
        for (_, answer) in &self.records {
            match answer {
                Answer::Event {
                    node: other,
                    stamp,
                    ..
                } if *other == node => last = *stamp,
                _ => {}
            }
        }
        last
    }

    // The lowest of the last stamps of all nodes, as a code.
    pub fn lowest_last_code(&self) -> u64 {
        let mut lowest = u64::MAX;
        for node in 0..self.set_up.nodes {
            lowest = lowest.min(self.last_stamp(node).code());
        }
        lowest
    }
}

// A trace that was replayed, or why there is no page of it.
pub type Replay = Result<Replayed, NoPage>;

// Replays the records, and gives the set-up if there is no fault in them.
fn add_records(
    records: &mut Vec<(Record, Answer)>,
    heap: Global,
    trace: &[u8],
) -> Result<Result<SetUp, NoPage>, AllocError> {
    let mut run = Run::new(heap);
    let mut place = 0;
    // A record has at least one byte, and so there are no more of them than bytes.
    for _ in 0..trace.len() {
        let (record, behind) = match record_at(trace, place) {
            Found::Record(record, behind) => (record, behind),
            Found::End => break,
            Found::Refused(number) => return Ok(Err(NoPage::Bad { number, place })),
        };
        match run.take(&record)? {
            Outcome::Line(answer) => records.push((record, answer))?,
            Outcome::Bad(number) => return Ok(Err(NoPage::Bad { number, place })),
        }
        place = behind;
    }
    match records.first() {
        Some((Record::SetUp(set_up), _)) => Ok(Ok(*set_up)),
        _ => Ok(Err(NoPage::Empty)),
    }
}

pub fn replay_of(heap: Global, trace: &[u8]) -> Result<Replay, AllocError> {
    if trace.len() > LONGEST {
        return Ok(Err(NoPage::TooLong));
    }
    let mut records = Vec::new(heap);
    match add_records(&mut records, heap, trace)? {
        Ok(set_up) => Ok(Ok(Replayed { set_up, records })),
        Err(no_page) => Ok(Err(no_page)),
    }
}
