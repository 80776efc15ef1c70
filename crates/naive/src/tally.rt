// How often each answer came.

use crate::answers::Answer;
use std::io;

// What is counted; of the answers, each by its word in the listing.
#[derive(Clone, Copy)]
pub enum Count {
    Trace,
    SetUp,
    Note,
    Send,
    Receipt,
    Put,
    Loss,
    Read,
    None,
    Bad,
    TooLong,
    End,
    // Reads of a version where others of its key have its stamp.
    Tie,
    // Reads that were refused with 18 before they were answered.
    Late,
}

const NAMES: [&str; 14] = [
    "traces",
    "setup",
    "note",
    "send",
    "receipt",
    "put",
    "loss",
    "read",
    "read none",
    "bad",
    "too long",
    "end",
    "reads with ties",
    "reads refused with 18 before",
];

#[derive(Drop)]
pub struct Tally {
    counts: [u64; 14],
    highest_counter: u64,
    // By the refusal's number, those of a `bad` line too.
    refusals: [u64; 20],
}

impl Count {
    pub fn name(self) -> &'static str {
        NAMES.get(self as usize).copied().unwrap_or("")
    }
}

impl Tally {
    pub fn new() -> Tally {
        Tally {
            counts: [0; 14],
            highest_counter: 0,
            refusals: [0; 20],
        }
    }

    pub fn add(&mut self, count: Count) {
        if let Some(so_far) = self.counts.get_mut(count as usize) {
            *so_far = so_far.saturating_add(1);
        }
    }

    fn add_refusal(&mut self, number: u8) {
        if let Some(so_far) = self.refusals.get_mut(usize::from(number)) {
            *so_far = so_far.saturating_add(1);
        }
    }

    pub fn add_bad(&mut self, number: u8) {
        self.add(Count::Bad);
        self.add_refusal(number);
    }

    pub fn add_answer(&mut self, answer: &Answer) {
        match answer {
            Answer::SetUp => self.add(Count::SetUp),
            Answer::Event { word, stamp, .. } => {
                self.add(*word);
                self.highest_counter = self.highest_counter.max(stamp.counter);
            }
            Answer::Loss(_) => self.add(Count::Loss),
            Answer::Read(newest) => {
                self.add(Count::Read);
                if newest.ties > 0 {
                    self.add(Count::Tie);
                }
            }
            Answer::None => self.add(Count::None),
            Answer::Refused(number) => self.add_refusal(*number),
        }
    }

    pub fn print(&self, rt: &impl Print) -> io::Result<()> {
        for (name, count) in NAMES.iter().zip(self.counts.iter()) {
            println!(rt; "{name}: {count}")?;
        }
        println!(rt; "highest counter: {}", self.highest_counter)?;
        for (number, count) in self.refusals.iter().enumerate() {
            if *count > 0 {
                println!(rt; "refused {number}: {count}")?;
            }
        }
        Ok(())
    }
}
