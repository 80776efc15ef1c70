// A second listing, written from docs/RULES.md alone. It keeps the whole history and goes through it for every answer.

use crate::answers::Answer;
use crate::events::{Deed, Entry, Event, History};
use crate::stamp_rules::{Stamp, own_stamp, receipt_stamp};
use crate::tally::{Count, Tally};
use naive_format::decoder::{Found, record_at};
use naive_format::records::{Key, Record, Sample, SetUp};
use std::alloc::{AllocError, Global};

pub const LONGEST: usize = 65_536;

const MOST_NODES: u8 = 16;

const MOST_UNDER_WAY: usize = 64;

const MOST_VERSIONS: usize = 1_024;

const A_DAY: u32 = 86_400_000;

// A stamp and the reading that it was given at, or a refusal's number.
type Stamped = Result<(Stamp, u64), u8>;

fn is_in_range(set_up: &SetUp) -> bool {
    let nodes = 1 <= set_up.nodes && set_up.nodes <= MOST_NODES;
    nodes && set_up.key_kind <= 1 && set_up.lead <= A_DAY && set_up.backstep <= A_DAY
}

// The set-up that a trace begins with, or the number that its first record is refused with.
fn opening(record: &Record) -> Result<SetUp, u8> {
    match record {
        Record::SetUp(set_up) if is_in_range(set_up) => Ok(*set_up),
        Record::SetUp(_) => Err(4),
        _ => Err(5),
    }
}

fn check_node(set_up: &SetUp, node: u8) -> Result<(), u8> {
    if node < set_up.nodes { Ok(()) } else { Err(7) }
}

fn check_key(set_up: &SetUp, key: &Key) -> Result<(), u8> {
    if key.kind() != set_up.key_kind {
        Err(6)
    } else if !key.is_well_formed() {
        Err(3)
    } else {
        Ok(())
    }
}

fn stamp_by_clock(history: &History, set_up: &SetUp, sample: Sample) -> Stamped {
    let reading = history.reading(sample, u64::from(set_up.backstep))?;
    let stamp = own_stamp(history.last_stamp(sample.node), reading)?;
    Ok((stamp, reading))
}

fn note(history: &History, set_up: &SetUp, sample: Sample) -> Stamped {
    check_node(set_up, sample.node)?;
    stamp_by_clock(history, set_up, sample)
}

fn send(history: &History, set_up: &SetUp, sample: Sample, to: u8, message: u32) -> Stamped {
    check_node(set_up, sample.node)?;
    check_node(set_up, to)?;
    if history.under_way(message).is_some() {
        return Err(11);
    }
    if history.count_under_way() >= MOST_UNDER_WAY {
        return Err(12);
    }
    stamp_by_clock(history, set_up, sample)
}

fn receipt(history: &History, set_up: &SetUp, sample: Sample, number: u32) -> Stamped {
    check_node(set_up, sample.node)?;
    let Some(message) = history.under_way(number) else {
        return Err(13);
    };
    if message.to != sample.node {
        return Err(14);
    }
    let reading = history.reading(sample, u64::from(set_up.backstep))?;
    let last = history.last_stamp(sample.node);
    let stamp = receipt_stamp(last, message.sent, reading, u64::from(set_up.lead))?;
    Ok((stamp, reading))
}

fn put(history: &History, set_up: &SetUp, sample: Sample, key: &Key) -> Stamped {
    check_key(set_up, key)?;
    check_node(set_up, sample.node)?;
    if history.count_puts() >= MOST_VERSIONS {
        return Err(16);
    }
    stamp_by_clock(history, set_up, sample)
}

fn read(history: &History, set_up: &SetUp, code: u64, key: &Key) -> Result<Answer, u8> {
    check_key(set_up, key)?;
    if !history.is_settled(code, set_up.nodes) {
        return Err(18);
    }
    Ok(match history.newest(*key, code) {
        Some(newest) => Answer::Read(newest),
        None => Answer::None,
    })
}

// An event's answer, which is entered in the history, or the refusal.
fn answer_event(
    history: &mut History,
    node: u8,
    stamped: Stamped,
    word: Count,
    deed: Deed,
) -> Result<Answer, AllocError> {
    let (stamp, reading) = match stamped {
        Ok(stamped) => stamped,
        Err(number) => return Ok(Answer::Refused(number)),
    };
    history.add(Entry::Event(Event {
        node,
        reading,
        stamp,
        deed,
    }))?;
    let drift = stamp.drift(reading);
    Ok(Answer::Event {
        word,
        node,
        stamp,
        drift,
    })
}

fn answer_loss(history: &mut History, message: u32) -> Result<Answer, AllocError> {
    if history.under_way(message).is_none() {
        return Ok(Answer::Refused(13));
    }
    history.add(Entry::Loss(message))?;
    Ok(Answer::Loss(message))
}

fn answer_read(history: &History, set_up: &SetUp, code: u64, key: &Key) -> Answer {
    match read(history, set_up, code, key) {
        Ok(answer) => answer,
        Err(number) => Answer::Refused(number),
    }
}

// The answer to a record behind the first.
fn answer(history: &mut History, set_up: &SetUp, record: &Record) -> Result<Answer, AllocError> {
    match *record {
        Record::SetUp(_) => Ok(Answer::Refused(5)),
        Record::Note(sample) => {
            let stamped = note(history, set_up, sample);
            answer_event(history, sample.node, stamped, Count::Note, Deed::Note)
        }
        Record::Send {
            sample,
            to,
            message,
        } => {
            let stamped = send(history, set_up, sample, to, message);
            answer_event(
                history,
                sample.node,
                stamped,
                Count::Send,
                Deed::Send { to, message },
            )
        }
        Record::Receipt { sample, message } => {
            let stamped = receipt(history, set_up, sample, message);
            answer_event(
                history,
                sample.node,
                stamped,
                Count::Receipt,
                Deed::Receipt { message },
            )
        }
        Record::Loss(message) => answer_loss(history, message),
        Record::Put { sample, key, value } => {
            let stamped = put(history, set_up, sample, &key);
            answer_event(
                history,
                sample.node,
                stamped,
                Count::Put,
                Deed::Put { key, value },
            )
        }
        Record::Read { code, key } => Ok(answer_read(history, set_up, code, &key)),
    }
}

fn add_answer(text: &mut String, number: usize, answer: &Answer) -> Result<(), AllocError> {
    match answer {
        Answer::SetUp => writeln!(text, "{number} setup"),
        Answer::Event {
            word,
            node,
            stamp,
            drift,
        } => {
            let (word, time, counter) = (word.name(), stamp.time, stamp.counter);
            writeln!(
                text,
                "{number} {word} {node} {time}.{counter} drift {drift}"
            )
        }
        Answer::Loss(message) => writeln!(text, "{number} loss {message}"),
        Answer::Read(newest) => {
            let version = newest.version;
            let (value, node) = (version.value, version.node);
            let (time, counter) = (version.stamp.time, version.stamp.counter);
            writeln!(text, "{number} read {value} {time}.{counter} {node}")
        }
        Answer::None => writeln!(text, "{number} read none"),
        Answer::Refused(refusal) => writeln!(text, "{number} refused {refusal}"),
    }
}

// The state of a listing that goes on.
#[derive(Drop)]
pub struct Run {
    history: History,
    set_up: Option<SetUp>,
    accepted: usize,
    refused: usize,
    // The reads that were refused with 18.
    unsettled: Vec<(u64, Key)>,
}

// What a record comes to: a numbered line, or the end of the listing.
#[derive(Clone, Copy)]
pub enum Outcome {
    Line(Answer),
    Bad(u8),
}

impl Run {
    pub fn new(heap: Global) -> Run {
        Run {
            history: History::new(heap),
            set_up: None,
            accepted: 0,
            refused: 0,
            unsettled: Vec::new(heap),
        }
    }

    pub fn take(&mut self, record: &Record) -> Result<Outcome, AllocError> {
        let Some(set_up) = self.set_up else {
            return Ok(match opening(record) {
                Ok(set_up) => {
                    self.set_up = Some(set_up);
                    Outcome::Line(Answer::SetUp)
                }
                Err(number) => Outcome::Bad(number),
            });
        };
        Ok(Outcome::Line(answer(&mut self.history, &set_up, record)?))
    }

    fn count(&mut self, answer: &Answer) {
        match answer {
            Answer::Refused(_) => self.refused = self.refused.saturating_add(1),
            _ => self.accepted = self.accepted.saturating_add(1),
        }
    }

    // Keeps a read that is not settled, and counts one that is answered after all.
    fn note_read(
        &mut self,
        record: &Record,
        answer: &Answer,
        tally: &mut Tally,
    ) -> Result<(), AllocError> {
        let Record::Read { code, key } = *record else {
            return Ok(());
        };
        match answer {
            Answer::Refused(18) => self.unsettled.push((code, key))?,
            Answer::Read(_) | Answer::None if self.unsettled.contains(&(code, key)) => tally.add(
                Count::Late,
            ),
            _ => {}
        }
        Ok(())
    }

    // The number of the line that comes next.
    fn next_number(&self) -> usize {
        self.accepted.saturating_add(self.refused).saturating_add(1)
    }
}

fn add_bad(
    text: &mut String,
    number: u8,
    place: usize,
    tally: &mut Tally,
) -> Result<(), AllocError> {
    tally.add_bad(number);
    writeln!(text, "bad {number} at {place}")
}

fn add_records(
    text: &mut String,
    run: &mut Run,
    trace: &[u8],
    tally: &mut Tally,
) -> Result<(), AllocError> {
    let mut place = 0;
    // A record has at least one byte, and so there are no more of them than bytes.
    for _ in 0..trace.len() {
        let (record, behind) = match record_at(trace, place) {
            Found::Record(record, behind) => (record, behind),
            Found::End => return Ok(()),
            Found::Refused(number) => return add_bad(text, number, place, tally),
        };
        match run.take(&record)? {
            Outcome::Line(answer) => {
                tally.add_answer(&answer);
                run.note_read(&record, &answer, tally)?;
                add_answer(text, run.next_number(), &answer)?;
                run.count(&answer);
            }
            Outcome::Bad(number) => return add_bad(text, number, place, tally),
        }
        place = behind;
    }
    Ok(())
}

// Adds the listing of a trace to the text, and its answers to the tally.
pub fn add_listing(
    text: &mut String,
    heap: Global,
    trace: &[u8],
    tally: &mut Tally,
) -> Result<(), AllocError> {
    if trace.len() > LONGEST {
        tally.add(Count::TooLong);
        return writeln!(text, "too long");
    }
    let mut run = Run::new(heap);
    add_records(text, &mut run, trace, tally)?;
    tally.add(Count::End);
    let (accepted, refused) = (run.accepted, run.refused);
    writeln!(text, "end {accepted} {refused}")
}
