// Generated traces.
use crate::plans::{Plan, Shape};
use crate::random::Random;
use crate::source::{Source, draw_bad_set_up};
use naive_format::encoder::add_record;
use naive_format::records::Record;
use std::alloc::AllocError;

const LONGEST: usize = 65_536;

// Each kind of record with the length of its body.
const BODIES: [(u8, usize); 9] = [
    (0, 10),
    (1, 9),
    (2, 14),
    (3, 13),
    (4, 4),
    (5, 17),
    (6, 29),
    (7, 12),
    (8, 24),
];

// In how many places the bodies can be cut off, and that of a set-up once more.
const CUTS: usize = 142;

impl Source {
    fn add_records(&mut self, trace: &mut Vec<u8>) -> Result<(), AllocError> {
        for _ in 0..self.plan.records {
            if trace.len() >= LONGEST {
                break;
            }
            add_record(trace, self.record())?;
        }
        trace.truncate(LONGEST);
        Ok(())
    }

    fn add_whole(&mut self, trace: &mut Vec<u8>) -> Result<(), AllocError> {
        add_record(trace, Record::SetUp(self.set_up))?;
        self.add_records(trace)
    }

    fn add_bytes(&mut self, trace: &mut Vec<u8>, count: usize) -> Result<(), AllocError> {
        for _ in 0..count {
            trace.push(self.random.byte())?;
        }
        Ok(())
    }

    // A set-up out of range, or another record, and some records behind.
    fn add_bad_opening(&mut self, trace: &mut Vec<u8>) -> Result<(), AllocError> {
        if self.random.is_one_in(4) {
            add_record(trace, self.record())?;
        } else {
            add_record(
                trace,
                Record::SetUp(draw_bad_set_up(&mut self.random, self.plan)),
            )?;
        }
        self.add_whole(trace)
    }

    fn add_cut(&mut self, trace: &mut Vec<u8>) -> Result<(), AllocError> {
        self.add_whole(trace)?;
        let kept = self.random.below(trace.len() as u64);
        trace.truncate(usize::try_from(kept).unwrap_or(0));
        Ok(())
    }

    // Some records, and one that is cut off.
    fn add_cut_record(&mut self, trace: &mut Vec<u8>, turn: usize) -> Result<(), AllocError> {
        let (kind, kept, is_opening) = cut_of(turn);
        if !is_opening {
            self.add_whole(trace)?;
        }
        trace.push(kind)?;
        self.add_bytes(trace, kept)
    }

    fn add_unknown_kind(&mut self, trace: &mut Vec<u8>) -> Result<(), AllocError> {
        if !self.random.is_one_in(8) {
            self.add_whole(trace)?;
        }
        let kind = match self.random.below(4) {
            0 => 9,
            1 => 255,
            _ => self.random.byte_below(247).saturating_add(9),
        };
        trace.push(kind)?;
        self.add_bytes(trace, 30)
    }

    fn add_noise(&mut self, trace: &mut Vec<u8>) -> Result<(), AllocError> {
        self.add_whole(trace)?;
        for _ in 0..40 {
            let place = usize::from(self.random.byte_below(9)) % 9;
            let (kind, length) = BODIES[place];
            trace.push(kind)?;
            self.add_bytes(trace, length)?;
        }
        Ok(())
    }

    // A few bytes, of which the first mostly is that of a kind.
    fn add_short(&mut self, trace: &mut Vec<u8>, turn: usize) -> Result<(), AllocError> {
        let length = turn % 13;
        if length > 0 {
            trace.push(self.random.byte_below(11))?;
        }
        self.add_bytes(trace, length.saturating_sub(1))
    }

    // Behind a set-up of eleven bytes and a loss of five, notes of ten fill the longest trace to its end.
    fn add_longest(&mut self, trace: &mut Vec<u8>) -> Result<(), AllocError> {
        add_record(trace, Record::SetUp(self.set_up))?;
        add_record(trace, Record::Loss(self.message()))?;
        self.add_records(trace)
    }

    fn add_too_long(&mut self, trace: &mut Vec<u8>, turn: usize) -> Result<(), AllocError> {
        self.add_longest(trace)?;
        trace.push(4)?;
        self.add_bytes(trace, (turn / 40).saturating_mul(50))
    }

    fn add_trace(&mut self, trace: &mut Vec<u8>, turn: usize) -> Result<(), AllocError> {
        match self.plan.shape {
            Shape::Whole => self.add_whole(trace),
            Shape::BadOpening => self.add_bad_opening(trace),
            Shape::Cut => self.add_cut(trace),
            Shape::CutRecord => self.add_cut_record(trace, turn),
            Shape::UnknownKind => self.add_unknown_kind(trace),
            Shape::Noise => self.add_noise(trace),
            Shape::Short => self.add_short(trace, turn),
            Shape::Longest => self.add_longest(trace),
            Shape::TooLong => self.add_too_long(trace, turn),
        }
    }
}

// The kind and the bytes of body that are kept of the record that is cut off, by turns, and whether it is the first record.
fn cut_of(turn: usize) -> (u8, usize, bool) {
    let mut cut = turn % CUTS;
    for (kind, length) in BODIES {
        if cut < length {
            return (kind, cut, false);
        }
        cut = cut.saturating_sub(length);
    }
    (0, cut, true)
}

// Writes a trace in place of the one that stands there, and gives its plan's name.
pub fn write_trace(
    trace: &mut Vec<u8>,
    seed: u64,
    number: usize,
) -> Result<&'static str, AllocError> {
    let plan = Plan::of(number);
    let mut seeds = Random::new(seed);
    let random = Random::new(seeds.next().wrapping_add(number as u64));
    trace.clear();
    Source::new(plan, random).add_trace(trace, number / 24)?;
    Ok(plan.name)
}
