// What a node counts, and what a clock bank makes of it.
ghost use Rattle.std.specs.Prelude.{◌≡◌, ◌≤◌};
ghost use Rattle.clocks.specs.Limits.{max_reading, reading_of};
ghost use Rattle.refusals.specs.Refusals.{result_map, shown};

use refusals::refusal::Refusal;

// A node's own count.
#[derive(Clone, Copy, PartialEq, Eq, Debug)]
pub struct Raw(pub u64);

// A number of milliseconds in the range of readings. Only a clock bank makes one.
#[derive(Clone, Copy, PartialEq, Eq, PartialOrd, Ord, Debug)]
pub struct Reading {
    millis: u64,
    ghost positive: { 1 ≤ millis },
    ghost limited: { millis ≤ max_reading },
}

impl Reading {
    ghost use Rattle.clocks.specs.Reading.{millis_of};

    // The highest reading.
    pub const MAX: u64 = 281_474_976_710_655;

    // Refused with 8 outside the range.
    pub(crate) fn new(millis: u64) -> Result<Reading, Refusal>
        ensures reading { shown (result_map millis_of result) ≡ reading_of millis }
        ensures highest { Reading.MAX ≡ max_reading }
    {
        if !(1..=Reading::MAX).contains(&millis) {
            return Err(Refusal::ReadingOutOfRange);
        }
        Ok(Reading { millis })
    }

    pub fn millis(self) -> u64
        ensures { result ≡ millis_of self }
    {
        self.millis
    }
}
