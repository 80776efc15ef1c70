// The never-backwards layer: answers the larger of the reading below and its own high.
ghost use Rattle.std.specs.Prelude.{◌≡◌};
ghost use Rattle.clocks.specs.Bank.{BesideBelow, TakenBelow, look_answer};
ghost use Rattle.clocks.specs.Highs.{high_limited, highs_of};
ghost use Rattle.clocks.specs.NeverBackwards.{bank_below, fresh_rising, rising_meaning};
ghost use Rattle.std.proofs.Common.{rules};

use crate::bank::ClockBank;
use crate::highs::Highs;
use crate::reading::Reading;
use crate::sample::Sample;
use refusals::refusal::Refusal;

// The bank below, and the highest reading that was taken of each node.
#[derive(Drop)]
pub struct NeverBackwards<B> {
    below: B,
    highs: Highs,
}

impl<B: ClockBank> NeverBackwards<B> {
    // Its own highs start at 0, whatever was taken from the bank below.
    pub fn new(below: B) -> NeverBackwards<B>
        ensures fresh { ⟦<NeverBackwards<B> as ClockBank>⟧.meaning result ≡ fresh_rising (B.meaning below) }
        ensures below { bank_below result ≡ below }
    {
        NeverBackwards {
            below,
            highs: Highs::new(),
        }
    }
}

impl<B: ClockBank> ClockBank for NeverBackwards<B> {
    ghost meaning = { λ s. rising_meaning (highs_of s.highs) (B.meaning s.below) };

    // The bank below is taken from as well.
    ghost beside = { λ sample answer old new.
        TakenBelow answer sample.node sample.raw.0 (B.meaning (bank_below old)) (B.meaning (bank_below new))
        × BesideBelow B.beside sample answer
        (look_answer (B.meaning (bank_below old)) sample.node sample.raw.0) (bank_below old) (bank_below new) };

    ghost lawful = { Prim.search (rules, high_limited) };

    fn look(&self, sample: Sample) -> Result<Reading, Refusal> {
        let high = self.highs.of(sample.node)?;
        let reading = self.below.look(sample)?;
        Ok(high.map_or(reading, |high| reading.max(high)))
    }

    fn take(&mut self, sample: Sample) -> Result<Reading, Refusal> {
        let reading = self.look(sample)?;
        self.below.take(sample)?;
        self.highs.raise(sample.node, reading);
        Ok(reading)
    }
}
