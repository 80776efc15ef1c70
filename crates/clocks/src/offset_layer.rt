// The offset layer: adds a signed number of milliseconds for each node to the bank below.
ghost use Rattle.std.specs.Prelude.{◌≡◌};
ghost use Rattle.clocks.specs.Bank.{BesideBelow, TakenBelow, look_answer};
ghost use Rattle.clocks.specs.OffsetLayer.{bank_below, offset_meaning, offsets_of};
ghost use Rattle.std.proofs.Common.{rules};

use crate::bank::{ClockBank, NODES};
use crate::offset::Offset;
use crate::reading::Reading;
use crate::sample::Sample;
use refusals::refusal::Refusal;

// The bank below, and the offsets of the nodes.
#[derive(Drop)]
pub struct OffsetLayer<B> {
    below: B,
    offsets: [Offset; NODES],
}

impl<B: ClockBank> OffsetLayer<B> {
    pub fn new(below: B, offsets: [Offset; NODES]) -> OffsetLayer<B>
        ensures fresh { ⟦<OffsetLayer<B> as ClockBank>⟧.meaning result ≡ offset_meaning offsets (B.meaning below) }
        ensures below { bank_below result ≡ below }
        ensures offsets { offsets_of result ≡ offsets }
    {
        OffsetLayer { below, offsets }
    }
}

impl<B: ClockBank> ClockBank for OffsetLayer<B> {
    ghost meaning = { λ s. offset_meaning s.offsets (B.meaning s.below) };

    // The bank below is taken from where this layer answers a reading, and the offsets stay.
    ghost beside = { λ sample answer old new.
        TakenBelow answer sample.node sample.raw.0 (B.meaning (bank_below old)) (B.meaning (bank_below new))
        × BesideBelow B.beside sample answer
        (look_answer (B.meaning (bank_below old)) sample.node sample.raw.0) (bank_below old) (bank_below new)
        × (offsets_of new ≡ offsets_of old) };

    ghost lawful = { Prim.search rules };

    fn look(&self, sample: Sample) -> Result<Reading, Refusal> {
        let offset = self
            .offsets
            .get(usize::from(sample.node))
            .ok_or(Refusal::NoSuchNode)?;
        let reading = self.below.look(sample)?;
        let sum = reading
            .millis()
            .checked_add_signed(offset.millis)
            .ok_or(Refusal::ReadingOutOfRange)?;
        Reading::new(sum)
    }

    fn take(&mut self, sample: Sample) -> Result<Reading, Refusal> {
        let reading = self.look(sample)?;
        self.below.take(sample)?;
        Ok(reading)
    }
}
