// Receipts.
ghost use Rattle.std.specs.Prelude.{◌≡◌};
ghost use Rattle.recorder.specs.Answers.{receipt_answer};
ghost use Rattle.recorder.specs.Changes.{after_receipt};
ghost use Rattle.stamper.specs.Readings.{TookReading};
ghost use Rattle.refusals.specs.Refusals.{result_map, shown};
ghost use Rattle.stamps.specs.Rules.{stamped_numbers};

use crate::open::Open;
use clocks::bank::ClockBank;
use clocks::sample::Sample;
use keys::kind::KeyKind;
use refusals::refusal::Refusal;
use stamps::stamped::Stamped;
use store::version_store::VersionStore;

impl<B: ClockBank, K: KeyKind, S: VersionStore<K>> Open<B, K, S> {
    // The receipt of a message that is under way.
    pub fn receipt(&mut self, sample: Sample, number: u32) -> Result<Stamped, Refusal>
        ensures answer { shown (result_map stamped_numbers result)
            ≡ receipt_answer B.meaning self.old sample number }
        ensures change { self.new ≡ after_receipt self.old sample number
            (shown (result_map stamped_numbers result)) self.new.bank }
        ensures reading { TookReading B.meaning B.beside sample (shown (result_map stamped_numbers result))
            self.old.bank self.new.bank }
    {
        self.exchange.receipt(sample, number)
    }
}
