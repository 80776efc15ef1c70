// Sends.
ghost use Rattle.std.specs.Prelude.{◌≡◌};
ghost use Rattle.recorder.specs.Answers.{send_answer};
ghost use Rattle.recorder.specs.Changes.{after_send};
ghost use Rattle.stamper.specs.Readings.{TookReading};
ghost use Rattle.refusals.specs.Refusals.{result_map, shown};
ghost use Rattle.stamps.specs.Rules.{stamped_numbers};

use crate::open::Open;
use clocks::bank::ClockBank;
use clocks::sample::Sample;
use keys::kind::KeyKind;
use refusals::refusal::Refusal;
use stamps::stamped::Stamped;
use store::version_store::VersionStore;

impl<B: ClockBank, K: KeyKind, S: VersionStore<K>> Open<B, K, S> {
    // The send of a message to a node, which may be the sender.
    pub fn send(&mut self, sample: Sample, to: u8, number: u32) -> Result<Stamped, Refusal>
        ensures answer { shown (result_map stamped_numbers result)
            ≡ send_answer B.meaning self.old sample to number }
        ensures change { self.new ≡ after_send self.old sample to number
            (shown (result_map stamped_numbers result)) self.new.bank }
        ensures reading { TookReading B.meaning B.beside sample (shown (result_map stamped_numbers result))
            self.old.bank self.new.bank }
    {
        self.exchange.send(sample, to, number)
    }
}
