// Notes.
ghost use Rattle.std.specs.Prelude.{◌≡◌};
ghost use Rattle.recorder.specs.Answers.{note_answer};
ghost use Rattle.recorder.specs.Changes.{after_note};
ghost use Rattle.stamper.specs.Readings.{TookReading};
ghost use Rattle.refusals.specs.Refusals.{result_map, shown};
ghost use Rattle.stamps.specs.Rules.{stamped_numbers};

use crate::open::Open;
use clocks::bank::ClockBank;
use clocks::sample::Sample;
use keys::kind::KeyKind;
use refusals::refusal::Refusal;
use stamps::stamped::Stamped;
use store::version_store::VersionStore;

impl<B: ClockBank, K: KeyKind, S: VersionStore<K>> Open<B, K, S> {
    // A mark of a node's own.
    pub fn note(&mut self, sample: Sample) -> Result<Stamped, Refusal>
        ensures answer { shown (result_map stamped_numbers result) ≡ note_answer B.meaning self.old sample }
        ensures change { self.new
            ≡ after_note self.old sample (shown (result_map stamped_numbers result)) self.new.bank }
        ensures reading { TookReading B.meaning B.beside sample (shown (result_map stamped_numbers result))
            self.old.bank self.new.bank }
    {
        self.exchange.note(sample)
    }
}
