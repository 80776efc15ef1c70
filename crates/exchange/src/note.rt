// Notes.
ghost use Rattle.std.specs.Prelude.{◌≡◌};
ghost use Rattle.exchange.specs.Answers.{note_answer};
ghost use Rattle.exchange.specs.Changes.{after_note};
ghost use Rattle.exchange.specs.State.{GoesForward};
ghost use Rattle.refusals.specs.Refusals.{result_map, shown};
ghost use Rattle.stamper.specs.Readings.{TookReading};
ghost use Rattle.stamps.specs.Rules.{stamped_numbers};

use crate::exchange::Exchange;
use clocks::bank::ClockBank;
use clocks::sample::Sample;
use refusals::refusal::Refusal;
use stamps::stamped::Stamped;

impl<B: ClockBank> Exchange<B> {
    // A mark of a node's own.
    pub fn note(&mut self, sample: Sample) -> Result<Stamped, Refusal>
        ensures answer { shown (result_map stamped_numbers result) ≡ note_answer B.meaning self.old sample }
        ensures change { self.new
            ≡ after_note self.old sample (shown (result_map stamped_numbers result)) self.new.bank }
        ensures reading { TookReading B.meaning B.beside sample (shown (result_map stamped_numbers result))
            self.old.bank self.new.bank }
        ensures forward { GoesForward self.old.last self.new.last }
    {
        self.check_node(sample.node)?;
        let noted = self.own(sample)?;
        self.go_on(sample, noted);
        Ok(noted)
    }
}
