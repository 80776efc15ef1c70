// Receipts.
ghost use Rattle.std.specs.Prelude.{◌≡◌};
ghost use Rattle.exchange.specs.Answers.{receipt_answer};
ghost use Rattle.exchange.specs.Changes.{after_receipt};
ghost use Rattle.exchange.specs.State.{GoesForward};
ghost use Rattle.refusals.specs.Refusals.{result_map, shown};
ghost use Rattle.stamper.specs.Readings.{TookReading};
ghost use Rattle.stamps.specs.Rules.{stamped_numbers};

use crate::exchange::Exchange;
use clocks::bank::ClockBank;
use clocks::sample::Sample;
use refusals::refusal::Refusal;
use stamps::stamped::Stamped;

impl<B: ClockBank> Exchange<B> {
    // The receipt of a message that is under way.
    pub fn receipt(&mut self, sample: Sample, number: u32) -> Result<Stamped, Refusal>
        ensures answer { shown (result_map stamped_numbers result)
            ≡ receipt_answer B.meaning self.old sample number }
        ensures change { self.new ≡ after_receipt self.old sample number
            (shown (result_map stamped_numbers result)) self.new.bank }
        ensures reading { TookReading B.meaning B.beside sample (shown (result_map stamped_numbers result))
            self.old.bank self.new.bank }
        ensures forward { GoesForward self.old.last self.new.last }
    {
        self.check_node(sample.node)?;
        let Some(message) = self.messages.find(number) else {
            return Err(Refusal::NumberNotUnderWay);
        };
        if message.to != sample.node {
            return Err(Refusal::OtherAddressee);
        }
        let stamped = self.stamper.receipt(sample, message.stamp)?;
        self.go_on(sample, stamped);
        self.messages.remove(number);
        Ok(stamped)
    }
}
