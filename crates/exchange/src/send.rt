// Sends.
ghost use Rattle.std.specs.Prelude.{◌≡◌};
ghost use Rattle.exchange.specs.Answers.{send_answer};
ghost use Rattle.exchange.specs.Changes.{after_send};
ghost use Rattle.exchange.specs.State.{GoesForward};
ghost use Rattle.refusals.specs.Refusals.{result_map, shown};
ghost use Rattle.stamper.specs.Readings.{TookReading};
ghost use Rattle.stamps.specs.Rules.{stamped_numbers};

use crate::exchange::Exchange;
use clocks::bank::ClockBank;
use clocks::sample::Sample;
use messages::message::Message;
use refusals::refusal::Refusal;
use stamps::stamped::Stamped;

impl<B: ClockBank> Exchange<B> {
    // The send of a message to a node, which may be the sender.
    pub fn send(&mut self, sample: Sample, to: u8, number: u32) -> Result<Stamped, Refusal>
        ensures answer { shown (result_map stamped_numbers result)
            ≡ send_answer B.meaning self.old sample to number }
        ensures change { self.new ≡ after_send self.old sample to number
            (shown (result_map stamped_numbers result)) self.new.bank }
        ensures reading { TookReading B.meaning B.beside sample (shown (result_map stamped_numbers result))
            self.old.bank self.new.bank }
        ensures forward { GoesForward self.old.last self.new.last }
    {
        self.check_node(sample.node)?;
        self.check_node(to)?;
        self.messages.check_send(number)?;
        let stamped = self.own(sample)?;
        let stamp = stamped.stamp;
        // All checks are made, so this does not refuse.
        self.messages.send(Message { number, to, stamp })?;
        self.go_on(sample, stamped);
        Ok(stamped)
    }
}
