// Losses.
ghost use Rattle.std.specs.Prelude.{◌≡◌};
ghost use Rattle.exchange.specs.Answers.{loss_answer};
ghost use Rattle.exchange.specs.Changes.{after_loss};
ghost use Rattle.refusals.specs.Refusals.{shown};

use crate::exchange::Exchange;
use refusals::refusal::Refusal;

impl<B> Exchange<B> {
    // The loss of a message that is under way.
    pub fn loss(&mut self, number: u32) -> Result<(), Refusal>
        ensures answer { shown result ≡ loss_answer self.old number }
        ensures change { self.new ≡ after_loss self.old number (shown result) }
    {
        if self.messages.find(number).is_none() {
            return Err(Refusal::NumberNotUnderWay);
        }
        self.messages.remove(number);
        Ok(())
    }
}
