// Losses.
ghost use Rattle.std.specs.Prelude.{◌≡◌};
ghost use Rattle.recorder.specs.Answers.{loss_answer};
ghost use Rattle.recorder.specs.Changes.{after_loss};
ghost use Rattle.refusals.specs.Refusals.{shown};

use crate::open::Open;
use clocks::bank::ClockBank;
use keys::kind::KeyKind;
use refusals::refusal::Refusal;
use store::version_store::VersionStore;

impl<B: ClockBank, K: KeyKind, S: VersionStore<K>> Open<B, K, S> {
    // The loss of a message that is under way.
    pub fn loss(&mut self, number: u32) -> Result<(), Refusal>
        ensures answer { shown result ≡ loss_answer self.old number }
        ensures change { self.new ≡ after_loss self.old number (shown result) }
    {
        self.exchange.loss(number)
    }
}
