// The list of the messages under way.
ghost use Rattle.std.specs.Prelude.{◌≡◌, ◌≤◌, length, map};
ghost use Rattle.messages.specs.Messages.{AreDistinct, message_numbers, most_under_way};
ghost use Rattle.refusals.specs.Refusals.{shown};
ghost use Rattle.store.specs.Page.{after_cut, cut_answer};

use crate::open::Open;
use clocks::bank::ClockBank;
use keys::kind::KeyKind;
use messages::message::Message;
use refusals::refusal::Refusal;
use store::version_store::VersionStore;

impl<B: ClockBank, K: KeyKind, S: VersionStore<K>> Open<B, K, S> {
    // Writes the messages under way into the rows, each once, and answers how many. Refused with 19 where there are fewer places,
    // and then none changes; the places behind the last row stay.
    pub fn list_messages(&self, rows: &mut [Message]) -> Result<usize, Refusal>
        ensures answer { shown result ≡ cut_answer self.now.messages (length rows.old) }
        ensures rows { map message_numbers rows.new
            ≡ after_cut self.now.messages (map message_numbers rows.old) }
        ensures distinct { AreDistinct self.now.messages }
        ensures few { length self.now.messages ≤ most_under_way }
    {
        self.exchange.list_messages(rows)
    }
}
