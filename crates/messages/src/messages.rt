// The messages under way.
ghost use Rattle.std.specs.Prelude.{◌≡◌, ◌≤◌, [], is_some, length, map};
ghost use Rattle.std.specs.Option.{option_copied, option_map};
ghost use Rattle.messages.specs.Messages.{AreDistinct, after_sending, is_under_way, message_numbers, message_of, most_under_way};
ghost use Rattle.messages.specs.Messages.{may_send_answer, without};
ghost use Rattle.refusals.specs.Refusals.{shown};
ghost use Rattle.store.specs.Page.{after_cut, cut_answer};

use crate::message::Message;
use arrayvec::ArrayVec;
use refusals::refusal::Refusal;
use std::marker::Model;

// So many messages are under way at most.
pub const MAX_UNDER_WAY: usize = 64;

// In the order in which they were sent, and no number twice; the place of one that is used up is free again.
#[derive(Drop)]
pub struct Messages {
    under_way: ArrayVec<Message, MAX_UNDER_WAY>,
}

impl Model for Messages {
    ghost use Rattle.std.specs.Prelude.{List, map};
    ghost use Rattle.messages.specs.Messages.{AreDistinct, MessageNumbers, message_numbers};

    ghost Value = { List MessageNumbers };

    ghost view = { λ m. map message_numbers m.under_way.items };

    ghost invariant = { λ m. AreDistinct (map message_numbers m.under_way.items) };
}

impl Messages {
    pub fn new() -> Messages
        ensures none { result ≡ [] }
        ensures most { MAX_UNDER_WAY ≡ most_under_way }
    {
        Messages {
            under_way: ArrayVec::new(),
        }
    }

    // The message of this number, or none.
    #[tactic(auto, using(crate::proofs::Sending::found_if_under_way))]
    pub fn find(&self, number: u32) -> Option<Message>
        ensures message { option_map message_numbers result ≡ message_of number self.now }
        ensures under_way { is_some result ≡ is_under_way number self.now }
    {
        first_of(&self.under_way, number).copied()
    }

    // Whether a message of this number may be sent: refused with 11 where one is under way, then with 12 where 64 are.
    #[tactic(auto, using(crate::proofs::Sending::found_if_under_way, crate::proofs::Sending::full_if_most))]
    pub fn check_send(&self, number: u32) -> Result<(), Refusal>
        ensures { shown result ≡ may_send_answer number self.now }
    {
        if self.find(number).is_some() {
            return Err(Refusal::NumberUnderWay);
        }
        if self.under_way.is_full() {
            return Err(Refusal::TooManyUnderWay);
        }
        Ok(())
    }

    // The message is under way, behind all others; refused as `check_send` does.
    #[tactic(auto, using(crate::proofs::Distinct::distinct_after_sending))]
    pub fn send(&mut self, message: Message) -> Result<(), Refusal>
        ensures answer { shown result ≡ may_send_answer message.number self.old }
        ensures change { self.new ≡ after_sending (message_numbers message) self.old }
    {
        self.check_send(message.number)?;
        self.under_way.push(message);
        Ok(())
    }

    // The message of this number is used up. The others stay, in their order.
    #[tactic(auto, using(crate::proofs::Distinct::distinct_without))]
    pub fn remove(&mut self, number: u32)
        ensures { self.new ≡ without number self.old }
    {
        keep_others(&mut self.under_way, number);
    }

    // Writes the messages into the rows, each once, and answers how many. Refused with 19 where there are fewer places, and then
    // none changes; the places behind the last row stay.
    #[tactic(auto, using(crate::proofs::Listing::shown_rows))]
    pub fn list(&self, rows: &mut [Message]) -> Result<usize, Refusal>
        ensures answer { shown result ≡ cut_answer self.now (length rows.old) }
        ensures rows { map message_numbers rows.new ≡ after_cut self.now (map message_numbers rows.old) }
        ensures distinct { AreDistinct self.now }
        ensures few { length self.now ≤ most_under_way }
    {
        let count = self.under_way.len();
        if rows.len() < count {
            return Err(Refusal::NoRoom);
        }
        rows[..count].copy_from_slice(&self.under_way);
        Ok(count)
    }
}

// The first of the messages that has this number.
fn first_of(messages: &[Message], number: u32) -> Option<&Message>
    ensures { option_map message_numbers (option_copied result)
        ≡ message_of number (map message_numbers messages.now) }
{
    messages.iter().find(|message| message.number == number)
}

// Keeps those of all other numbers, in their order.
fn keep_others(messages: &mut ArrayVec<Message, MAX_UNDER_WAY>, number: u32)
    ensures { map message_numbers messages.new.items
        ≡ without number (map message_numbers messages.old.items) }
{
    messages.retain(|message| message.number != number);
}
