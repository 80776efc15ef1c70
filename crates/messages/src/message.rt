// Messages.
ghost use Rattle.std.specs.Prelude.{◌≡◌};

use stamps::stamp::Stamp;

// A message under way: its number, the node that is to receive it, and the stamp of its send.
#[derive(Clone, Copy, PartialEq, Eq, Debug)]
pub struct Message {
    pub number: u32,
    pub to: u8,
    pub stamp: Stamp,
}

// What stands in a place that is free.
impl Default for Message {
    ghost use Rattle.messages.specs.Messages.{message_numbers, no_message};

    ghost is_default = { λ m. message_numbers m ≡ no_message };

    fn default() -> Message {
        Message {
            number: 0,
            to: 0,
            stamp: Stamp::zero(),
        }
    }
}
