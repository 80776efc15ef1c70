// The close.
ghost use Rattle.std.specs.Prelude.{◌≡◌};

use crate::exchange::Exchange;
use clocks::bank::ClockBank;
use messages::messages::Messages;

impl<B: ClockBank + Drop> Exchange<B> {
    // No node will report any more: what is left are the messages under way.
    pub fn close(self) -> Messages
        ensures { result ≡ self.messages }
    {
        self.messages
    }
}
