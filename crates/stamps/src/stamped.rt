// What an accepted event answers.
ghost use Rattle.std.specs.Prelude.{Some};

use crate::stamp::Stamp;
use std::fmt;

// The event's stamp, and its drift: how far the stamp's time is above the clock's reading.
#[derive(Clone, Copy, PartialEq, Eq, Debug)]
pub struct Stamped {
    pub stamp: Stamp,
    pub drift: u64,
}

impl fmt::Display for Stamped {
    ghost use Rattle.stamps.specs.Text.{stamped_text};

    ghost output = { λ s. Some (stamped_text s) };

    fn fmt<W: fmt::Write>(&self, f: &mut fmt::Formatter<W>) -> fmt::Result {
        write!(f, "{} drift {}", self.stamp, self.drift)
    }
}
