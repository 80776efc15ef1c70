// Stamps.
ghost use Rattle.std.specs.Prelude.{◌≡◌, IsTrue, Some};
ghost use Rattle.stamps.specs.Range.{is_stamp};

use std::fmt;

// A time, which is a reading, and a counter; or 0.0, the last stamp of a node that has none. The rules take
// 0.0 as any last stamp and give it a code, so it is a stamp and not the want of one.
#[derive(Clone, Copy, Debug)]
pub struct Stamp {
    pub(crate) time: u64,
    pub(crate) counter: u16,
    ghost sound: { IsTrue (is_stamp time counter) },
}

impl Stamp {
    ghost use Rattle.stamps.specs.Stamp.{stamp_of};

    // Milliseconds.
    pub fn time(self) -> u64
        ensures { result ≡ (stamp_of self).time }
    {
        self.time
    }

    pub fn counter(self) -> u16
        ensures { result ≡ (stamp_of self).counter }
    {
        self.counter
    }
}

impl fmt::Display for Stamp {
    ghost use Rattle.stamps.specs.Text.{stamp_text};

    ghost output = { λ s. Some (stamp_text s) };

    fn fmt<W: fmt::Write>(&self, f: &mut fmt::Formatter<W>) -> fmt::Result {
        write!(f, "{}.{}", self.time, self.counter)
    }
}
