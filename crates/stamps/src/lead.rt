// How far a message's time may be above the reading of the node that receives it.
ghost use Rattle.std.specs.Prelude.{◌≡◌, ◌≤◌};
ghost use Rattle.clocks.specs.Limits.{day_millis};
ghost use Rattle.clocks.specs.Reading.{millis_of};
ghost use Rattle.refusals.specs.Refusals.{result_map, shown};

use crate::stamp::Stamp;
use clocks::day::DAY_MILLIS;
use clocks::reading::Reading;
use refusals::refusal::Refusal;

// A number of milliseconds, at most a day: a type of its own, as a backstep is.
#[derive(Clone, Copy, Debug)]
pub struct Lead {
    millis: u32,
    ghost limited: { millis ≤ day_millis },
}

impl Lead {
    ghost use Rattle.stamps.specs.Lead.{is_too_far_ahead, lead_of, lead_setting};
    ghost use Rattle.stamps.specs.Stamp.{stamp_of};

    pub const MAX: u32 = DAY_MILLIS;

    // Refused with 4 above a day.
    pub fn new(millis: u32) -> Result<Lead, Refusal>
        ensures setting { shown (result_map lead_of result) ≡ lead_setting millis }
        ensures most { Lead.MAX ≡ day_millis }
    {
        if millis > Lead::MAX {
            return Err(Refusal::SettingOutOfRange);
        }
        Ok(Lead { millis })
    }

    pub fn millis(self) -> u32
        ensures { result ≡ lead_of self }
    {
        self.millis
    }

    // Whether a message with the stamp `sent` is too far ahead of the reading to be received.
    pub fn is_exceeded(self, sent: Stamp, reading: Reading) -> bool
        ensures { result ≡ is_too_far_ahead (lead_of self) (stamp_of sent).time (millis_of reading) }
    {
        sent.time > reading.millis() + u64::from(self.millis)
    }
}
