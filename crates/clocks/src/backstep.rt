// How far below its high a clock may still read.
ghost use Rattle.std.specs.Prelude.{◌≡◌, ◌≤◌};
ghost use Rattle.clocks.specs.Limits.{day_millis};
ghost use Rattle.refusals.specs.Refusals.{result_map, shown};

use crate::day::DAY_MILLIS;
use refusals::refusal::Refusal;

// A number of milliseconds, at most a day. A message's lead has this range too, and is a type of its own, so that neither
// stands where the other is wanted; over a shared type both would still need their makers.
#[derive(Clone, Copy, Debug)]
pub struct Backstep {
    pub(crate) millis: u32,
    ghost limited: { millis ≤ day_millis },
}

impl Backstep {
    ghost use Rattle.clocks.specs.Settings.{backstep_of, backstep_setting};

    pub const MAX: u32 = DAY_MILLIS;

    // Refused with 4 above a day.
    pub fn new(millis: u32) -> Result<Backstep, Refusal>
        ensures setting { shown (result_map backstep_of result) ≡ backstep_setting millis }
        ensures most { Backstep.MAX ≡ day_millis }
    {
        if millis > Backstep::MAX {
            return Err(Refusal::SettingOutOfRange);
        }
        Ok(Backstep { millis })
    }

    pub fn millis(self) -> u32
        ensures { result ≡ backstep_of self }
    {
        self.millis
    }
}
