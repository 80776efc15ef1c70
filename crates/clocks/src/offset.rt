// What the offset layer adds to the readings of one node.
ghost use Rattle.std.specs.Prelude.{◌≡◌, pos, negsuc, ◌≤ℤ◌};
ghost use Rattle.refusals.specs.Refusals.{result_map, shown};

use crate::day::DAY_MILLIS;
use refusals::refusal::Refusal;

// A signed number of milliseconds, at most a day either way.
#[derive(Clone, Copy, Debug)]
pub struct Offset {
    pub(crate) millis: i64,
    ghost least: { negsuc 86399999 ≤ℤ millis },
    ghost most: { millis ≤ℤ pos 86400000 },
}

impl Offset {
    ghost use Rattle.clocks.specs.Settings.{offset_of, offset_setting};

    pub const MAX: i64 = DAY_MILLIS as i64;

    // Refused with 4 beyond a day either way.
    pub fn new(millis: i64) -> Result<Offset, Refusal>
        ensures setting { shown (result_map offset_of result) ≡ offset_setting millis }
        ensures most { Offset.MAX ≡ pos 86400000 }
    {
        if !(-Offset::MAX..=Offset::MAX).contains(&millis) {
            return Err(Refusal::SettingOutOfRange);
        }
        Ok(Offset { millis })
    }
}
