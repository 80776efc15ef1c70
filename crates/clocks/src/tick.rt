// How one node's ticks are turned into milliseconds.
ghost use Rattle.std.specs.Prelude.{◌≡◌, ◌+◌, ◌*◌, ◌≤◌};
ghost use Rattle.clocks.specs.Limits.{max_reading, max_step};
ghost use Rattle.refusals.specs.Refusals.{result_map, shown};

use crate::reading::Reading;
use refusals::refusal::Refusal;

// The milliseconds at tick 0, and the milliseconds from one tick to the next.
#[derive(Clone, Copy, Debug)]
pub struct Tick {
    pub(crate) base: u64,
    pub(crate) step: u32,
    ghost low: { base ≤ max_reading },
    ghost positive: { 1 ≤ step },
    ghost short: { step ≤ max_step },
}

impl Tick {
    ghost use Rattle.clocks.specs.Settings.{tick_of, tick_setting};

    // The longest step, in milliseconds.
    pub const MAX_STEP: u32 = 1000;

    // Refused with 4 for a base above the highest reading, or a step outside 1 to 1000.
    pub fn new(base: u64, step: u32) -> Result<Tick, Refusal>
        ensures setting { shown (result_map tick_of result) ≡ tick_setting base step }
        ensures most { Tick.MAX_STEP ≡ max_step }
    {
        if base > Reading::MAX || !(1..=Tick::MAX_STEP).contains(&step) {
            return Err(Refusal::SettingOutOfRange);
        }
        Ok(Tick { base, step })
    }

    // The milliseconds when so many ticks were counted.
    pub(crate) fn millis_at(self, count: u32) -> u64
        ensures { result ≡ self.base + count * self.step }
    {
        self.base + u64::from(count) * u64::from(self.step)
    }
}
