// Tick counters: each node has a base and a step.
ghost use Rattle.std.specs.Prelude.{◌≡◌};
ghost use Rattle.clocks.specs.Highs.{highs_of};
ghost use Rattle.clocks.specs.TickCounters.{fresh_ticks, tick_meaning, ticks_of};
ghost use Rattle.std.proofs.Common.{rules};

use crate::bank::{ClockBank, NODES};
use crate::highs::Highs;
use crate::reading::Reading;
use crate::sample::Sample;
use crate::tick::Tick;
use refusals::refusal::Refusal;

// The settings of the nodes, which stay, and their highs, in the type that three banks share.
#[derive(Drop)]
pub struct TickCounters {
    ticks: [Tick; NODES],
    highs: Highs,
}

impl TickCounters {
    // Counters from which nothing was taken yet.
    pub fn new(ticks: [Tick; NODES]) -> TickCounters
        ensures fresh { ⟦<TickCounters as ClockBank>⟧.meaning result ≡ fresh_ticks ticks }
        ensures ticks { ticks_of result ≡ ticks }
    {
        TickCounters {
            ticks,
            highs: Highs::new(),
        }
    }
}

impl ClockBank for TickCounters {
    ghost meaning = { λ s. tick_meaning s.ticks (highs_of s.highs) };

    // The settings stay.
    ghost beside = { λ _ _ old new. ticks_of new ≡ ticks_of old };

    ghost lawful = { Prim.search rules };

    fn look(&self, sample: Sample) -> Result<Reading, Refusal> {
        let high = self.highs.of(sample.node)?;
        let count = u32::try_from(sample.raw.0).map_err(|_| Refusal::ReadingOutOfRange)?;
        let reading = Reading::new(self.ticks[usize::from(sample.node)].millis_at(count))?;
        if high.is_some_and(|high| reading < high) {
            return Err(Refusal::ClockFellBack);
        }
        Ok(reading)
    }

    // As trace clocks do. One body for both would be a method of the trait, over a raise that anybody could call.
    fn take(&mut self, sample: Sample) -> Result<Reading, Refusal> {
        let reading = self.look(sample)?;
        self.highs.raise(sample.node, reading);
        Ok(reading)
    }
}
