// Trace clocks: the raw number is the reading.
ghost use Rattle.std.specs.Prelude.{◌≡◌};
ghost use Rattle.clocks.specs.Highs.{highs_of};
ghost use Rattle.clocks.specs.Settings.{backstep_of};
ghost use Rattle.clocks.specs.TraceClocks.{fresh_trace, trace_meaning};
ghost use Rattle.std.proofs.Common.{rules};

use crate::backstep::Backstep;
use crate::bank::ClockBank;
use crate::highs::Highs;
use crate::reading::Reading;
use crate::sample::Sample;
use refusals::refusal::Refusal;

// The highs of the nodes, and the backstep of each.
#[derive(Drop)]
pub struct TraceClocks {
    highs: Highs,
    backstep: Backstep,
}

impl TraceClocks {
    // Clocks from which nothing was taken yet.
    pub fn new(backstep: Backstep) -> TraceClocks
        ensures { ⟦<TraceClocks as ClockBank>⟧.meaning result ≡ fresh_trace (backstep_of backstep) }
    {
        TraceClocks {
            highs: Highs::new(),
            backstep,
        }
    }
}

impl ClockBank for TraceClocks {
    ghost meaning = { λ s. trace_meaning (highs_of s.highs) s.backstep.millis };

    ghost lawful = { Prim.search rules };

    fn look(&self, sample: Sample) -> Result<Reading, Refusal> {
        let high = self.highs.of(sample.node)?;
        let reading = Reading::new(sample.raw.0)?;
        // The highest high that the reading may follow.
        let reach = reading.millis() + u64::from(self.backstep.millis);
        if high.is_some_and(|high| reach < high.millis()) {
            return Err(Refusal::ClockFellBack);
        }
        Ok(reading)
    }

    // As tick counters do; why there is no body for both stands there.
    fn take(&mut self, sample: Sample) -> Result<Reading, Refusal> {
        let reading = self.look(sample)?;
        self.highs.raise(sample.node, reading);
        Ok(reading)
    }
}
