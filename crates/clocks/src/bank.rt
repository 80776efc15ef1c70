// What every clock bank does.
ghost use Rattle.std.specs.Prelude.{◌≡◌, ℕ, Result};
ghost use Rattle.clocks.specs.Bank.{IsLawful, Meaning, Taken, look_answer};
ghost use Rattle.clocks.specs.Reading.{millis_of};
ghost use Rattle.clocks.specs.declared.sample.Sample.{Sample};
ghost use Rattle.refusals.specs.Refusals.{result_map, shown};

use crate::reading::Reading;
use crate::sample::Sample;
use refusals::refusal::Refusal;

// A bank has a clock for each of the nodes 0 to 15.
pub const NODES: usize = 16;

// The clocks of the nodes. Whoever has checks to make first looks, makes them, and then takes.
pub trait ClockBank {
    // For each node its high, its backstep and its answers.
    ghost meaning: { Self → Meaning };

    // What a take that answers so does beside the meaning: what it keeps, and what became of a bank below.
    ghost beside: { Sample → Result ℕ ℕ → Self → Self → Type 0 } = { λ _ _ _ _. Unit {0} };

    // The node's reading at this raw number: refused with 7 for a node above 15, else a reading, 8 or 9.
    fn look(&self, sample: Sample) -> Result<Reading, Refusal>
        ensures { shown (result_map millis_of result) ≡ look_answer (meaning self.now) sample.node sample.raw.0 };

    // The same answer. Where it is a reading, the node's high becomes the larger of itself and the reading.
    fn take(&mut self, sample: Sample) -> Result<Reading, Refusal>
        ensures answer { shown (result_map millis_of result) ≡ look_answer (meaning self.old) sample.node sample.raw.0 }
        ensures change { Taken (shown (result_map millis_of result)) sample.node (meaning self.old) (meaning self.new) }
        ensures beside { beside sample (shown (result_map millis_of result)) self.old self.new };

    // No reading that is answered is below the high less the backstep.
    ghost lawful: { (bank : Self) → IsLawful (meaning bank) };
}
