// The highest reading that was taken of each node.
ghost use Rattle.std.specs.Prelude.{◌≡◌, ◌<◌};
ghost use Rattle.clocks.specs.Highs.{fresh_highs, high_answer, highs_of, kept_high, raised_high};
ghost use Rattle.clocks.specs.Reading.{millis_of};
ghost use Rattle.refusals.specs.Refusals.{result_map, shown};

use crate::bank::NODES;
use crate::reading::Reading;
use refusals::refusal::Refusal;

// None for a node of which nothing was taken yet.
#[derive(Drop)]
pub(crate) struct Highs {
    readings: [Option<Reading>; NODES],
}

impl Highs {
    #[tactic(auto, unfolding(crate::specs::Highs::highs_of))]
    pub(crate) fn new() -> Highs
        ensures { highs_of result ≡ fresh_highs }
    {
        Highs {
            readings: [None; NODES],
        }
    }

    // Refused with 7 for a node above 15.
    #[tactic(auto, unfolding(crate::specs::Highs::highs_of))]
    pub(crate) fn of(&self, node: u8) -> Result<Option<Reading>, Refusal>
        ensures { shown (result_map kept_high result) ≡ high_answer (highs_of self.now) node }
    {
        self.readings
            .get(usize::from(node))
            .copied()
            .ok_or(Refusal::NoSuchNode)
    }

    // The node's high becomes the larger of itself and the reading.
    #[tactic(auto, unfolding(crate::specs::Highs::highs_of))]
    pub(crate) fn raise(&mut self, node: u8, reading: Reading)
        requires { node < 16 }
        ensures { highs_of self.new ≡ raised_high node (millis_of reading) (highs_of self.old) }
    {
        let high = &mut self.readings[usize::from(node)];
        *high = (*high).max(Some(reading));
    }
}
