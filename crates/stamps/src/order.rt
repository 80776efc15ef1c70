// The order of stamps, by time and then counter: it is the order of their codes.
ghost use Rattle.std.specs.Prelude.{◌==◌};
ghost use Rattle.std.specs.Ordering.{as_partial_cmp, nat_cmp, on};
ghost use Rattle.std.specs.Cmp.{partial_order_from_own_ties};
ghost use Rattle.std.specs.Cmp.Rules.{comparing};
ghost use Rattle.std.proofs.Common.{rules};
ghost use Rattle.stamps.specs.Stamp.{stamp_code};

use crate::stamp::Stamp;
use std::cmp::Ordering;

impl PartialEq for Stamp {
    ghost eq = { on stamp_code ◌==◌ };

    ghost laws = { Prim.search (comparing, rules) };

    fn eq(&self, other: &Stamp) -> bool {
        self.time == other.time && self.counter == other.counter
    }
}

impl Eq for Stamp {
    ghost laws = { Prim.search (comparing, rules) };
}

impl PartialOrd for Stamp {
    ghost partial_cmp = { as_partial_cmp (on stamp_code nat_cmp) };

    ghost laws = { partial_order_from_own_ties (Prim.search (comparing, rules)) (Prim.search (comparing, rules)) };

    fn partial_cmp(&self, other: &Stamp) -> Option<Ordering> {
        Some(self.cmp(other))
    }
}

impl Ord for Stamp {
    ghost cmp = { on stamp_code nat_cmp };

    ghost total = { Prim.search (comparing, rules) };

    ghost matches_partial_cmp = { Prim.search (comparing, rules) };

    ghost matches_eq = { Prim.search (comparing, rules) };

    fn cmp(&self, other: &Stamp) -> Ordering {
        self.time
            .cmp(&other.time)
            .then(self.counter.cmp(&other.counter))
    }
}
