// Points.
ghost use Rattle.std.specs.Prelude.{◌≡◌};
ghost use Rattle.std.specs.Ordering.{nat_cmp};

use crate::kind::KeyKind;

// A point of the plant, by its number.
#[derive(Clone, Copy, PartialEq, Eq, PartialOrd, Ord, Debug)]
pub struct Point(pub u32);

impl Point {
    // Points are in the order of their numbers.
    pub fn number(self) -> u32
        ensures number { result ≡ self.0 }
        ensures order { (other : Point) → ⟦<Point as Ord>⟧.cmp self other ≡ nat_cmp result other.0 }
    {
        self.0
    }
}

impl KeyKind for Point {
    ghost use Rattle.std.proofs.Common.{rules};

    ghost law = { Prim.search rules };
}
