// Versions.
ghost use Rattle.std.specs.Prelude.{◌≡◌};
ghost use Rattle.store.specs.Versions.{id_cmp};

use keys::kind::KeyKind;
use std::cmp::Ordering;

// One setpoint of a key, as a put left it.
#[derive(Clone, Copy, PartialEq, Eq, Debug)]
pub struct Version<K> {
    pub key: K,
    // The code of a stamp; a store takes any 64 bits.
    pub stamp: u64,
    pub node: u8,
    // In thousandths of the key's unit.
    pub value: i32,
}

impl<K: KeyKind> Version<K> {
    // By key, then stamp, then node.
    pub fn id_cmp(&self, other: &Version<K>) -> Ordering
        ensures { result ≡ id_cmp K.cmp self.now other.now }
    {
        (self.key, self.stamp, self.node).cmp(&(other.key, other.stamp, other.node))
    }
}
