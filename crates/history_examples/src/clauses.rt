// Entries that break the law.
ghost use Rattle.std.specs.Prelude.{◌≡◌, true};
ghost use Rattle.history_examples.specs.Examples.{EachClauseBites};

use keys::kind::KeyKind;

// Whether for each clause of the law there are entries that break it alone.
pub fn clauses_bite<K: KeyKind>() -> bool
    ensures answer { result ≡ true }
    ensures clauses { EachClauseBites K.cmp }
{
    true
}
