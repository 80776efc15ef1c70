// The law of whole runs.
ghost use Rattle.std.specs.Prelude.{◌≡◌, true};
ghost use Rattle.history.specs.Law.{Law};

use keys::kind::KeyKind;

// Whether every history keeps the law of whole runs, each of its clauses.
#[tactic(auto, using(crate::proofs::Lawful::lawful))]
pub fn law_holds<K: KeyKind>() -> bool
    ensures answer { result ≡ true }
    ensures law { Law K.cmp }
{
    true
}
