// What a history answers.
ghost use Rattle.std.specs.Prelude.{◌≡◌, true};
ghost use Rattle.history.specs.Unique.{OneAnswer, OnePage};

use keys::kind::KeyKind;

// Whether a history has exactly one answer to each read, and exactly one page at each stamp.
pub fn answers_are_unique<K: KeyKind>() -> bool
    ensures answer { result ≡ true }
    ensures reads { OneAnswer K.cmp }
    ensures cuts { OnePage K.cmp }
{
    true
}
