// Histories.
ghost use Rattle.std.specs.Prelude.{◌≡◌, ℕ, true};
ghost use Rattle.history_examples.specs.Examples.{ExampleIsHistory, ExampleIsReordered, LongIsHistory};

use keys::kind::KeyKind;

// Whether there are histories, long ones too, and whether there are two of the same events in two orders.
pub fn histories_exist<K: KeyKind>() -> bool
    ensures answer { result ≡ true }
    ensures example { ExampleIsHistory K.cmp }
    ensures long { LongIsHistory K.cmp }
    ensures orders { (key : K) (number : ℕ) → ExampleIsReordered K.cmp key number }
{
    true
}
