// The order in which nodes report.
ghost use Rattle.std.specs.Prelude.{◌≡◌, true};
ghost use Rattle.history.specs.Unique.{OneStamping};

use keys::kind::KeyKind;

// Whether two orders of the same events have the same stamps, answers and pages.
pub fn stamps_are_unique<K: KeyKind>() -> bool
    ensures answer { result ≡ true }
    ensures same { OneStamping K.cmp }
{
    true
}
