// Settled stamps.
ghost use Rattle.std.specs.Prelude.{◌≡◌, true};
ghost use Rattle.history.specs.Law.{AllSettledWhenClosed, SettledStays};

use keys::kind::KeyKind;

// Whether what is written later leaves a settled stamp settled and its answers as they are, and a close settles every stamp.
pub fn settled_stays<K: KeyKind>() -> bool
    ensures answer { result ≡ true }
    ensures stays { SettledStays K.cmp }
    ensures closed { AllSettledWhenClosed K.cmp }
{
    true
}
