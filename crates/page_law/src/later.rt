// What comes later leaves a final page as it is.
ghost use Rattle.std.specs.Prelude.{◌≡◌, true};
ghost use Rattle.page_law.specs.Stays.{FinalPagesStay};

use trace_run::calls::TraceKey;

// A page that is final of an open recorder is final behind any later records too, accepted or refused, and behind a close. It has
// the same rows, and the event that is found for each is the same.
pub fn final_pages_stay<K: TraceKey>() -> bool
    ensures answer { result ≡ true }
    ensures stays { FinalPagesStay K.form K.cmp }
{
    true
}
