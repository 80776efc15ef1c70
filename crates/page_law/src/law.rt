// The law of a trace's page.
ghost use Rattle.std.specs.Prelude.{◌≡◌, true};
ghost use Rattle.page_law.specs.Inspected.{PagesAreInspected};

use trace_run::calls::TraceKey;

// What the law of whole runs says of the page of any trace at any stamp. No stamp is ahead of its clock by more than the bound. No
// more puts are accepted than the trace has. A page is final exactly if its stamp is settled; an open recorder's is not final
// exactly if a node holds it back. A final page has the newest versions of all puts, and each row comes from one event, whose
// record put it. A page that is final of the open recorder stays as it is, whatever comes later. And the newest stamp with a final
// page is the one that is given.
pub fn page_is_inspected<K: TraceKey>() -> bool
    ensures answer { result ≡ true }
    ensures inspected { PagesAreInspected K.form K.cmp }
{
    true
}
