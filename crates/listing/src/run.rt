// The run of a trace through a recorder.
ghost use Rattle.std.specs.Prelude.{map};
ghost use Rattle.trace.specs.Contents.{content_of};
ghost use Rattle.trace_replay.specs.Traced.{first_state};
ghost use Rattle.trace_run.specs.SetUp.{set_up_numbers};
ghost use Rattle.listing.specs.Outcomes.{AddsOutcomes};
ghost use Rattle.listing.specs.Text.{outcomes, outcomes_for};

use crate::outcomes::add_outcomes;
use keys::point::Point;
use keys::tag::Tag;
use record_lines::end::Counts;
use std::alloc::{AllocError, Global};
use trace::records::Record;
use trace_replay::answers::answers_for;
use trace_replay::stores::StoredKey;
use trace_run::setup::{Keys, SetUp};

// The lines of the records behind a set-up, and the counts of all records: through a recorder of this kind of keys.
fn add_run_of<K: StoredKey>(
    text: &mut String,
    heap: Global,
    setup: SetUp,
    records: &[Record],
) -> Result<Counts, AllocError>
    ensures { let start = first_state (set_up_numbers setup) in
        let all = outcomes K.form K.cmp (set_up_numbers setup).backstep start (map content_of records.now) in
        AddsOutcomes text.old text.new all result }
{
    let answers = answers_for::<K>(heap, setup, records)?;
    add_outcomes(text, records, &answers)
}

// The same through a recorder of the set-up's kind of keys.
pub(crate) fn add_run(
    text: &mut String,
    heap: Global,
    setup: SetUp,
    records: &[Record],
) -> Result<Counts, AllocError>
    ensures { let all = outcomes_for setup.keys (set_up_numbers setup) (map content_of records.now) in
        AddsOutcomes text.old text.new all result }
{
    match setup.keys {
        Keys::Points => add_run_of::<Point>(text, heap, setup, records),
        Keys::Tags => add_run_of::<Tag>(text, heap, setup, records),
    }
}
