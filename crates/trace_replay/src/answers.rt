// What a recorder answers to the calls of a trace.
ghost use Rattle.std.specs.Prelude.{◌≡◌, IfOk, map};
ghost use Rattle.replay.specs.Calls.{answer_numbers};
ghost use Rattle.trace.specs.Contents.{content_of};
ghost use Rattle.trace_replay.specs.Machine.{trace_answers};
ghost use Rattle.trace_replay.specs.Traced.{first_state};
ghost use Rattle.trace_run.specs.Calls.{calls_of};
ghost use Rattle.trace_run.specs.SetUp.{set_up_numbers};

use crate::stores::StoredKey;
use replay::call::{Answer, Call};
use replay::replay::Run;
use std::alloc::{AllocError, Global};
use trace::records::Record;
use trace_run::calls::calls_for;
use trace_run::setup::SetUp;

// What a fresh recorder answers to these calls.
fn answers_to<K: StoredKey>(
    heap: Global,
    setup: SetUp,
    calls: Vec<Call<K>>,
) -> Result<Vec<Answer<K>>, AllocError>
    ensures { let start = first_state (set_up_numbers setup) in
        IfOk result (λ answers. map answer_numbers answers.items
        ≡ trace_answers K.cmp (set_up_numbers setup).backstep start calls.items) }
{
    let run = Run {
        calls,
        closes: false,
        questions: Vec::new(heap),
    };
    K::replay_run(heap, setup, run)
}

// The same to the calls of the records behind a set-up.
pub fn answers_for<K: StoredKey>(
    heap: Global,
    setup: SetUp,
    records: &[Record],
) -> Result<Vec<Answer<K>>, AllocError>
    ensures { let start = first_state (set_up_numbers setup) in
        let calls = calls_of K.form (map content_of records.now) in
        IfOk result (λ answers. map answer_numbers answers.items
        ≡ trace_answers K.cmp (set_up_numbers setup).backstep start calls) }
{
    answers_to(heap, setup, calls_for(heap, records)?)
}
