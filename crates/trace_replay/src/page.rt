// The page of a trace at a stamp.
ghost use Rattle.std.specs.Prelude.{◌≡◌, IfOk, map};
ghost use Rattle.refusals.specs.Refusals.{result_map, shown};
ghost use Rattle.replay.specs.Calls.{answer_numbers};
ghost use Rattle.trace.specs.Contents.{content_of};
ghost use Rattle.trace_replay.specs.Page.{IsPaged};
ghost use Rattle.trace_replay.specs.Within.{AsksForPage, IsOfCut, cut_page};
ghost use Rattle.trace_run.specs.Calls.{calls_of};
ghost use Rattle.trace_run.specs.SetUp.{set_up_numbers};

use crate::stores::StoredKey;
use refusals::refusal::Refusal;
use replay::call::{Answer, Call, Question};
use replay::replay::Run;
use std::alloc::{AllocError, Global};
use store::version::Version;
use trace::records::Record;
use trace_run::calls::calls_for;
use trace_run::setup::SetUp;

// What a recorder answers to a trace's calls; and the rows of the page at a stamp behind them, or why there is none.
#[derive(Drop)]
pub struct Paged<K> {
    pub answers: Vec<Answer<K>>,
    pub page: Result<Vec<Version<K>>, Refusal>,
}

// The rows of the page, taken from what a cut answered.
fn page_of<K: Drop>(answer: Option<Answer<K>>) -> Result<Vec<Version<K>>, Refusal>
    requires { IsOfCut answer }
    ensures { shown (result_map (λ rows. rows.items) result) ≡ cut_page answer }
{
    let Some(Answer::Cut { count, mut rows }) = answer else {
        unreachable!()
    };
    rows.truncate(count?);
    Ok(rows)
}

// The question for the page at a stamp, with a row for each version that there can be.
fn page_question<K: StoredKey>(heap: Global, stamp: u64) -> Result<Vec<Question<K>>, AllocError>
    ensures { IfOk result (λ questions. AsksForPage stamp questions.items) }
{
    let rows = K::blank_rows(heap)?;
    let mut questions = Vec::with_capacity(heap, 1)?;
    questions.push(Question::Cut { stamp, rows })?;
    Ok(questions)
}

// What a fresh recorder answers to these calls, and to a cut behind them.
fn paged_by<K: StoredKey>(
    heap: Global,
    setup: SetUp,
    calls: Vec<Call<K>>,
    closes: bool,
    stamp: u64,
) -> Result<Paged<K>, AllocError>
    ensures { IfOk result (λ paged. IsPaged K.cmp (set_up_numbers setup) calls.items closes stamp
        (map answer_numbers paged.answers.items) (shown (result_map (λ rows. rows.items) paged.page))) }
{
    let questions = page_question(heap, stamp)?;
    let run = Run {
        calls,
        closes,
        questions,
    };
    let mut answers = K::replay_run(heap, setup, run)?;
    let page = page_of(answers.pop());
    Ok(Paged { answers, page })
}

// The same with the calls of the records behind a set-up.
pub fn page_for<K: StoredKey>(
    heap: Global,
    setup: SetUp,
    records: &[Record],
    closes: bool,
    stamp: u64,
) -> Result<Paged<K>, AllocError>
    ensures { let calls = calls_of K.form (map content_of records.now) in
        IfOk result (λ paged. IsPaged K.cmp (set_up_numbers setup) calls closes stamp
        (map answer_numbers paged.answers.items) (shown (result_map (λ rows. rows.items) paged.page))) }
{
    paged_by(heap, setup, calls_for(heap, records)?, closes, stamp)
}
