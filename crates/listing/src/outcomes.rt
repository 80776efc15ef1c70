// The lines of the records behind a set-up.
ghost use Rattle.std.specs.Prelude.{◌≡◌, ◌+◌, ◌<◌, ◌^◌, IsOk, is_ok, length, map};
ghost use Rattle.refusals.specs.Refusals.{result_map, shown};
ghost use Rattle.replay.specs.Calls.{answer_numbers};
ghost use Rattle.trace.specs.Contents.{content_of};
ghost use Rattle.trace_run.specs.Calls.{answers_left, call_of, calls_of};
ghost use Rattle.record_lines.specs.Lines.{outcome_for};
ghost use Rattle.listing.specs.Outcomes.{AddsOutcomes, after_one, next_outcome, recorded};

use arrayvec::ArrayVec;
use lines::line::Piece;
use record_lines::end::Counts;
use record_lines::outcome::{add_outcome, answer_pieces};
use refusals::refusal::Refusal;
use replay::call::Answer;
use std::alloc::AllocError;
use trace::records::Record;
use trace_run::calls::{TraceKey, call_for};

// What more is said of a record, or its refusal; and the answers that are left behind it.
#[derive(Drop)]
struct Next<'a, K: TraceKey> {
    more: Result<ArrayVec<Piece, 3>, Refusal>,
    left: &'a [Answer<K>],
}

// A record that is not refused before has the first of the answers.
fn next_of<'a, K: TraceKey>(record: &Record, answers: &'a [Answer<K>]) -> Next<'a, K>
    requires { IsOk (call_of K.form (content_of «record».now)) → 0 < length answers.now }
    ensures more { let m = content_of «record».now in
        outcome_for m (shown (result_map (λ pieces. pieces.items) result.more))
        ≡ next_outcome m (call_of K.form m) (map answer_numbers answers.now) }
    ensures left { map answer_numbers result.left.now
        ≡ answers_left (call_of K.form (content_of «record».now)) (map answer_numbers answers.now) }
{
    if let Err(refusal) = call_for::<K>(record) {
        return Next {
            more: Err(refusal),
            left: answers,
        };
    }
    let Some((answer, left)) = answers.split_first() else {
        unreachable!()
    };
    Next {
        more: answer_pieces(answer),
        left,
    }
}

// The counts with one record more.
fn with_one<T>(counts: Counts, outcome: &Result<T, Refusal>) -> Counts
    requires { counts.accepted + counts.refused + 1 < 2 ^ 64 }
    ensures { result ≡ after_one (is_ok outcome.now) counts }
{
    match outcome {
        Ok(_) => Counts {
            accepted: counts.accepted + 1,
            ..counts
        },
        Err(_) => Counts {
            refused: counts.refused + 1,
            ..counts
        },
    }
}

// The lines of the records behind the set-up, which is the first and was accepted; and the counts of all of them.
pub(crate) fn add_outcomes<K: TraceKey>(
    text: &mut String,
    records: &[Record],
    answers: &[Answer<K>],
) -> Result<Counts, AllocError>
    requires { length answers.now ≡ length (calls_of K.form (map content_of records.now)) }
    ensures { let answers = map answer_numbers answers.now in
        AddsOutcomes text.old text.new (recorded K.form (map content_of records.now) answers) result }
{
    let mut counts = Counts {
        accepted: 1,
        refused: 0,
    };
    let mut left = answers;
    for record in records {
        let number = counts.accepted + counts.refused + 1;
        let next = next_of(record, left);
        left = next.left;
        counts = with_one(counts, &next.more);
        add_outcome(text, number, record, next.more)?;
    }
    Ok(counts)
}
