// The line of a record.
ghost use Rattle.std.specs.Prelude.{◌≡◌};
ghost use Rattle.lines.specs.Adding.{AddsInRoom};
ghost use Rattle.refusals.specs.Refusals.{result_map, shown};
ghost use Rattle.replay.specs.Calls.{answer_numbers};
ghost use Rattle.stamps.specs.Rules.{stamped_numbers};
ghost use Rattle.trace.specs.Contents.{content_of};
ghost use Rattle.record_lines.specs.Lines.{answer_pieces as answer_pieces_of, event_pieces as event_pieces_of};
ghost use Rattle.record_lines.specs.Lines.{outcome_for, outcome_line, record_pieces as record_pieces_of};
ghost use Rattle.record_lines.specs.Lines.{version_pieces as version_pieces_of};

use arrayvec::ArrayVec;
use lines::line::{Piece, Word};
use lines::text::add_line;
use refusals::refusal::Refusal;
use replay::call::Answer;
use stamps::stamped::Stamped;
use std::alloc::AllocError;
use store::version::Version;
use trace::records::Record;

// What a record is: a word; the node of an event, and the number of a message that was lost.
fn record_pieces(record: &Record) -> ArrayVec<Piece, 2>
    ensures { result.items ≡ record_pieces_of (content_of «record».now) }
{
    let (word, number) = match *record {
        Record::SetUp { .. } => (Word::SetUp, None),
        Record::Note { node, .. } => (Word::Note, Some(u64::from(node))),
        Record::Send { node, .. } => (Word::Send, Some(u64::from(node))),
        Record::Receipt { node, .. } => (Word::Receipt, Some(u64::from(node))),
        Record::Loss { message } => (Word::Loss, Some(u64::from(message))),
        Record::Put { node, .. } => (Word::Put, Some(u64::from(node))),
        Record::Read { .. } => (Word::Read, None),
    };
    let mut pieces = ArrayVec::new();
    pieces.push(Piece::Word(word));
    if let Some(number) = number {
        pieces.push(Piece::Number(number));
    }
    pieces
}

// An event's stamp and drift.
fn event_pieces(event: Stamped) -> ArrayVec<Piece, 3>
    ensures { result.items ≡ event_pieces_of (stamped_numbers event) }
{
    ArrayVec::from([
        Piece::Stamp(event.stamp.code()),
        Piece::Word(Word::Drift),
        Piece::Number(event.drift),
    ])
}

// What was read: the value, the stamp and the node.
fn version_pieces<K: Copy>(found: Option<Version<K>>) -> ArrayVec<Piece, 3>
    ensures { result.items ≡ version_pieces_of found }
{
    let Some(version) = found else {
        let mut nothing = ArrayVec::new();
        nothing.push(Piece::Word(Word::Nothing));
        return nothing;
    };
    ArrayVec::from([
        Piece::Signed(version.value),
        Piece::Stamp(version.stamp),
        Piece::Number(u64::from(version.node)),
    ])
}

// What the recorder answered, as the record's line says it.
pub fn answer_pieces<K: Copy>(answer: &Answer<K>) -> Result<ArrayVec<Piece, 3>, Refusal>
    ensures { shown (result_map (λ pieces. pieces.items) result)
        ≡ answer_pieces_of (answer_numbers answer.now) }
{
    match *answer {
        Answer::Event(event) => Ok(event_pieces(event?)),
        Answer::Loss(loss) => {
            loss?;
            Ok(ArrayVec::new())
        }
        Answer::Read(found) => Ok(version_pieces(found?)),
        // No record asks for these.
        Answer::Cut { count, .. } | Answer::UnderWay { count, .. } => {
            count?;
            Ok(ArrayVec::new())
        }
    }
}

// The line of a record: what more is said of it, or its refusal.
pub fn add_outcome(
    text: &mut String,
    number: u64,
    record: &Record,
    more: Result<ArrayVec<Piece, 3>, Refusal>,
) -> Result<(), AllocError>
    ensures { let outcome = outcome_for (content_of «record».now)
        (shown (result_map (λ pieces. pieces.items) more)) in
        AddsInRoom text.old text.new (outcome_line number outcome) result }
{
    let number = Piece::Number(number);
    match more {
        Ok(more) => {
            let mut line = ArrayVec::<Piece, 6>::new();
            line.push(number);
            line.try_extend_from_slice(&record_pieces(record)).unwrap();
            line.try_extend_from_slice(&more).unwrap();
            add_line(text, &line)
        }
        Err(refusal) => {
            let refusal = Piece::Number(u64::from(refusal.number()));
            add_line(text, &[number, Piece::Word(Word::Refused), refusal])
        }
    }
}
