// The calls that the records of a trace make of the recorder.
ghost use Rattle.std.specs.Prelude.{◌≡◌, IfOk, map};
ghost use Rattle.refusals.specs.Refusals.{shown};
ghost use Rattle.trace.specs.Contents.{content_of};
ghost use Rattle.trace_run.specs.Calls.{KeyForm, call_of, calls_of, key_of};

use clocks::reading::Raw;
use clocks::sample::Sample;
use keys::kind::KeyKind;
use keys::point::Point;
use keys::tag::Tag;
use refusals::refusal::Refusal;
use replay::call::{Call, Question};
use std::alloc::{AllocError, Global};
use trace::records::{KeyBytes, Record};

// A kind of keys that a trace may have.
pub trait TraceKey: KeyKind {
    ghost form: { KeyForm Self };

    // The key of these bytes: refused with 6 where they are of the other kind, then with 3 where they are no tag.
    fn from_bytes(bytes: KeyBytes<'_>) -> Result<Self, Refusal>
        ensures { shown result ≡ key_of form bytes.entry };
}

impl TraceKey for Point {
    ghost use Rattle.trace_run.specs.Calls.{points};

    ghost form = { points };

    fn from_bytes(bytes: KeyBytes<'_>) -> Result<Point, Refusal> {
        match bytes {
            KeyBytes::Point(bytes) => Ok(Point(u32::from_be_bytes(*bytes))),
            KeyBytes::Tag(_) => Err(Refusal::OtherKeyKind),
        }
    }
}

impl TraceKey for Tag {
    ghost use Rattle.trace_run.specs.Calls.{tags};

    ghost form = { tags };

    #[tactic(auto, using(keys::proofs::Making::tag_made))]
    fn from_bytes(bytes: KeyBytes<'_>) -> Result<Tag, Refusal> {
        match bytes {
            KeyBytes::Point(_) => Err(Refusal::OtherKeyKind),
            KeyBytes::Tag(bytes) => Tag::try_from(bytes),
        }
    }
}

// The call of a record, or why it is refused before the recorder sees it. (Inline, since its result would be copied once more for
// each record.)
#[inline(always)]
pub fn call_for<K: TraceKey>(entry: &Record) -> Result<Call<K>, Refusal>
    ensures { shown result ≡ call_of K.form (content_of entry.now) }
{
    match *entry {
        Record::SetUp { .. } => Err(Refusal::MisplacedSetUp),
        Record::Note { node, raw } => Ok(Call::Note {
            sample: sample_of(node, raw),
        }),
        Record::Send {
            node,
            raw,
            to,
            message,
        } => Ok(Call::Send {
            sample: sample_of(node, raw),
            to,
            number: message,
        }),
        Record::Receipt { node, raw, message } => Ok(Call::Receipt {
            sample: sample_of(node, raw),
            number: message,
        }),
        Record::Loss { message } => Ok(Call::Loss { number: message }),
        Record::Put {
            node,
            raw,
            key,
            value,
        } => Ok(Call::Put {
            sample: sample_of(node, raw),
            key: K::from_bytes(key.bytes)?,
            value,
        }),
        Record::Read { at, key } => Ok(Call::Ask(Question::Read {
            key: K::from_bytes(key.bytes)?,
            stamp: at,
        })),
    }
}

fn sample_of(node: u8, raw: u64) -> Sample
    ensures { result ≡ record { node = node; raw = record { 0 = raw } } }
{
    Sample {
        node,
        raw: Raw(raw),
    }
}

// The calls of the records that are not refused before, in order.
pub fn calls_for<K: TraceKey>(heap: Global, records: &[Record]) -> Result<Vec<Call<K>>, AllocError>
    ensures { IfOk result (λ calls. calls.items ≡ calls_of K.form (map content_of records.now)) }
{
    let mut calls = Vec::with_capacity(heap, records.len())?;
    for entry in records {
        if let Ok(call) = call_for(entry) {
            calls.push(call)?;
        }
    }
    Ok(calls)
}
