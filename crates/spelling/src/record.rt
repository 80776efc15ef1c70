// Records as a person writes them.
ghost use Rattle.std.specs.Prelude.{◌≡◌, map};
ghost use Rattle.std.specs.Option.{option_map};
ghost use Rattle.trace.specs.Contents.{content_of};
ghost use Rattle.spelling.specs.Written.{IsLent, written_content};
ghost use Rattle.spelling.specs.Records.{key_kind_of, loss_of, note_of, put_of, read_of, receipt_of, record_for};
ghost use Rattle.spelling.specs.Records.{record_of, send_of, set_up_of, stamp_of, u8_of, u32_of, u64_of};

use crate::key::WrittenKey;
use crate::verb::Verb;
use numerals::{number, signed, stamp_code};
use trace::records::{Key, KeyBytes, Record};

// The record that a line spells. It holds the bytes of its key, which a `Record` borrows.
#[derive(Clone, Copy, Debug)]
pub enum Written {
    // All but puts and reads.
    Keyless(Record<'static>),
    Put {
        node: u8,
        raw: u64,
        key: WrittenKey,
        value: i32,
    },
    Read {
        at: u64,
        key: WrittenKey,
    },
}

// The key as a record has it. Where it stands in a trace is not known yet; the writer does not ask.
fn lent(key: &WrittenKey) -> Key<'_>
    ensures { IsLent key.now result.bytes }
{
    let bytes = match key {
        WrittenKey::Point(bytes) => KeyBytes::Point(bytes),
        WrittenKey::Tag(bytes) => KeyBytes::Tag(bytes),
    };
    Key { offset: 0, bytes }
}

impl Written {
    // As the writer of traces takes it.
    pub fn record(&self) -> Record<'_>
        ensures { content_of result ≡ written_content self.now }
    {
        match self {
            Written::Keyless(record) => *record,
            Written::Put {
                node,
                raw,
                key,
                value,
            } => Record::Put {
                node: *node,
                raw: *raw,
                key: lent(key),
                value: *value,
            },
            Written::Read { at, key } => Record::Read {
                at: *at,
                key: lent(key),
            },
        }
    }
}

// A number of one byte, of four and of eight.
fn number_u8(word: &[u8]) -> Option<u8>
    ensures { result ≡ u8_of word.now }
{
    let number = number(word, u64::from(u8::MAX))?;
    Some(number as u8)
}

fn number_u32(word: &[u8]) -> Option<u32>
    ensures { result ≡ u32_of word.now }
{
    let number = number(word, u64::from(u32::MAX))?;
    Some(number as u32)
}

fn number_u64(word: &[u8]) -> Option<u64>
    ensures { result ≡ u64_of word.now }
{
    number(word, u64::MAX)
}

// The byte of a kind of keys.
#[tactic(auto, unfolding(crate::specs::Records::key_kind_of))]
fn key_kind(word: &[u8]) -> Option<u8>
    ensures { result ≡ key_kind_of word.now }
{
    if word == b"point".as_slice() {
        Some(0)
    } else if word == b"tag".as_slice() {
        Some(1)
    } else {
        None
    }
}

// A stamp's code: a number, or TIME.COUNTER.
#[tactic(auto, unfolding(crate::specs::Records::stamp_of))]
fn stamp_from(word: &[u8]) -> Option<u64>
    ensures { result ≡ stamp_of word.now }
{
    number_u64(word).or_else(|| stamp_code(word))
}

// The records of the words behind the first, one function for each kind.
fn set_up_from(nodes: &[u8], keys: &[u8], lead: &[u8], backstep: &[u8]) -> Option<Written>
    ensures { option_map written_content result
        ≡ set_up_of nodes.now keys.now lead.now backstep.now }
{
    Some(Written::Keyless(Record::SetUp {
        nodes: number_u8(nodes)?,
        key_kind: key_kind(keys)?,
        lead: number_u32(lead)?,
        backstep: number_u32(backstep)?,
    }))
}

fn note_from(node: &[u8], raw: &[u8]) -> Option<Written>
    ensures { option_map written_content result ≡ note_of node.now raw.now }
{
    Some(Written::Keyless(Record::Note {
        node: number_u8(node)?,
        raw: number_u64(raw)?,
    }))
}

fn send_from(node: &[u8], raw: &[u8], to: &[u8], message: &[u8]) -> Option<Written>
    ensures { option_map written_content result ≡ send_of node.now raw.now to.now message.now }
{
    Some(Written::Keyless(Record::Send {
        node: number_u8(node)?,
        raw: number_u64(raw)?,
        to: number_u8(to)?,
        message: number_u32(message)?,
    }))
}

fn receipt_from(node: &[u8], raw: &[u8], message: &[u8]) -> Option<Written>
    ensures { option_map written_content result ≡ receipt_of node.now raw.now message.now }
{
    Some(Written::Keyless(Record::Receipt {
        node: number_u8(node)?,
        raw: number_u64(raw)?,
        message: number_u32(message)?,
    }))
}

fn loss_from(message: &[u8]) -> Option<Written>
    ensures { option_map written_content result ≡ loss_of message.now }
{
    Some(Written::Keyless(Record::Loss {
        message: number_u32(message)?,
    }))
}

fn put_from(node: &[u8], raw: &[u8], key: &[u8], value: &[u8]) -> Option<Written>
    ensures { option_map written_content result ≡ put_of node.now raw.now key.now value.now }
{
    Some(Written::Put {
        node: number_u8(node)?,
        raw: number_u64(raw)?,
        key: WrittenKey::from_word(key)?,
        value: signed(value)?,
    })
}

fn read_from(at: &[u8], key: &[u8]) -> Option<Written>
    ensures { option_map written_content result ≡ read_of at.now key.now }
{
    Some(Written::Read {
        at: stamp_from(at)?,
        key: WrittenKey::from_word(key)?,
    })
}

// The record of this first word and the words behind it.
fn record_by(verb: Verb, words: &[&[u8]]) -> Option<Written>
    ensures { option_map written_content result
        ≡ record_for verb (map (λ word. word.now) words.now) }
{
    match (verb, words) {
        (Verb::SetUp, [nodes, keys, lead, backstep]) => set_up_from(nodes, keys, lead, backstep),
        (Verb::Note, [node, raw]) => note_from(node, raw),
        (Verb::Send, [node, raw, to, message]) => send_from(node, raw, to, message),
        (Verb::Receipt, [node, raw, message]) => receipt_from(node, raw, message),
        (Verb::Loss, [message]) => loss_from(message),
        (Verb::Put, [node, raw, key, value]) => put_from(node, raw, key, value),
        (Verb::Read, [at, key]) => read_from(at, key),
        _ => None,
    }
}

// The record that the words of a line spell.
#[tactic(auto, using(crate::proofs::Shapes::by_verb, crate::proofs::Shapes::no_verb, crate::proofs::Shapes::no_words))]
pub fn record_from(words: &[&[u8]]) -> Option<Written>
    ensures { option_map written_content result ≡ record_of (map (λ word. word.now) words.now) }
{
    let (first, rest) = words.split_first()?;
    record_by(Verb::from_word(first)?, rest)
}
