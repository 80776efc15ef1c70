// Reads the records of a trace.
ghost use Rattle.std.specs.Prelude.{◌≡◌, ◌+◌, ◌^◌, ◌<◌, ◌≤◌, length, IfOk, IfSome};
ghost use Rattle.std.specs.Option.{option_map};
ghost use Rattle.refusals.specs.Refusals.{shown, result_map};
ghost use Rattle.trace.specs.Numbers.{unsigned_at, signed_at};
ghost use Rattle.trace.specs.Kinds.{body_len_of};
ghost use Rattle.trace.specs.Contents.{key_len, content_of};
ghost use Rattle.trace.specs.Format.{part, content_from, finding_at, place_behind, entry_of, key_of, key_in_body, Stands};

use crate::kind::Kind;
use crate::records::{Entry, Key, KeyBytes, Record};
use refusals::refusal::Refusal;

// The bytes from a record's body on; the body begins at `start` of its trace.
#[derive(Clone, Copy)]
struct Body<'a> {
    bytes: &'a [u8],
    start: usize,
    ghost within: { start + length bytes.now < 2 ^ 64 },
}

impl<'a> Body<'a> {
    // The N bytes from `at` on.
    fn part<const N: usize>(self, at: usize) -> &'a [u8; N]
        requires { at + N ≤ length self.bytes.now }
        ensures { result.now ≡ part N at self.entry.bytes.now }
    {
        self.bytes[at..].first_chunk().unwrap()
    }

    // The key that begins at `at` and has these bytes.
    fn key(self, at: usize, bytes: KeyBytes<'a>) -> Key<'a>
        requires { at ≤ length self.bytes.now }
        ensures offset { result.offset ≡ self.entry.start + at }
        ensures bytes { result.bytes ≡ bytes.entry }
    {
        Key {
            offset: self.start + at,
            bytes,
        }
    }

    // The put that has this body, and this key at its place 9; the value stands behind the key.
    fn put(self, key: Key<'a>) -> Record<'a>
        requires { 9 + key_len key.bytes + 4 ≤ length self.bytes.now }
        ensures { let bytes = self.entry.bytes.now in
            let value = signed_at (9 + key_len key.entry.bytes) bytes in
            result ≡ Record.Put (unsigned_at 1 0 bytes) (unsigned_at 8 1 bytes) key.entry value }
    {
        Record::Put {
            node: self.bytes[0],
            raw: u64::from_be_bytes(*self.part(1)),
            key,
            value: i32::from_be_bytes(*self.part(9 + key.bytes.as_slice().len())),
        }
    }

    // The record of this kind that has this body: each field at its place in it, as in the
    // format.
    fn decoded(self, kind: Kind) -> Record<'a>
        requires { body_len_of kind ≤ length self.bytes.now }
        ensures content { content_of result ≡ content_from kind self.entry.bytes.now }
        ensures key { key_of result ≡ key_in_body kind self.entry.start self.entry.bytes.now }
    {
        match kind {
            Kind::SetUp => Record::SetUp {
                nodes: self.bytes[0],
                key_kind: self.bytes[1],
                lead: u32::from_be_bytes(*self.part(2)),
                backstep: u32::from_be_bytes(*self.part(6)),
            },
            Kind::Note => Record::Note {
                node: self.bytes[0],
                raw: u64::from_be_bytes(*self.part(1)),
            },
            Kind::Send => Record::Send {
                node: self.bytes[0],
                raw: u64::from_be_bytes(*self.part(1)),
                to: self.bytes[9],
                message: u32::from_be_bytes(*self.part(10)),
            },
            Kind::Receipt => Record::Receipt {
                node: self.bytes[0],
                raw: u64::from_be_bytes(*self.part(1)),
                message: u32::from_be_bytes(*self.part(9)),
            },
            Kind::Loss => Record::Loss {
                message: u32::from_be_bytes(*self.part(0)),
            },
            Kind::PutPoint => self.put(self.key(9, KeyBytes::Point(self.part(9)))),
            Kind::PutTag => self.put(self.key(9, KeyBytes::Tag(self.part(9)))),
            Kind::ReadPoint => Record::Read {
                at: u64::from_be_bytes(*self.part(0)),
                key: self.key(8, KeyBytes::Point(self.part(8))),
            },
            Kind::ReadTag => Record::Read {
                at: u64::from_be_bytes(*self.part(0)),
                key: self.key(8, KeyBytes::Tag(self.part(8))),
            },
        }
    }
}

// What stands at `offset` of the trace: a record, nothing at the end, or a refusal. It looks at any place;
// `Reader` has a trace and a place in it that moves.
pub fn entry_at<'a>(trace: &'a [u8], offset: usize) -> Result<Option<Entry<'a>>, Refusal>
    ensures answer { shown (result_map (option_map entry_of) result) ≡ finding_at trace.now offset }
    ensures stands { IfOk result (λ found. IfSome found (Stands trace.now)) }
{
    let Some(&byte) = trace.get(offset) else {
        return Ok(None);
    };
    let kind = Kind::try_from(byte)?;
    let start = offset + 1;
    let bytes = &trace[start..];
    if bytes.len() < kind.body_len() {
        return Err(Refusal::CutShort);
    }
    let record = Body { bytes, start }.decoded(kind);
    Ok(Some(Entry { offset, record }))
}

// A trace and a place in it, which moves over one record after another and which it is asked for.
#[derive(Drop)]
pub struct Reader<'a> {
    trace: &'a [u8],
    offset: usize,
    ghost within: { offset ≤ length trace.now },
}

impl<'a> Reader<'a> {
    ghost use Rattle.trace.specs.Readers.{reader_trace, reader_offset, next_finding};

    pub fn new(trace: &'a [u8]) -> Reader<'a>
        ensures trace { reader_trace result ≡ trace.now }
        ensures offset { reader_offset result ≡ 0 }
    {
        Reader { trace, offset: 0 }
    }

    // Where the next record would stand.
    pub fn offset(&self) -> usize
        ensures { result ≡ reader_offset self.now }
    {
        self.offset
    }

    // The next record, none at the end. The reader moves behind the record, and stays where it is
    // refused.
    pub fn next_entry(&mut self) -> Result<Option<Entry<'a>>, Refusal>
        ensures answer { shown (result_map (option_map entry_of) result) ≡ next_finding self.old }
        ensures stands { IfOk result (λ found. IfSome found (Stands (reader_trace self.old))) }
        ensures offset { reader_offset self.new
            ≡ place_behind (reader_offset self.old) (next_finding self.old) }
        ensures trace { reader_trace self.new ≡ reader_trace self.old }
    {
        let found = entry_at(self.trace, self.offset)?;
        if let Some(entry) = found {
            self.offset += entry.record.size();
        }
        Ok(found)
    }
}
