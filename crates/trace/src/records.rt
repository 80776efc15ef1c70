// A record of a trace.
ghost use Rattle.std.specs.Prelude.{◌≡◌, length};
ghost use Rattle.trace.specs.Contents.{key_bytes, key_len, content_of, kind_of, size_of};

use crate::kind::Kind;

// A key's bytes: a point's or a tag's.
#[derive(Clone, Copy, PartialEq, Eq, Debug)]
pub enum KeyBytes<'a> {
    Point(&'a [u8; 4]),
    Tag(&'a [u8; 16]),
}

impl<'a> KeyBytes<'a> {
    pub fn as_slice(self) -> &'a [u8]
        ensures bytes { result.now ≡ key_bytes self.entry }
        ensures len { length result.now ≡ key_len self.entry }
    {
        match self {
            KeyBytes::Point(bytes) => bytes,
            KeyBytes::Tag(bytes) => bytes,
        }
    }
}

// The key of a put or a read: its place in the trace, and that part of the trace's own bytes.
#[derive(Clone, Copy, PartialEq, Eq, Debug)]
pub struct Key<'a> {
    pub offset: usize,
    pub bytes: KeyBytes<'a>,
}

// What one record says, field by field as the format lists them. A raw number is a node's own count of
// time, and `at` the stamp that a read asks about.
#[derive(Clone, Copy, PartialEq, Eq, Debug)]
pub enum Record<'a> {
    // How many nodes there are, their key kind (0 for points, 1 for tags), how far a message's time
    // may lead the reading of the node that receives it, and the largest step back of a clock; both
    // in milliseconds. The key kind is a byte since the format takes any byte there: a run, and not
    // the reader, refuses one above 1.
    SetUp {
        nodes: u8,
        key_kind: u8,
        lead: u32,
        backstep: u32,
    },
    Note {
        node: u8,
        raw: u64,
    },
    Send {
        node: u8,
        raw: u64,
        to: u8,
        message: u32,
    },
    Receipt {
        node: u8,
        raw: u64,
        message: u32,
    },
    Loss {
        message: u32,
    },
    Put {
        node: u8,
        raw: u64,
        key: Key<'a>,
        value: i32,
    },
    Read {
        at: u64,
        key: Key<'a>,
    },
}

impl Record<'_> {
    pub fn kind(&self) -> Kind
        ensures { result ≡ kind_of (content_of self.now) }
    {
        match self {
            Record::SetUp { .. } => Kind::SetUp,
            Record::Note { .. } => Kind::Note,
            Record::Send { .. } => Kind::Send,
            Record::Receipt { .. } => Kind::Receipt,
            Record::Loss { .. } => Kind::Loss,
            Record::Put { key, .. } => match key.bytes {
                KeyBytes::Point(_) => Kind::PutPoint,
                KeyBytes::Tag(_) => Kind::PutTag,
            },
            Record::Read { key, .. } => match key.bytes {
                KeyBytes::Point(_) => Kind::ReadPoint,
                KeyBytes::Tag(_) => Kind::ReadTag,
            },
        }
    }

    // How many bytes the record takes in a trace, its byte of kind included.
    pub fn size(&self) -> usize
        ensures { result ≡ size_of (content_of self.now) }
    {
        1 + self.kind().body_len()
    }
}

// A record and its place in the trace.
#[derive(Clone, Copy, PartialEq, Eq, Debug)]
pub struct Entry<'a> {
    pub offset: usize,
    pub record: Record<'a>,
}
