// The records of a trace.

#[derive(Clone, Copy, PartialEq, Eq)]
pub enum Key {
    Point(u32),
    Tag([u8; 16]),
}

impl Key {
    // The number that a set-up has for the kind of this key.
    pub fn kind(&self) -> u8 {
        match self {
            Key::Point(_) => 0,
            Key::Tag(_) => 1,
        }
    }

    // Whether it is a point, or a tag with a name of 1 to 16 bytes and only zero bytes behind.
    pub fn is_well_formed(&self) -> bool {
        match self {
            Key::Point(_) => true,
            Key::Tag(bytes) => is_tag(bytes),
        }
    }
}

fn is_letter_of_a_name(byte: u8) -> bool {
    matches!(byte, b'A'..=b'Z' | b'0'..=b'9' | b'-')
}

fn is_tag(bytes: &[u8; 16]) -> bool {
    let mut name_is_over = false;
    for (place, byte) in bytes.iter().enumerate() {
        if *byte == 0 && place > 0 {
            name_is_over = true;
        } else if name_is_over || !is_letter_of_a_name(*byte) {
            return false;
        }
    }
    true
}

#[derive(Clone, Copy)]
pub struct SetUp {
    pub nodes: u8,
    pub key_kind: u8,
    pub lead: u32,
    pub backstep: u32,
}

// A node, and the raw number that it wrote.
#[derive(Clone, Copy)]
pub struct Sample {
    pub node: u8,
    pub raw: u64,
}

#[derive(Clone, Copy)]
pub enum Record {
    SetUp(SetUp),
    Note(Sample),
    Send {
        sample: Sample,
        to: u8,
        message: u32,
    },
    Receipt {
        sample: Sample,
        message: u32,
    },
    Loss(u32),
    Put {
        sample: Sample,
        key: Key,
        value: i32,
    },
    Read {
        code: u64,
        key: Key,
    },
}
