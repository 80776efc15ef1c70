// The written examples of docs/RULES.md: traces in hexadecimal, with the listings that they have there or by the words there; and,
// of the naive rules and encoder alone, worked stamps and the bytes of a put.

use naive::stamp_rules::{Stamp, own_stamp, receipt_stamp};
use naive_format::records::{Key, Record, Sample};
use std::alloc::AllocError;

#[derive(Clone, Copy)]
pub struct Example {
    pub name: &'static str,
    pub trace: &'static str,
    pub text: &'static str,
}

// The put by node 0 at raw 1000 that sets point 7 to -9.000.
pub const PUT: &str = "05 00 00000000000003E8 00000007 FFFFDCD8";

pub const PUT_RECORD: Record = Record::Put {
    sample: Sample {
        node: 0,
        raw: 1_000,
    },
    key: Key::Point(7),
    value: -9_000,
};

pub const EXAMPLES: [Example; 8] = [
    Example {
        name: "the listing's example",
        trace: "00 02 00 000001F4 00000014
            05 00 00000000000003E8 00000007 FFFFDCD8
            02 00 00000000000003E8 01 00000001
            03 01 00000000000003DE 00000001
            05 01 00000000000003D9 00000007 FFFFDECC
            07 0000000003E80002 00000007
            01 00 00000000000003E8
            07 0000000003E80002 00000007",
        text: "1 setup\n2 put 0 1000.0 drift 0\n3 send 0 1000.1 drift 0\n4 receipt 1 1000.2 drift 10\n\
            5 put 1 1000.3 drift 15\n6 refused 18\n7 note 0 1000.2 drift 0\n8 read -9000 1000.0 0\nend 7 1\n",
    },
    Example {
        name: "no bytes",
        trace: "",
        text: "end 0 0\n",
    },
    Example {
        name: "the put alone",
        trace: "05 00 00000000000003E8 00000007 FFFFDCD8",
        text: "bad 5 at 0\nend 0 0\n",
    },
    Example {
        name: "the put, read",
        trace: "00 01 00 00000000 00000000
            05 00 00000000000003E8 00000007 FFFFDCD8
            07 0000000003E80000 00000007",
        text: "1 setup\n2 put 0 1000.0 drift 0\n3 read -9000 1000.0 0\nend 3 0\n",
    },
    Example {
        name: "messages by up to the lead ahead, and a clock that falls back",
        trace: "00 02 00 000001F4 00000014
            02 00 00000000000005DC 01 00000001
            02 00 00000000000005DD 01 00000002
            03 01 00000000000003E8 00000002
            03 01 00000000000003E8 00000001
            01 01 00000000000003D4
            01 01 00000000000003D3",
        text: "1 setup\n2 send 0 1500.0 drift 0\n3 send 0 1501.0 drift 0\n4 refused 15\n5 receipt 1 1500.1 drift 500\n\
            6 note 1 1500.2 drift 520\n7 refused 9\nend 5 2\n",
    },
    Example {
        name: "one key at one stamp by two nodes",
        trace: "00 02 00 00000000 00000000
            05 01 00000000000003E8 00000007 00000001
            05 00 00000000000003E8 00000007 00000002
            07 0000000003E80000 00000007",
        text: "1 setup\n2 put 1 1000.0 drift 0\n3 put 0 1000.0 drift 0\n4 read 1 1000.0 1\nend 4 0\n",
    },
    Example {
        name: "a fresh recorder",
        trace: "00 01 00 00000000 00000000
            07 0000000000000000 00000007
            07 0000000000000001 00000007",
        text: "1 setup\n2 read none\n3 refused 18\nend 2 1\n",
    },
    Example {
        name: "a tag that is no name, and a key of the other kind",
        trace: "00 01 01 00000000 00000000
            08 0000000000000000 41000000000000000000000000000000
            08 0000000000000000 41004100000000000000000000000000
            07 0000000000000000 00000007
            09",
        text: "1 setup\n2 read none\n3 refused 3\n4 refused 6\nbad 1 at 74\nend 2 2\n",
    },
];

fn digit(byte: u8) -> Option<u8> {
    match byte {
        b'0'..=b'9' => Some(byte - b'0'),
        b'A'..=b'F' => Some(byte - b'A' + 10),
        _ => None,
    }
}

// Writes the bytes that the hexadecimal digits give, two a byte, in place of what stands there.
pub fn write_bytes(trace: &mut Vec<u8>, digits: &str) -> Result<(), AllocError> {
    trace.clear();
    let mut high = None;
    for low in digits.bytes().filter_map(digit) {
        match high {
            None => high = Some(low),
            Some(first) => {
                trace.push((first % 16) * 16 + low % 16)?;
                high = None;
            }
        }
    }
    Ok(())
}

fn is_stamp(answer: Result<Stamp, u8>, time: u64, counter: u64) -> bool {
    answer == Ok(Stamp { time, counter })
}

// The worked stamps of docs/RULES.md, by the naive rules. A trace has too few bytes for a counter of 65535, so that this is the
// only place here where refusal 10 comes.
pub fn are_stamps_right() -> bool {
    let spent = Stamp {
        time: 1_000,
        counter: 65_535,
    };
    let last = Stamp {
        time: 1_000,
        counter: 4,
    };
    let message = Stamp {
        time: 1_000,
        counter: 9,
    };
    let ahead = Stamp {
        time: 1_001,
        counter: 9,
    };
    own_stamp(spent, 1_000) == Err(10)
        && is_stamp(own_stamp(spent, 1_001), 1_001, 0)
        && is_stamp(receipt_stamp(last, message, 1_000, 0), 1_000, 10)
        && is_stamp(receipt_stamp(last, message, 1_001, 0), 1_001, 0)
        && is_stamp(receipt_stamp(last, ahead, 1_000, 1), 1_001, 10)
        && receipt_stamp(last, ahead, 1_000, 0) == Err(15)
}
