// A trace's bytes to records.

use crate::records::{Key, Record, Sample, SetUp};

// How many bytes the body of a record of each kind has.
const LENGTHS: [usize; 9] = [10, 9, 14, 13, 4, 17, 29, 12, 24];

// What stands at a place of a trace: a record and the place behind it, the end, or bytes that are refused.
#[derive(Clone, Copy)]
pub enum Found {
    Record(Record, usize),
    End,
    Refused(u8),
}

// The number that stands in some bytes of a body, the highest first.
fn number(body: &[u8], from: usize, width: usize) -> u64 {
    let mut number = 0u64;
    for byte in body.iter().skip(from).take(width) {
        number = number.wrapping_mul(256).wrapping_add(u64::from(*byte));
    }
    number
}

fn number_32(body: &[u8], from: usize) -> u32 {
    u32::try_from(number(body, from, 4)).unwrap_or(0)
}

fn number_8(body: &[u8], from: usize) -> u8 {
    body.get(from).copied().unwrap_or(0)
}

fn sample(body: &[u8]) -> Sample {
    Sample {
        node: number_8(body, 0),
        raw: number(body, 1, 8),
    }
}

fn point(body: &[u8], from: usize) -> Key {
    Key::Point(number_32(body, from))
}

fn tag(body: &[u8], from: usize) -> Key {
    let mut tag = [0; 16];
    for (place, byte) in tag.iter_mut().zip(body.iter().skip(from)) {
        *place = *byte;
    }
    Key::Tag(tag)
}

fn set_up(body: &[u8]) -> Record {
    Record::SetUp(SetUp {
        nodes: number_8(body, 0),
        key_kind: number_8(body, 1),
        lead: number_32(body, 2),
        backstep: number_32(body, 6),
    })
}

fn put(body: &[u8], key: Key, value_from: usize) -> Record {
    Record::Put {
        sample: sample(body),
        key,
        value: number_32(body, value_from).cast_signed(),
    }
}

fn read(body: &[u8], key: Key) -> Record {
    Record::Read {
        code: number(body, 0, 8),
        key,
    }
}

// The record that a whole body of a kind up to 8 has.
fn record(kind: u8, body: &[u8]) -> Record {
    match kind {
        0 => set_up(body),
        1 => Record::Note(sample(body)),
        2 => Record::Send {
            sample: sample(body),
            to: number_8(body, 9),
            message: number_32(body, 10),
        },
        3 => Record::Receipt {
            sample: sample(body),
            message: number_32(body, 9),
        },
        4 => Record::Loss(number_32(body, 0)),
        5 => put(body, point(body, 9), 13),
        6 => put(body, tag(body, 9), 25),
        7 => read(body, point(body, 8)),
        _ => read(body, tag(body, 8)),
    }
}

pub fn record_at(trace: &[u8], place: usize) -> Found {
    let Some(kind) = trace.get(place) else {
        return Found::End;
    };
    let Some(length) = LENGTHS.get(usize::from(*kind)) else {
        return Found::Refused(1);
    };
    let body_from = place.saturating_add(1);
    let behind = body_from.saturating_add(*length);
    match trace.get(body_from..behind) {
        Some(body) => Found::Record(record(*kind, body), behind),
        None => Found::Refused(2),
    }
}
