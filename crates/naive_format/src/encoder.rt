// Records to a trace's bytes.

use crate::records::{Key, Record, SetUp};
use std::alloc::AllocError;

// Adds numbers, each in so many bytes.
fn add_numbers(trace: &mut Vec<u8>, numbers: &[(u64, usize)]) -> Result<(), AllocError> {
    for (number, width) in numbers {
        let bytes = number.to_be_bytes();
        for byte in bytes.iter().skip(8usize.saturating_sub(*width)) {
            trace.push(*byte)?;
        }
    }
    Ok(())
}

fn add_key(trace: &mut Vec<u8>, key: Key) -> Result<(), AllocError> {
    match key {
        Key::Point(point) => add_numbers(trace, &[(u64::from(point), 4)]),
        Key::Tag(tag) => trace.extend_from_slice(&tag),
    }
}

fn add_set_up(trace: &mut Vec<u8>, set_up: SetUp) -> Result<(), AllocError> {
    let (nodes, key_kind) = (u64::from(set_up.nodes), u64::from(set_up.key_kind));
    let (lead, backstep) = (u64::from(set_up.lead), u64::from(set_up.backstep));
    add_numbers(
        trace,
        &[(0, 1), (nodes, 1), (key_kind, 1), (lead, 4), (backstep, 4)],
    )
}

pub fn add_record(trace: &mut Vec<u8>, record: Record) -> Result<(), AllocError> {
    match record {
        Record::SetUp(set_up) => add_set_up(trace, set_up),
        Record::Note(sample) => {
            let node = u64::from(sample.node);
            add_numbers(trace, &[(1, 1), (node, 1), (sample.raw, 8)])
        }
        Record::Send {
            sample,
            to,
            message,
        } => {
            let (node, to, message) = (u64::from(sample.node), u64::from(to), u64::from(message));
            add_numbers(
                trace,
                &[(2, 1), (node, 1), (sample.raw, 8), (to, 1), (message, 4)],
            )
        }
        Record::Receipt { sample, message } => {
            let (node, message) = (u64::from(sample.node), u64::from(message));
            add_numbers(trace, &[(3, 1), (node, 1), (sample.raw, 8), (message, 4)])
        }
        Record::Loss(message) => add_numbers(trace, &[(4, 1), (u64::from(message), 4)]),
        Record::Put { sample, key, value } => {
            let (kind, node) = (
                u64::from(key.kind()).saturating_add(5),
                u64::from(sample.node),
            );
            add_numbers(trace, &[(kind, 1), (node, 1), (sample.raw, 8)])?;
            add_key(trace, key)?;
            add_numbers(trace, &[(u64::from(value.cast_unsigned()), 4)])
        }
        Record::Read { code, key } => {
            let kind = u64::from(key.kind()).saturating_add(7);
            add_numbers(trace, &[(kind, 1), (code, 8)])?;
            add_key(trace, key)
        }
    }
}
