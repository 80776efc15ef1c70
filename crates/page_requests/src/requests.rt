// What is asked for of a trace.

use naive::answers::Answer;
use naive_format::records::Record;
use naive_page::replayed::{Replay, Replayed};
use sheet::request::Request;
use std::alloc::{AllocError, Global};

// 1.0, which stands for all where there is no page.
const ANY: u64 = 65_536;

fn add_with_neighbours(codes: &mut Vec<u64>, code: u64) -> Result<(), AllocError> {
    codes.push(code.saturating_sub(1))?;
    codes.push(code)?;
    codes.push(code.saturating_add(1))?;
    Ok(())
}

// The stamps that the trace gave to its events, in order, as codes.
fn given_codes(heap: Global, replayed: &Replayed) -> Result<Vec<u64>, AllocError> {
    let mut codes = Vec::new(heap);
    for (_, answer) in &replayed.records {
        if let Answer::Event { stamp, .. } = answer {
            codes.push(stamp.code())?;
        }
    }
    Ok(codes)
}

// The code that the first read behind some records asks for.
fn read_code(replayed: &Replayed, behind: usize) -> Option<u64> {
    for (record, _) in replayed.records.iter().skip(behind) {
        if let Record::Read { code, .. } = record {
            return Some(*code);
        }
    }
    None
}

// The ends of their range; the lowest of the last stamps and three that were given, each with its neighbours; and one that was
// read at.
fn codes_of(heap: Global, replay: &Replay, turn: usize) -> Result<Vec<u64>, AllocError> {
    let mut codes = Vec::new(heap);
    let Ok(replayed) = replay else {
        codes.push(ANY)?;
        return Ok(codes);
    };
    codes.push(0)?;
    codes.push(u64::MAX)?;
    add_with_neighbours(&mut codes, replayed.lowest_last_code())?;
    let given = given_codes(heap, replayed)?;
    let third = given.len() / 3;
    for part in 0..3usize {
        let place = turn.wrapping_add(part.wrapping_mul(third));
        let place = place.checked_rem(given.len()).unwrap_or(0);
        if let Some(code) = given.get(place) {
            add_with_neighbours(&mut codes, *code)?;
        }
    }
    if let Some(code) = read_code(replayed, turn % 40) {
        codes.push(code)?;
    }
    Ok(codes)
}

// Without a stamp, open and closed; and at each of some stamps, open, and one time in four closed too.
pub fn requests_of(heap: Global, replay: &Replay, turn: usize) -> Result<Vec<Request>, AllocError> {
    let mut requests = Vec::new(heap);
    for closed in [false, true] {
        requests.push(Request {
            stamp: None,
            closed,
        })?;
    }
    for (place, code) in codes_of(heap, replay, turn)?.iter().enumerate() {
        let stamp = Some(*code);
        requests.push(Request {
            stamp,
            closed: false,
        })?;
        if place.wrapping_add(turn) % 4 == 0 {
            requests.push(Request {
                stamp,
                closed: true,
            })?;
        }
    }
    Ok(requests)
}
