use clocks::backstep::Backstep;
use clocks::reading::Raw;
use clocks::sample::Sample;
use clocks::trace_clocks::TraceClocks;
use keys::point::Point;
use messages::message::Message;
use recorder::empty_store::EmptyStore;
use refusals::refusal::Refusal;
use replay::call::{Answer, Call, Question};
use replay::replay::{Run, replay};
use sorted_run::SortedRun;
use stamper::settings::Settings;
use stamps::stamp::Stamp;
use std::alloc::{AllocError, Global};
use std::test::Fail;
use store::version::Version;

// What is seen of an answer.
type Seen = (u64, u64, i32);

// What fills a place that nothing was written to.
fn blank() -> Version<Point> {
    Version {
        key: Point(0),
        stamp: 0,
        node: 0,
        value: 0,
    }
}

fn sample(node: u8, raw: u64) -> Sample {
    Sample {
        node,
        raw: Raw(raw),
    }
}

fn put(node: u8, raw: u64, key: u32, value: i32) -> Call<Point> {
    Call::Put {
        sample: sample(node, raw),
        key: Point(key),
        value,
    }
}

fn read(key: u32, stamp: u64) -> Question<Point> {
    Question::Read {
        key: Point(key),
        stamp,
    }
}

// A cut into so many rows.
fn cut(heap: Global, stamp: u64, places: usize) -> Result<Question<Point>, AllocError> {
    let rows = vec![in heap; blank(); places]?;
    Ok(Question::Cut { stamp, rows })
}

// A list of the messages under way, into so many rows.
fn list(heap: Global, places: usize) -> Result<Question<Point>, AllocError> {
    let message = Message {
        number: 0,
        to: 0,
        stamp: Stamp::zero(),
    };
    let rows = vec![in heap; message; places]?;
    Ok(Question::UnderWay { rows })
}

// An answer in three numbers, or its refusal: of an event its stamp code and drift, of a read the stamp, the node and the value, of
// a cut how many rows and the last one's stamp and value, of a list how many and the first one's number.
fn seen(answer: &Answer<Point>) -> Result<Seen, Refusal> {
    Ok(match answer {
        Answer::Event(result) => {
            let stamped = (*result)?;
            (stamped.stamp.code(), stamped.drift, 0)
        }
        Answer::Loss(result) => {
            (*result)?;
            (0, 0, 0)
        }
        Answer::Read(result) => match (*result)? {
            Some(version) => (version.stamp, u64::from(version.node), version.value),
            None => (0, 0, 0),
        },
        Answer::Cut { count, rows } => {
            let count = (*count)? as u64;
            match rows.last() {
                Some(row) => (count, row.stamp, row.value),
                None => (count, 0, 0),
            }
        }
        Answer::UnderWay { count, rows } => {
            let count = (*count)? as u64;
            match rows.first() {
                Some(row) => (count, u64::from(row.number), 0),
                None => (count, 0, 0),
            }
        }
    })
}

// Every call in a run of two nodes, each with what it has to answer.
fn calls(heap: Global) -> Result<Vec<(Call<Point>, Result<Seen, u8>)>, AllocError> {
    Ok(vec![in heap;
        (put(0, 1000, 7, -9000), Ok((65_536_000, 0, 0))),
        (put(1, 1000, 7, -8000), Ok((65_536_000, 0, 0))),
        (
            Call::Send {
                sample: sample(0, 1000),
                to: 1,
                number: 1
            },
            Ok((65_536_001, 0, 0))
        ),
        (
            Call::Send {
                sample: sample(1, 1000),
                to: 1,
                number: 1
            },
            Err(11)
        ),
        (Call::Ask(list(heap, 1)?), Ok((1, 1, 0))),
        (Call::Ask(read(7, 65_536_000)), Ok((65_536_000, 1, -8000))),
        (Call::Ask(cut(heap, 65_536_000, 0)?), Err(19)),
        (
            Call::Ask(cut(heap, 65_536_000, 1)?),
            Ok((1, 65_536_000, -8000))
        ),
        (Call::Ask(read(7, 65_536_001)), Err(18)),
        (Call::Loss { number: 2 }, Err(13)),
        (
            Call::Receipt {
                sample: sample(0, 1000),
                number: 1
            },
            Err(14)
        ),
        (
            Call::Receipt {
                sample: sample(1, 990),
                number: 1
            },
            Ok((65_536_002, 10, 0))
        ),
        (Call::Ask(list(heap, 0)?), Ok((0, 0, 0))),
        (
            Call::Note {
                sample: sample(0, 1000)
            },
            Ok((65_536_002, 0, 0))
        ),
        (
            Call::Send {
                sample: sample(0, 1000),
                to: 1,
                number: 3
            },
            Ok((65_536_003, 0, 0))
        ),
        (Call::Loss { number: 3 }, Ok((0, 0, 0))),
        (put(0, 979, 7, 1), Err(9)),
        (put(2, 1000, 7, 1), Err(7)),
        (put(0, 1001, 9, 1), Ok((65_601_536, 0, 0))),
        (put(0, 1001, 9, 2), Ok((65_601_537, 0, 0))),
        (put(0, 1001, 9, 3), Err(16)),
    ]?)
}

// And the questions to it once it is closed.
fn questions(heap: Global) -> Result<Vec<(Question<Point>, Result<Seen, u8>)>, AllocError> {
    Ok(vec![in heap;
        (read(9, u64::MAX), Ok((65_601_537, 0, 2))),
        (read(8, u64::MAX), Ok((0, 0, 0))),
        (cut(heap, u64::MAX, 2)?, Ok((2, 65_601_537, 2))),
        (cut(heap, u64::MAX, 1)?, Err(19)),
        (list(heap, 3)?, Ok((0, 0, 0))),
    ]?)
}

#[test]
fn a_run_is_replayed(rt: HostRuntime) -> Result<(), Fail> {
    let heap = rt.alloc();
    let mut run = Run {
        calls: Vec::new(heap),
        closes: true,
        questions: Vec::new(heap),
    };
    let mut wanted = Vec::new(heap);
    for (call, answer) in calls(heap)? {
        run.calls.push(call)?;
        wanted.push(answer)?;
    }
    for (question, answer) in questions(heap)? {
        run.questions.push(question)?;
        wanted.push(answer)?;
    }
    let mut places = [blank(); 4];
    let store = EmptyStore::new(SortedRun::new(&mut places)?)?;
    let clocks = TraceClocks::new(Backstep::new(20)?);
    let mut answers = Vec::new(heap);
    replay(Settings::new(2, 500)?, clocks, store, run, &mut answers)?;
    assert_eq!(rt; answers.len(), wanted.len());
    for (answer, wanted) in answers.iter().zip(wanted.iter()) {
        assert_eq!(rt; seen(answer).map_err(|refusal| refusal.number()), *wanted);
    }
    Ok(())
}
