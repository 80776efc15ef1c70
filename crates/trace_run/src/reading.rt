// Reads a whole trace.
ghost use Rattle.std.specs.Prelude.{◌≡◌, IfOk, map};
ghost use Rattle.trace.specs.Contents.{content_of};
ghost use Rattle.trace.specs.Whole.{whole_of};
ghost use Rattle.trace_run.specs.Reading.{ending_of};

use refusals::refusal::Refusal;
use std::alloc::{AllocError, Global};
use trace::reader::Reader;
use trace::records::Record;

// So many bytes has the shortest record, a loss.
const SHORTEST: usize = 5;

// Where no more is read, and why.
#[derive(Clone, Copy, Debug)]
pub struct Bad {
    pub refusal: Refusal,
    pub offset: usize,
}

// The records of a trace, and what ends them if the trace does not.
#[derive(Drop)]
pub struct Records<'a> {
    pub list: Vec<Record<'a>>,
    pub bad: Option<Bad>,
}

// Reads a trace up to its end, or to the place that is refused.
pub fn read_records(heap: Global, trace: &[u8]) -> Result<Records<'_>, AllocError>
    ensures records { IfOk result (λ r. map content_of r.list.items ≡ (whole_of trace.now).records) }
    ensures ending { IfOk result (λ r. ending_of r.bad ≡ (whole_of trace.now).ending) }
{
    let mut reader = Reader::new(trace);
    let mut list = Vec::with_capacity(heap, trace.len() / SHORTEST)?;
    // A `for` would hold the reader, and a refusal asks it for the place.
    loop {
        match reader.next_entry() {
            Ok(Some(entry)) => list.push(entry.record)?,
            Ok(None) => return Ok(Records { list, bad: None }),
            Err(refusal) => {
                let offset = reader.offset();
                let bad = Some(Bad { refusal, offset });
                return Ok(Records { list, bad });
            }
        }
    }
}
