// The round trips: a record that was written reads back as it was, and one that was read is written
// as it stood. Buffers, traces and the places in them are the caller's, as for the writer.
ghost use Rattle.std.specs.Prelude.{◌≡◌, IfOk};
ghost use Rattle.refusals.specs.Refusals.{shown, result_map};
ghost use Rattle.trace.specs.Contents.{content_of};
ghost use Rattle.trace.specs.Format.{entry_of, finding_at, Stands};
ghost use Rattle.trace.specs.Writing.{buffer_after_write, read_back_answer, copy_answer, buffer_after_copy};

use crate::reader::entry_at;
use crate::records::{Entry, Record};
use refusals::refusal::Refusal;

// What came of a record that was to be written and read back, and the buffer after it.
#[derive(Clone, Copy)]
pub struct ReadBack<'b> {
    pub found: Result<Entry<'b>, Refusal>,
    pub buffer: &'b [u8],
}

// Writes the record over the buffer from `place` on, and answers what the reader finds there. The
// buffer is handed back for reading, also where the record does not fit.
pub fn write_and_read<'b>(record: &Record, buffer: &'b mut [u8], place: usize) -> ReadBack<'b>
    ensures answer { shown (result_map entry_of result.found)
        ≡ read_back_answer (content_of «record».now) place buffer.old }
    ensures buffer { result.buffer.now
        ≡ buffer_after_write (content_of «record».now) place buffer.old }
    ensures stands { IfOk result.found (λ e. Stands result.buffer.now e) }
{
    if let Err(refusal) = record.write_to(buffer, place) {
        return ReadBack {
            found: Err(refusal),
            buffer,
        };
    }
    let Ok(Some(entry)) = entry_at(buffer, place) else {
        unreachable!()
    };
    ReadBack {
        found: Ok(entry),
        buffer,
    }
}

// Copies the record that stands at `offset` of the trace over the buffer from `place` on, and
// answers the place behind it; none at the end of the trace.
pub fn copy_record(
    trace: &[u8],
    offset: usize,
    buffer: &mut [u8],
    place: usize,
) -> Result<Option<usize>, Refusal>
    ensures answer { shown result ≡ copy_answer (finding_at trace.now offset) place buffer.old }
    ensures buffer { buffer.new
        ≡ buffer_after_copy trace.now (finding_at trace.now offset) place buffer.old }
{
    let Some(entry) = entry_at(trace, offset)? else {
        return Ok(None);
    };
    Ok(Some(entry.record.write_to(buffer, place)?))
}
