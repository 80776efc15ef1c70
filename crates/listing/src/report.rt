// The text of a listing.
ghost use Rattle.std.specs.Prelude.{◌<◌, length, map};
ghost use Rattle.lines.specs.Adding.{Adds, AddsInRoom};
ghost use Rattle.trace.specs.Contents.{content_of};
ghost use Rattle.trace.specs.Whole.{SplitsOneWay};
ghost use Rattle.trace_run.specs.Reading.{ending_of};
ghost use Rattle.listing.specs.Text.{listing_of, listing_text, text_of};

use crate::run::add_run;
use arrayvec::ArrayVec;
use lines::line::{Piece, Word};
use lines::text::add_line;
use record_lines::end::{Counts, add_end};
use record_lines::outcome::add_outcome;
use std::alloc::{AllocError, Global};
use trace_run::reading::{Bad, Records, read_records};
use trace_run::setup::SetUp;

// The longest trace that is listed, in bytes.
pub const LONGEST: usize = 65_536;

const NONE: Counts = Counts {
    accepted: 0,
    refused: 0,
};

fn add_records(text: &mut String, heap: Global, records: &Records) -> Result<(), AllocError>
    ensures { let listing = listing_of (map content_of records.now.list.items) (ending_of records.now.bad) in
        Adds text.old text.new (listing_text listing) result }
{
    let Some((first, later)) = records.list.split_first() else {
        return add_end(text, records.bad, NONE);
    };
    match SetUp::try_from(first) {
        Ok(setup) => {
            add_outcome(text, 1, first, Ok(ArrayVec::new()))?;
            let counts = add_run(text, heap, setup, later)?;
            add_end(text, records.bad, counts)
        }
        Err(refusal) => add_end(text, Some(Bad { refusal, offset: 0 }), NONE),
    }
}

fn add_text(text: &mut String, heap: Global, trace: &[u8]) -> Result<(), AllocError>
    ensures text { Adds text.old text.new (text_of trace.now) result }
    ensures room { 65536 < length trace.now
        → AddsInRoom text.old text.new (text_of trace.now) result }
{
    if trace.len() > LONGEST {
        return add_line(text, &[Piece::Word(Word::TooLong)]);
    }
    let records = read_records(heap, trace)?;
    add_records(text, heap, &records)
}

// Adds the whole listing of a trace to the text. The only failure is want of memory; the text has
// then gained at most a first part of it. A trace that is too long needs no memory but the text's.
#[tactic(auto, using(crate::proofs::Splitting::bytes_split))]
pub fn add_listing(text: &mut String, heap: Global, trace: &[u8]) -> Result<(), AllocError>
    ensures text { Adds text.old text.new (text_of trace.now) result }
    ensures room { 65536 < length trace.now
        → AddsInRoom text.old text.new (text_of trace.now) result }
    ensures records { SplitsOneWay trace.now }
{
    add_text(text, heap, trace)
}
