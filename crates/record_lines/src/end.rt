// The last lines of a listing.
ghost use Rattle.std.specs.Prelude.{◌++◌};
ghost use Rattle.lines.specs.Adding.{AddsInRoom};
ghost use Rattle.refusals.specs.Refusals.{number_of};
ghost use Rattle.record_lines.specs.Lines.{bad_line, end_line, ending_lines};
ghost use Rattle.trace_run.specs.Reading.{ending_of};

use lines::line::{Piece, Word};
use lines::text::add_line;
use std::alloc::AllocError;
use trace_run::reading::Bad;

// How many records were accepted, and how many refused.
#[derive(Clone, Copy, Debug)]
pub struct Counts {
    pub accepted: u64,
    pub refused: u64,
}

fn add_bad(text: &mut String, bad: Bad) -> Result<(), AllocError>
    ensures { AddsInRoom text.old text.new (bad_line (number_of bad.refusal) bad.offset) result }
{
    let number = u64::from(bad.refusal.number());
    add_line(
        text,
        &[
            Piece::Word(Word::Bad),
            Piece::Number(number),
            Piece::Word(Word::At),
            Piece::Number(bad.offset as u64),
        ],
    )
}

// Where no more was read, if so, and the counts.
pub fn add_end(text: &mut String, bad: Option<Bad>, counts: Counts) -> Result<(), AllocError>
    ensures { let last = ending_lines (ending_of bad) ++ end_line counts.accepted counts.refused in
        AddsInRoom text.old text.new last result }
{
    if let Some(bad) = bad {
        add_bad(text, bad)?;
    }
    add_line(
        text,
        &[
            Piece::Word(Word::End),
            Piece::Number(counts.accepted),
            Piece::Number(counts.refused),
        ],
    )
}
