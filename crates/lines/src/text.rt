// Adds words, numbers and lines to a text: by `push_str` and `push`, which succeed wherever the text has room. The
// library promises that of no formatter.
ghost use Rattle.lines.specs.Adding.{AddsInRoom};
ghost use Rattle.lines.specs.Lines.{gap, piece_text, line_text, stamp_text};

use crate::line::Piece;
use itoa::Buffer;
use std::alloc::AllocError;

// How many counters a time has in the code of a stamp.
const COUNTERS: u64 = 65_536;

// The stamp that has this code, as time.counter.
fn add_stamp(text: &mut String, code: u64) -> Result<(), AllocError>
    ensures { AddsInRoom text.old text.new (stamp_text code) result }
{
    text.push_str(Buffer::new().format(code / COUNTERS))?;
    text.push('.')?;
    text.push_str(Buffer::new().format(code % COUNTERS))
}

fn add_piece(text: &mut String, piece: Piece) -> Result<(), AllocError>
    ensures { AddsInRoom text.old text.new (piece_text piece) result }
{
    match piece {
        Piece::Word(word) => text.push_str(word.as_str()),
        Piece::Number(number) => text.push_str(Buffer::new().format(number)),
        Piece::Signed(number) => text.push_str(Buffer::new().format(number)),
        Piece::Stamp(code) => add_stamp(text, code),
    }
}

// Parts the piece in this place of a line from the one before.
fn add_gap(text: &mut String, place: usize) -> Result<(), AllocError>
    ensures { AddsInRoom text.old text.new (gap place) result }
{
    if place == 0 {
        return Ok(());
    }
    text.push(' ')
}

// Adds a line of these pieces.
pub fn add_line(text: &mut String, pieces: &[Piece]) -> Result<(), AllocError>
    ensures { AddsInRoom text.old text.new (line_text pieces.now) result }
{
    for (place, piece) in pieces.iter().enumerate() {
        add_gap(text, place)?;
        add_piece(text, *piece)?;
    }
    text.push('\n')
}
