// Whole texts.
ghost use Rattle.std.specs.Prelude.{◌≡◌, ◌<◌, IfErr, IfOk, length};
ghost use Rattle.assembly.specs.Texts.{assembly_of, shown_answer, shown_lines, ReadsBack};

use crate::line::{add_line, split_line};
use std::alloc::{AllocError, Global};

// The number of the first line that is not understood, from 1.
#[derive(Clone, Copy, PartialEq, Eq, Debug)]
pub struct NotUnderstood {
    pub line: usize,
}

// The trace that a text spells, or how many lines stand before the first that is not understood.
fn add_lines(heap: Global, text: &[u8]) -> Result<Result<Vec<u8>, usize>, AllocError>
    ensures answer { IfOk result (λ answer. shown_lines answer ≡ assembly_of text.now) }
    ensures within { IfOk result (λ answer. IfErr answer (λ before. before < length text.now)) }
    ensures read_back { IfOk result
        (λ answer. IfOk answer (λ trace. ReadsBack text.now trace.items)) }
{
    let mut trace = Vec::new(heap);
    let mut rest = text;
    let mut lines_before = 0;
    while !rest.is_empty() {
        let (line, behind) = split_line(rest);
        if !add_line(&mut trace, heap, line)? {
            return Ok(Err(lines_before));
        }
        lines_before += 1;
        rest = behind;
    }
    Ok(Ok(trace))
}

// The trace that a text spells. The only failure is want of memory.
pub fn assemble(heap: Global, text: &[u8]) -> Result<Result<Vec<u8>, NotUnderstood>, AllocError>
    ensures answer { IfOk result (λ answer. shown_answer answer ≡ assembly_of text.now) }
    ensures read_back { IfOk result
        (λ answer. IfOk answer (λ trace. ReadsBack text.now trace.items)) }
{
    match add_lines(heap, text)? {
        Ok(trace) => Ok(Ok(trace)),
        Err(lines_before) => Ok(Err(NotUnderstood {
            line: lines_before + 1,
        })),
    }
}
