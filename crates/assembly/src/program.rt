// What the program does.
ghost use Rattle.std.specs.Prelude.{IfOk, IfSome};
ghost use Rattle.assembly.specs.Program.{Told};
ghost use Rattle.assembly.specs.Texts.{assembly_of};

use crate::text::{NotUnderstood, assemble};
use std::alloc::Global;
use std::io::{self, Read, Write};
use std::process::ExitCode;

// Writes the trace that the text of an input spells to the output, in one piece. Where a line is not understood it
// writes nothing there, says so to `errors`, and answers the status of a failure.
pub fn assemble_input<R: Read + Drop, W: Write, E: Write>(
    mut input: R,
    output: &mut W,
    errors: &mut E,
    heap: Global,
) -> io::Result<ExitCode>
    ensures { IfOk result (λ code. IfSome (R.remaining input) (λ text. Told (assembly_of text)
        (W.contents output.old) (W.contents output.new)
        (E.contents errors.old) (E.contents errors.new) code)) }
{
    let mut text = Vec::new(heap);
    input.read_to_end(&mut text)?;
    match assemble(heap, &text)? {
        Ok(trace) => {
            output.write_all(&trace)?;
            Ok(ExitCode::SUCCESS)
        }
        Err(NotUnderstood { line }) => {
            writeln!(errors, "line {line} is not understood")?;
            Ok(ExitCode::FAILURE)
        }
    }
}
