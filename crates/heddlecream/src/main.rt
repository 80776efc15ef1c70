// Lists the trace that stands on standard input.
#![tactic(auto)]

ghost use Rattle.std.specs.Prelude.{IfSome, OnOk};
ghost use Rattle.std.specs.Io.KnownBytes.{Appends};
ghost use Rattle.listing.specs.Text.{text_of};

use listing::report;
use std::alloc::Global;
use std::io::{self, Read, Write};

// Lists the trace that an input still has: the output gains the text of all its bytes, in one piece.
fn list<R: Read + Drop, W: Write>(input: R, output: &mut W, heap: Global) -> io::Result<()>
    ensures { OnOk result (IfSome (R.remaining input)
        (λ trace. Appends (W.contents output.old) (W.contents output.new) (text_of trace))) }
{
    let mut trace = Vec::new(heap);
    // One byte more than is listed, to tell a trace that is too long.
    input
        .take(report::LONGEST as u64 + 1)
        .read_to_end(&mut trace)?;
    let mut text = String::new(heap);
    report::add_listing(&mut text, heap, &trace)?;
    output.write_all(text.as_bytes())
}

fn main(rt: HostRuntime) -> io::Result<()> {
    list(rt.stdin(), &mut rt.stdout(), rt.alloc())
}
