// Assembles a text of which a line is not understood: nothing is written, and the status is 1.
#![tactic(auto)]

use assembly::program::assemble_input;
use std::io;
use std::process::ExitCode;

fn main(rt: HostRuntime) -> io::Result<ExitCode> {
    assemble_input(rt.stdin(), &mut rt.stdout(), &mut rt.stderr(), rt.alloc())
}
