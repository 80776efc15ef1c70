// Assembles the text that stands on standard input to a trace.
#![tactic(auto)]

use assembly::program::assemble_input;
use std::io;
use std::process::ExitCode;

fn main(rt: HostRuntime) -> io::Result<ExitCode> {
    assemble_input(rt.stdin(), &mut rt.stdout(), &mut rt.stderr(), rt.alloc())
}
