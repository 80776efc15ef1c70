// Shows no page of a trace that breaks off in the middle of its third record: why stands in its place, and the status is 1.
#![tactic(auto)]

use page_program::arguments::request_of;
use page_program::printing::print_page;
use std::process::ExitCode;
use std::rt::Env;
use std::{env, io};

// The arguments, if each is a text.
fn words(rt: &(impl Env + AllocGlobal)) -> io::Result<Vec<String>> {
    Ok(env::args(rt)?.skip(1).collect(rt.alloc())?)
}

fn main(rt: HostRuntime) -> io::Result<ExitCode> {
    let request = words(&rt).ok().and_then(|words| request_of(&words));
    print_page(request, rt.stdin(), &mut rt.stdout(), rt.alloc())
}
