// Compares the listing with a second, naive one, on written examples and on generated traces. Two arguments, a number of traces
// and a seed, take the place of those that the gate has.
//
// The functions here have no clauses: they are proved to be safe and to return, and no more. This crate is evidence from outside.
// `naive` was written from docs/RULES.md alone, and clauses that cite the definitions of the other crates would make it the same
// program again.
//
// Of the refusals 10, 17 and 19 never come of a trace. 17 and 19 are not the listing's; and 10 needs a counter of 65535, and so
// as many events, while 65,536 bytes have room for a set-up and 6,552 of the shortest.
#![tactic(auto)]

use comparison::comparison::Comparison;
use std::process::ExitCode;
use std::rt::Env;
use std::{env, io};

const TRACES: usize = 10_000;

const SEED: u64 = 1;

// How many traces, and from which seed.
fn asked(rt: &(impl Env + AllocGlobal)) -> io::Result<(usize, u64)> {
    let mut words = env::args(rt)?;
    words.next();
    let (Some(traces), Some(seed)) = (words.next(), words.next()) else {
        return Ok((TRACES, SEED));
    };
    Ok((
        traces.parse::<usize>().unwrap_or(TRACES),
        seed.parse::<u64>().unwrap_or(SEED),
    ))
}

// Whether all is the same.
fn compare(rt: &(impl Print + AllocGlobal), traces: usize, seed: u64) -> io::Result<bool> {
    let mut comparison = Comparison::new(rt.alloc());
    if let Some(name) = comparison.wrong_example()? {
        println!(rt; "wrong example: {name}")?;
        comparison.print_parting(rt)?;
        return Ok(false);
    }
    let difference = comparison.first_difference(seed, traces)?;
    comparison.tally.print(rt)?;
    match difference {
        None => {
            rt.println("no difference")?;
            Ok(true)
        }
        Some((number, plan)) => {
            println!(rt; "difference in trace {number}, {plan}")?;
            comparison.print_parting(rt)?;
            Ok(false)
        }
    }
}

fn main(rt: HostRuntime) -> io::Result<ExitCode> {
    let (traces, seed) = asked(&rt)?;
    if compare(&rt, traces, seed)? {
        Ok(ExitCode::SUCCESS)
    } else {
        Ok(ExitCode::FAILURE)
    }
}
