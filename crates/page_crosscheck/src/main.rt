// Compares the inspector's page with a second, naive one, on written examples and on generated traces, each at several stamps,
// open and closed. Two arguments, a number of traces and a seed, take the place of those that the gate has.
//
// No function has a clause, as in `crosscheck`, which says why.
#![tactic(auto)]

use page_comparison::comparison::PageComparison;
use std::process::ExitCode;
use std::rt::Env;
use std::{env, io};

const TRACES: usize = 4_000;

const SEED: u64 = 1;

// How many traces, and from which seed.
fn asked(rt: &(impl Env + AllocGlobal)) -> io::Result<(usize, u64)> {
    let mut words = env::args(rt)?;
    words.next();
    let (Some(traces), Some(seed)) = (words.next(), words.next()) else {
        return Ok((TRACES, SEED));
    };
    Ok((
        traces.parse::<usize>().unwrap_or(TRACES),
        seed.parse::<u64>().unwrap_or(SEED),
    ))
}

// Whether all is the same.
fn compare(rt: &(impl Print + AllocGlobal), traces: usize, seed: u64) -> io::Result<bool> {
    let mut comparison = PageComparison::new(rt.alloc());
    if let Some(name) = comparison.wrong_example()? {
        println!(rt; "wrong example: {name}")?;
        comparison.print_parting(rt)?;
        return Ok(false);
    }
    let difference = comparison.first_difference(seed, traces)?;
    comparison.counts.print(rt)?;
    match difference {
        None => {
            rt.println("no difference")?;
            Ok(true)
        }
        Some((number, plan)) => {
            println!(rt; "difference in trace {number}, {plan}")?;
            comparison.print_parting(rt)?;
            Ok(false)
        }
    }
}

fn main(rt: HostRuntime) -> io::Result<ExitCode> {
    let (traces, seed) = asked(&rt)?;
    if compare(&rt, traces, seed)? {
        Ok(ExitCode::SUCCESS)
    } else {
        Ok(ExitCode::FAILURE)
    }
}
