// Shows that a final page stays as it is. A text in the form that `assemble` reads is assembled twice: whole, and up to the line
// behind which the late boxes report. For some requests the pages of both are printed, and whether they are the same.
//
// The functions here have no clauses, as in `crosscheck`: this is a program that shows one morning. What it shows holds of
// every trace, by the clauses of `sheet_text`.
#![tactic(auto)]

use assembly::text::assemble;
use sheet::request::Request;
use sheet::sheet::sheet_text;
use std::alloc::{AllocError, Global};
use std::io::{self, Read};
use std::process::ExitCode;

const LATE: &str = "# the late boxes report\n";

const COUNTERS: u64 = 65_536;

const REQUESTS: [Request; 5] = [
    Request {
        stamp: Some(25_000 * COUNTERS),
        closed: false,
    },
    Request {
        stamp: Some(30_000 * COUNTERS),
        closed: false,
    },
    Request {
        stamp: None,
        closed: false,
    },
    Request {
        stamp: Some(41_500 * COUNTERS),
        closed: false,
    },
    Request {
        stamp: Some(41_500 * COUNTERS),
        closed: true,
    },
];

// A trace before the late boxes report, and the whole of it.
#[derive(Drop)]
struct Traces {
    before: Vec<u8>,
    after: Vec<u8>,
}

// Both traces of a text, or what is wrong with it.
fn traces_of(heap: Global, text: &str) -> Result<Result<Traces, &'static str>, AllocError> {
    let Some((early, _)) = text.split_once(LATE) else {
        return Ok(Err("there is no line behind which the late boxes report"));
    };
    let before = assemble(heap, early.as_bytes())?;
    let after = assemble(heap, text.as_bytes())?;
    match (before, after) {
        (Ok(before), Ok(after)) => Ok(Ok(Traces { before, after })),
        _ => Ok(Err("a line is not understood")),
    }
}

// The sheet of a trace, or the line in its place.
fn page_of(heap: Global, trace: &[u8], request: Request) -> Result<String, AllocError> {
    match sheet_text(heap, trace, request)? {
        Ok(sheet) => Ok(sheet),
        Err(no_page) => {
            let mut text = String::new(heap);
            writeln!(text, "{no_page}")?;
            Ok(text)
        }
    }
}

// Whether two sheets are the same but for the line of how many puts there were.
fn is_same_page(sheet: &str, other: &str) -> bool {
    let mut others = other.lines();
    for line in sheet.lines() {
        let Some(other) = others.next() else {
            return false;
        };
        let counts_puts = line.starts_with("puts in the trace: ")
            && other.starts_with("puts in the trace: ");
        if line != other && !counts_puts {
            return false;
        }
    }
    others.next().is_none()
}

// What became of a page when the late boxes had reported.
fn outcome(before: &str, after: &str) -> &'static str {
    if before.lines().any(|line| line.starts_with("not final: ")) {
        "no page before"
    } else if is_same_page(before, after) {
        "the same page"
    } else {
        "another page"
    }
}

// Prints a sheet under a line that says when it was made, and what was asked for.
fn print_sheet(rt: &impl Print, when: &str, request: Request, sheet: &str) -> io::Result<()> {
    let closed = if request.closed { ", closed" } else { "" };
    match request.stamp {
        Some(code) => {
            println!(rt;
                "{when}, at {}.{}{closed}",
                code / COUNTERS,
                code % COUNTERS
            )?;
        }
        None => println!(rt; "{when}, without a stamp{closed}")?,
    }
    print!(rt; "{sheet}")
}

// Prints the pages of both traces, and whether they are the same.
fn show(rt: &(impl Print + AllocGlobal), traces: &Traces, request: Request) -> io::Result<()> {
    let before = page_of(rt.alloc(), &traces.before, request)?;
    let after = page_of(rt.alloc(), &traces.after, request)?;
    print_sheet(rt, "before", request, before.as_str())?;
    print_sheet(rt, "after", request, after.as_str())?;
    println!(rt; "{}", outcome(before.as_str(), after.as_str()))?;
    rt.println("")
}

fn show_all(rt: &(impl Print + AllocGlobal), text: &str) -> io::Result<ExitCode> {
    match traces_of(rt.alloc(), text)? {
        Ok(traces) => {
            for request in REQUESTS {
                show(rt, &traces, request)?;
            }
            Ok(ExitCode::SUCCESS)
        }
        Err(why) => {
            rt.println(why)?;
            Ok(ExitCode::FAILURE)
        }
    }
}

fn main(rt: HostRuntime) -> io::Result<ExitCode> {
    let mut text = String::new(rt.alloc());
    rt.stdin().read_to_string(&mut text)?;
    show_all(&rt, text.as_str())
}
