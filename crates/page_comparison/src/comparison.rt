// Sheets of one trace, each made twice.

use made_traces::traces::write_trace;
use naive_page::page::add_page_of;
use naive_page::replayed::{Replay, replay_of};
use page_requests::requests::requests_of;
use partings::{Parting, digits_of, first_parting};
use sheet::request::Request;
use sheet::sheet::sheet_text;
use sheet_counts::{Count, Counts};
use std::alloc::{AllocError, Global};
use std::io;
use written_examples::examples::write_bytes;
use written_sheets::examples::SHEETS;

// A trace and two texts of its page, which the next ones overwrite; what was asked for; and what was met in all of them.
#[derive(Drop)]
pub struct PageComparison {
    heap: Global,
    trace: Vec<u8>,
    request: Request,
    page: String,
    naive: String,
    pub counts: Counts,
}

impl PageComparison {
    pub fn new(heap: Global) -> PageComparison {
        PageComparison {
            heap,
            trace: Vec::new(heap),
            request: Request {
                stamp: None,
                closed: false,
            },
            page: String::new(heap),
            naive: String::new(heap),
            counts: Counts::new(),
        }
    }

    // Makes both texts of the trace that stands here, and answers whether they are the same.
    fn agrees(&mut self, replay: &Replay, request: Request) -> Result<bool, AllocError> {
        self.request = request;
        self.page.clear();
        match sheet_text(self.heap, &self.trace, request)? {
            Ok(sheet) => self.page = sheet,
            Err(no_page) => writeln!(self.page, "{no_page}")?,
        }
        self.naive.clear();
        add_page_of(
            &mut self.naive,
            self.heap,
            replay,
            request.stamp,
            request.closed,
        )?;
        self.counts.add_text(self.naive.as_str());
        Ok(self.page.as_str() == self.naive.as_str())
    }

    // The name of an example that one of the two writes otherwise than it is written.
    pub fn wrong_example(&mut self) -> Result<Option<&'static str>, AllocError> {
        for example in SHEETS {
            write_bytes(&mut self.trace, example.trace)?;
            let replay = replay_of(self.heap, &self.trace)?;
            let request = Request {
                stamp: example.stamp,
                closed: example.closed,
            };
            if !self.agrees(&replay, request)? || self.naive.as_str() != example.text {
                return Ok(Some(example.name));
            }
        }
        Ok(None)
    }

    // Whether all that is asked for of the trace that stands here is the same.
    fn agrees_on_all(&mut self, turn: usize) -> Result<bool, AllocError> {
        let replay = replay_of(self.heap, &self.trace)?;
        for request in &requests_of(self.heap, &replay, turn)? {
            if !self.agrees(&replay, *request)? {
                return Ok(false);
            }
        }
        Ok(true)
    }

    // The number and the plan's name of the first of so many traces of which there are two pages.
    pub fn first_difference(
        &mut self,
        seed: u64,
        traces: usize,
    ) -> Result<Option<(usize, &'static str)>, AllocError> {
        for number in 0..traces {
            let plan = write_trace(&mut self.trace, seed, number)?;
            self.counts.add(Count::Trace);
            if !self.agrees_on_all(number)? {
                return Ok(Some((number, plan)));
            }
        }
        Ok(None)
    }

    // Prints what was asked for last, the trace, and where its texts part. An example that both write otherwise than it is
    // written has no such place.
    pub fn print_parting(&self, rt: &impl Print) -> io::Result<()> {
        match self.request.stamp {
            Some(code) => println!(rt; "at {}.{}", code / 65_536, code % 65_536)?,
            None => rt.println("without a stamp")?,
        }
        rt.println(if self.request.closed {
            "closed"
        } else {
            "open"
        })?;
        if self.page.as_str() == self.naive.as_str() {
            rt.println("both have:")?;
            rt.println(self.page.as_str())?;
        } else {
            let Parting {
                line,
                first,
                second,
            } = first_parting(self.page.as_str(), self.naive.as_str());
            println!(rt; "line {line}: page {first}")?;
            println!(rt; "line {line}: naive {second}")?;
        }
        rt.println(digits_of(self.heap, &self.trace)?.as_str())
    }
}
