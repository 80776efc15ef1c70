// One trace, listed twice.

use listing::report;
use made_traces::traces::write_trace;
use naive::listing::add_listing as add_naive_listing;
use naive::tally::{Count, Tally};
use naive_format::encoder::add_record;
use partings::{Parting, digits_of, first_parting};
use std::alloc::{AllocError, Global};
use std::io;
use written_examples::examples::{self, EXAMPLES, PUT, PUT_RECORD};

// A trace and its two listings, which the next one overwrites; and what was met in all of them.
#[derive(Drop)]
pub struct Comparison {
    heap: Global,
    trace: Vec<u8>,
    listed: String,
    naive: String,
    pub tally: Tally,
}

impl Comparison {
    pub fn new(heap: Global) -> Comparison {
        Comparison {
            heap,
            trace: Vec::new(heap),
            listed: String::new(heap),
            naive: String::new(heap),
            tally: Tally::new(),
        }
    }

    // Lists the trace that stands here by both, and answers whether the texts are the same.
    fn agrees(&mut self) -> Result<bool, AllocError> {
        self.listed.clear();
        report::add_listing(&mut self.listed, self.heap, &self.trace)?;
        self.naive.clear();
        add_naive_listing(&mut self.naive, self.heap, &self.trace, &mut self.tally)?;
        Ok(self.listed.as_str() == self.naive.as_str())
    }

    // Whether the put of the rules is written as it stands there.
    fn writes_the_put(&mut self) -> Result<bool, AllocError> {
        examples::write_bytes(&mut self.trace, PUT)?;
        let mut written = Vec::new(self.heap);
        add_record(&mut written, PUT_RECORD)?;
        Ok(written.as_slice() == self.trace.as_slice())
    }

    // The name of an example that one of the two lists otherwise than it is written.
    pub fn wrong_example(&mut self) -> Result<Option<&'static str>, AllocError> {
        for example in EXAMPLES {
            examples::write_bytes(&mut self.trace, example.trace)?;
            if !self.agrees()? || self.naive.as_str() != example.text {
                return Ok(Some(example.name));
            }
        }
        if !self.writes_the_put()? {
            return Ok(Some("the put's bytes"));
        }
        if !examples::are_stamps_right() {
            return Ok(Some("the worked stamps"));
        }
        Ok(None)
    }

    // The number and the plan's name of the first of so many traces that are listed in two ways.
    pub fn first_difference(
        &mut self,
        seed: u64,
        traces: usize,
    ) -> Result<Option<(usize, &'static str)>, AllocError> {
        for number in 0..traces {
            let plan = write_trace(&mut self.trace, seed, number)?;
            self.tally.add(Count::Trace);
            if !self.agrees()? {
                return Ok(Some((number, plan)));
            }
        }
        Ok(None)
    }

    // Prints the trace that stands here, and where its listings part. An example that both list otherwise than it is written has
    // no such place.
    pub fn print_parting(&self, rt: &impl Print) -> io::Result<()> {
        if self.listed.as_str() == self.naive.as_str() {
            rt.println("both have:")?;
            rt.println(self.listed.as_str())?;
            return rt.println(digits_of(self.heap, &self.trace)?.as_str());
        }
        let Parting {
            line,
            first,
            second,
        } = first_parting(self.listed.as_str(), self.naive.as_str());
        println!(rt; "line {line}: listed {first}")?;
        println!(rt; "line {line}: naive {second}")?;
        rt.println(digits_of(self.heap, &self.trace)?.as_str())
    }
}
