// The lines of a text.
ghost use Rattle.std.specs.Prelude.{◌≡◌, ◌++◌, ◌<◌, ◌==◌, All, IfOk, IfSome, OnOk, length, map, position, slice_index};
ghost use Rattle.std.specs.List.{after_first, before_first};
ghost use Rattle.trace.specs.Contents.{content_of, encoding_of};
ghost use Rattle.trace.specs.Ranges.{IsInRange};
ghost use Rattle.assembly.specs.Lines.{contents_of_line, is_line_feed, is_silent, records_of, spelled_by, words_of, AddsLine};

use spelling::record::{Written, record_from};
use std::alloc::{AllocError, Global};
use trace::records::Record;

// The size of the longest record, a put by a tag.
const LONGEST_RECORD: usize = 30;

// What a line says.
#[derive(Clone, Copy)]
enum Line {
    Nothing,
    Record(Written),
    Unknown,
}

// The place of the first line feed.
fn line_end(text: &[u8]) -> Option<usize>
    ensures place { result ≡ position is_line_feed text.now }
    ensures within { IfSome result (λ place. place < length text.now) }
{
    text.iter().position(|byte| *byte == b'\n')
}

// The first line of a text, and what stands behind its line feed.
#[tactic(auto, using(crate::proofs::Splitting::at_line_feed, crate::proofs::Splitting::no_line_feed))]
pub(crate) fn split_line(text: &[u8]) -> (&[u8], &[u8])
    ensures line { result.0.now ≡ before_first is_line_feed text.now }
    ensures behind { result.1.now ≡ after_first is_line_feed text.now }
    ensures shorter { 0 < length text.now → length result.1.now < length text.now }
{
    match line_end(text) {
        Some(end) => (&text[..end], &text[end + 1..]),
        None => (text, &[]),
    }
}

// The words of a line.
fn words(heap: Global, line: &[u8]) -> Result<Vec<&[u8]>, AllocError>
    ensures { IfOk result (λ words. map (λ word. word.now) words.items ≡ words_of line.now) }
{
    line.split(|byte| matches!(byte, b' ' | b'\t' | b'\r'))
        .filter(|word| !word.is_empty())
        .collect(heap)
}

// Whether the word begins a remark.
fn is_remark(word: &[u8]) -> bool
    ensures { result ≡ (slice_index word.now 0 == 35) }
{
    matches!(word, [b'#', ..])
}

// Whether a line of these words says nothing: it has none, or is a remark.
#[tactic(auto, using(crate::proofs::Splitting::first_word, crate::proofs::Splitting::no_word))]
fn says_nothing(words: &[&[u8]]) -> bool
    ensures { result ≡ is_silent (map (λ word. word.now) words.now) }
{
    words.is_empty() || is_remark(words[0])
}

// What the words of a line say.
#[tactic(auto, unfolding(crate::specs::Lines::spelled_by))]
fn line_of(words: &[&[u8]]) -> Line
    ensures { contents_of_line result ≡ spelled_by (map (λ word. word.now) words.now) }
{
    if says_nothing(words) {
        return Line::Nothing;
    }
    match record_from(words) {
        Some(written) => Line::Record(written),
        None => Line::Unknown,
    }
}

// Adds the bytes of a record.
fn add_record(trace: &mut Vec<u8>, record: &Record) -> Result<(), AllocError>
    ensures bytes { OnOk result
        (trace.new.items ≡ trace.old.items ++ encoding_of (content_of «record».now)) }
    ensures ranges { OnOk result (IsInRange (content_of «record».now)) }
    ensures octets { All (λ byte. byte < 256) trace.new.items }
{
    let mut buffer = [0; LONGEST_RECORD];
    let end = record.write_to(&mut buffer, 0).unwrap();
    trace.extend_from_slice(&buffer[..end])
}

// Adds the record that a line spells, if it spells one; false if it is not understood.
pub(crate) fn add_line(trace: &mut Vec<u8>, heap: Global, line: &[u8]) -> Result<bool, AllocError>
    ensures line { IfOk result (AddsLine (records_of line.now) trace.old.items trace.new.items) }
    ensures octets { All (λ byte. byte < 256) trace.new.items }
{
    match line_of(&words(heap, line)?) {
        Line::Nothing => Ok(true),
        Line::Record(written) => {
            add_record(trace, &written.record())?;
            Ok(true)
        }
        Line::Unknown => Ok(false),
    }
}
