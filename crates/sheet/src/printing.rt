// Prints a page.
ghost use Rattle.std.specs.Prelude.{◌≡◌, ◌++◌, IfOk, OnOk, map, string_bytes};
ghost use Rattle.refusals.specs.Refusals.{result_map, shown};
ghost use Rattle.replay.specs.Calls.{answer_numbers};
ghost use Rattle.trace.specs.Contents.{content_of};
ghost use Rattle.trace_history.specs.Events.{numbered_events};
ghost use Rattle.trace_history.specs.Shown.{event_numbers};
ghost use Rattle.trace_run.specs.SetUp.{set_up_numbers};
ghost use Rattle.sheet.specs.Printed.{body_lines, printed};

use refusals::refusal::Refusal;
use sheet_lines::head::add_head;
use sheet_lines::held_back::add_waiting;
use sheet_lines::names::NamedKey;
use sheet_lines::puts::puts_among;
use sheet_lines::rows::add_page;
use std::alloc::{AllocError, Global};
use store::version::Version;
use trace::records::Record;
use trace_history::events::{Event, events_of};
use trace_replay::page::Paged;
use trace_run::setup::SetUp;

// A page is of a recorder that was closed or not, at a stamp.
#[derive(Clone, Copy)]
pub(crate) struct At {
    pub(crate) closed: bool,
    pub(crate) stamp: u64,
}

// The page, or why it is refused.
fn add_body<K: NamedKey>(
    text: &mut String,
    setup: SetUp,
    at: At,
    events: &[Event<K>],
    page: &Result<Vec<Version<K>>, Refusal>,
) -> Result<(), AllocError>
    ensures { let body = body_lines K.name (set_up_numbers setup) at.closed at.stamp
        (map event_numbers events.now) (shown (result_map (λ rows. rows.items) page.now)) in
        OnOk result (string_bytes text.new ≡ string_bytes text.old ++ body) }
{
    match page {
        Ok(rows) => add_page(text, at.closed, events, rows),
        Err(refusal) => add_waiting(text, *refusal, events, at.stamp, setup.settings.nodes()),
    }
}

// The sheet of these events.
fn print_events<K: NamedKey>(
    heap: Global,
    setup: SetUp,
    records: &[Record],
    at: At,
    events: &[Event<K>],
    page: &Result<Vec<Version<K>>, Refusal>,
) -> Result<String, AllocError>
    ensures { let sheet = printed K.name (set_up_numbers setup) at.closed at.stamp
        (map event_numbers events.now) (map content_of records.now) (shown (result_map (λ rows. rows.items) page.now)) in
        IfOk result (λ text. string_bytes text ≡ sheet) }
{
    let mut text = String::new(heap);
    add_head(&mut text, setup, puts_among(records, events), at.stamp)?;
    add_body(&mut text, setup, at, events, page)?;
    Ok(text)
}

// The sheet of what a recorder answered.
pub(crate) fn print<K: NamedKey>(
    heap: Global,
    setup: SetUp,
    records: &[Record],
    at: At,
    paged: &Paged<K>,
) -> Result<String, AllocError>
    ensures { let contents = map content_of records.now in
        let events = numbered_events K.form 2 contents (map answer_numbers paged.now.answers.items) in
        let sheet = printed K.name (set_up_numbers setup) at.closed at.stamp events
        contents (shown (result_map (λ rows. rows.items) paged.now.page)) in
        IfOk result (λ text. string_bytes text ≡ sheet) }
{
    let events = events_of(heap, records, &paged.answers)?;
    print_events(heap, setup, records, at, &events, &paged.page)
}
