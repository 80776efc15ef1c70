// The rows of a page.
ghost use Rattle.std.specs.Prelude.{◌≡◌, ◌++◌, OnOk, map, string_bytes};
ghost use Rattle.trace_history.specs.Shown.{event_numbers};
ghost use Rattle.sheet_lines.specs.Lines.{columns_line, count_line, final_line, page_lines};
ghost use Rattle.sheet_lines.specs.Lines.{row_fields, row_line, row_lines, table_lines};

use crate::names::NamedKey;
use crate::numbers::{Code, Units};
use std::alloc::AllocError;
use store::version::Version;
use trace_history::events::Event;
use trace_history::source::source_of;

// What stands in a row behind the key.
fn add_fields<K: NamedKey>(
    text: &mut String,
    version: &Version<K>,
    event: &Event<K>,
) -> Result<(), AllocError>
    ensures { OnOk result (string_bytes text.new
        ≡ string_bytes text.old ++ row_fields K.name version.now (event_numbers event.now)) }
{
    let value = Units(version.value);
    let stamp = Code(version.stamp);
    let node = version.node;
    let &Event {
        number,
        reading,
        ..
    } = event;
    writeln!(text, " {value} {stamp} {node} {number} {reading}")
}

// The line of a version, with the event that put it.
fn add_row<K: NamedKey>(
    text: &mut String,
    version: &Version<K>,
    event: &Event<K>,
) -> Result<(), AllocError>
    ensures { OnOk result (string_bytes text.new
        ≡ string_bytes text.old ++ row_line K.name version.now (event_numbers event.now)) }
{
    version.key.add_name(text)?;
    add_fields(text, version, event)
}

// The lines of these versions, each with the event that it comes from.
fn add_rows<K: NamedKey>(
    text: &mut String,
    events: &[Event<K>],
    rows: &[Version<K>],
) -> Result<(), AllocError>
    ensures { OnOk result (string_bytes text.new
        ≡ string_bytes text.old ++ row_lines K.name (map event_numbers events.now) rows.now) }
{
    for row in rows {
        if let Some(event) = source_of(events, row) {
            add_row(text, row, event)?;
        }
    }
    Ok(())
}

// That a page is final, and why.
fn add_final(text: &mut String, closes: bool) -> Result<(), AllocError>
    ensures { OnOk result (string_bytes text.new ≡ string_bytes text.old ++ final_line closes) }
{
    if closes {
        writeln!(
            text,
            "final: the recorder is closed, as asked, and no box will report any more"
        )
    } else {
        writeln!(
            text,
            "final: no box can report at or below this stamp any more"
        )
    }
}

// How many rows there are.
fn add_count(text: &mut String, count: usize) -> Result<(), AllocError>
    ensures { OnOk result (string_bytes text.new ≡ string_bytes text.old ++ count_line count) }
{
    writeln!(text, "rows: {count}")
}

// What stands in the rows.
fn add_columns(text: &mut String) -> Result<(), AllocError>
    ensures { OnOk result (string_bytes text.new ≡ string_bytes text.old ++ columns_line) }
{
    writeln!(text, "key value stamp box record clock")
}

// What stands in the rows, the rows, and how many there are.
fn add_table<K: NamedKey>(
    text: &mut String,
    events: &[Event<K>],
    rows: &[Version<K>],
) -> Result<(), AllocError>
    ensures { let table = table_lines K.name (map event_numbers events.now) rows.now in
        OnOk result (string_bytes text.new ≡ string_bytes text.old ++ table) }
{
    add_columns(text)?;
    add_rows(text, events, rows)?;
    add_count(text, rows.len())
}

// A final page: that it is, and its table.
pub fn add_page<K: NamedKey>(
    text: &mut String,
    closes: bool,
    events: &[Event<K>],
    rows: &[Version<K>],
) -> Result<(), AllocError>
    ensures { let page = page_lines K.name closes (map event_numbers events.now) rows.now in
        OnOk result (string_bytes text.new ≡ string_bytes text.old ++ page) }
{
    add_final(text, closes)?;
    add_table(text, events, rows)
}
