// The first lines of a sheet.
ghost use Rattle.std.specs.Prelude.{◌≡◌, ◌++◌, OnOk, string_bytes};
ghost use Rattle.trace_history.specs.Trace.{bound_of};
ghost use Rattle.trace_run.specs.SetUp.{set_up_numbers};
ghost use Rattle.sheet_lines.specs.Lines.{bound_line, head_lines, keys_word, set_up_line};

use crate::numbers::Code;
use crate::puts::Puts;
use std::alloc::AllocError;
use trace_run::setup::{Keys, SetUp};

fn word_of(keys: Keys) -> &'static str
    ensures { result.now ≡ keys_word keys }
{
    match keys {
        Keys::Points => "points",
        Keys::Tags => "tags",
    }
}

// The set-up in words.
fn add_set_up(text: &mut String, setup: SetUp) -> Result<(), AllocError>
    ensures { OnOk result (string_bytes text.new
        ≡ string_bytes text.old ++ set_up_line (set_up_numbers setup)) }
{
    let nodes = setup.settings.nodes();
    let keys = word_of(setup.keys);
    let lead = setup.settings.lead().millis();
    let backstep = setup.backstep.millis();
    writeln!(
        text,
        "set-up: boxes {nodes}, keys {keys}, lead {lead} ms, backstep {backstep} ms"
    )
}

// By how many milliseconds a stamp runs ahead of its box's clock at most: the lead and the backstep.
fn bound_of(setup: SetUp) -> u32
    ensures { result ≡ bound_of (set_up_numbers setup) }
{
    setup.settings.lead().millis() + setup.backstep.millis()
}

fn add_bound(text: &mut String, setup: SetUp) -> Result<(), AllocError>
    ensures { OnOk result (string_bytes text.new
        ≡ string_bytes text.old ++ bound_line (set_up_numbers setup)) }
{
    let bound = bound_of(setup);
    writeln!(
        text,
        "bound: no stamp is more than {bound} ms ahead of its box's clock"
    )
}

// The lines above a page.
pub fn add_head(text: &mut String, setup: SetUp, puts: Puts, stamp: u64) -> Result<(), AllocError>
    ensures { OnOk result (string_bytes text.new
        ≡ string_bytes text.old ++ head_lines (set_up_numbers setup) puts stamp) }
{
    let Puts { accepted, refused } = puts;
    add_set_up(text, setup)?;
    add_bound(text, setup)?;
    writeln!(
        text,
        "puts in the trace: {accepted} accepted, {refused} refused"
    )?;
    writeln!(text, "page: {}", Code(stamp))
}
