// How the clocks, the stamp rules and the recorder are used.
#![tactic(auto)]

ghost use Rattle.std.specs.Prelude.{◌≡◌, IfOk, Some};
ghost use Rattle.std.specs.Option.{option_map};
ghost use Rattle.clocks.specs.TraceClocks.{trace_answer};
ghost use Rattle.refusals.specs.Refusals.{result_map, shown};
ghost use Rattle.stamper.specs.Readings.{at_reading};
ghost use Rattle.stamps.specs.Rules.{own_answer, stamped_numbers};
ghost use Rattle.stamps.specs.Stamp.{zero_stamp};

use clocks::backstep::Backstep;
use clocks::bank::ClockBank;
use clocks::reading::Raw;
use clocks::sample::Sample;
use clocks::trace_clocks::TraceClocks;
use keys::point::Point;
use recorder::empty_store::EmptyStore;
use recorder::open::Open;
use refusals::refusal::Refusal;
use sorted_run::SortedRun;
use stamper::settings::Settings;
use stamps::rules::stamp_own;
use stamps::stamp::Stamp;
use stamps::stamped::Stamped;
use std::io;
use store::version::Version;

// The first note of node 0, whose clock may step back by 20 ms.
fn first_note(raw: Raw) -> Result<Stamped, Refusal>
    ensures { shown (result_map stamped_numbers result) ≡ at_reading (own_answer zero_stamp) (trace_answer 0 20 raw.0) }
{
    let clocks = TraceClocks::new(Backstep::new(20)?);
    let reading = clocks.look(Sample { node: 0, raw })?;
    stamp_own(Stamp::zero(), reading)
}

// The version that a closed recorder has of a value that node 0 put under a point, unless the clock refused the put.
fn recorded(raw: Raw, value: i32) -> Result<Option<Version<Point>>, Refusal>
    ensures { IfOk result (λ found. option_map (λ v. v.value) found ≡ Some value) }
{
    let mut places = [Version {
        key: Point(0),
        stamp: 0,
        node: 0,
        value: 0,
    }; 4];
    let store = EmptyStore::new(SortedRun::new(&mut places)?)?;
    let clocks = TraceClocks::new(Backstep::new(20)?);
    let mut recorder = Open::new(Settings::new(2, 500)?, clocks, store);
    recorder.put(Sample { node: 0, raw }, Point(7), value)?;
    let closed = recorder.close();
    Ok(closed.read(Point(7), u64::MAX))
}

fn main(rt: HostRuntime) -> io::Result<()> {
    match first_note(Raw(1000)) {
        Ok(stamped) => println!(rt; "{stamped}")?,
        Err(refusal) => println!(rt; "refused {}", refusal.number())?,
    }
    match recorded(Raw(1000), -9000) {
        Ok(Some(version)) => println!(rt; "{} {} {}", version.stamp, version.node, version.value),
        Ok(None) => println!(rt; "none"),
        Err(refusal) => println!(rt; "refused {}", refusal.number()),
    }
}
