use clocks::backstep::Backstep;
use clocks::bank::ClockBank;
use clocks::never_backwards::NeverBackwards;
use clocks::offset::Offset;
use clocks::offset_layer::OffsetLayer;
use clocks::reading::{Raw, Reading};
use clocks::runs::take_all;
use clocks::sample::Sample;
use clocks::tick::Tick;
use clocks::tick_counters::TickCounters;
use clocks::trace_clocks::TraceClocks;
use refusals::refusal::Refusal;
use std::alloc::Global;
use std::test::Fail;

// A reading's milliseconds, or the number of the refusal: by the rules' numbers, and not by `Refusal`.
fn millis(given: Result<Reading, Refusal>) -> Result<u64, u8> {
    given
        .map(|reading| reading.millis())
        .map_err(|refusal| refusal.number())
}

// The number of a refusal, if there is one.
fn number<T: Drop>(answer: Result<T, Refusal>) -> Option<u8> {
    Some(answer.err()?.number())
}

// A node's raw number.
fn sample(node: u8, raw: u64) -> Sample {
    Sample {
        node,
        raw: Raw(raw),
    }
}

// What a bank answers to the raw numbers of one node, taken in turn.
fn taken<B: ClockBank>(
    heap: Global,
    bank: &mut B,
    node: u8,
    raws: &[u64],
) -> Result<Vec<Result<u64, u8>>, Fail> {
    let samples: Vec<Sample> = raws.iter().map(|raw| sample(node, *raw)).collect(heap)?;
    let mut answers = Vec::new(heap);
    take_all(bank, samples.as_slice(), &mut answers)?;
    Ok(answers.into_iter().map(millis).collect(heap)?)
}

#[test]
fn trace_clock_steps_back(rt: HostRuntime) -> Result<(), Fail> {
    let mut clocks = TraceClocks::new(Backstep::new(20)?);
    let found = taken(
        rt.alloc(),
        &mut clocks,
        15,
        &[0, 281_474_976_710_656, 1000, 980, 979, 1001, 980],
    )?;
    assert_eq!(rt;
        found.as_slice(),
        &[Err(8), Err(8), Ok(1000), Ok(980), Err(9), Ok(1001), Err(9)][..]
    );
    assert_eq!(rt; millis(clocks.look(sample(14, 1))), Ok(1));
    assert_eq!(rt; millis(clocks.look(sample(16, 1))), Err(7));
    Ok(())
}

// The never-backwards layer over the offset layer over tick counters.
#[test]
fn layers_on_layers(rt: HostRuntime) -> Result<(), Fail> {
    let ticks = TickCounters::new([Tick::new(1000, 10)?; 16]);
    let offsets = OffsetLayer::new(ticks, [Offset::new(-1005)?; 16]);
    let mut clocks = NeverBackwards::new(offsets);
    let found = taken(
        rt.alloc(),
        &mut clocks,
        3,
        &[0, 1, 5, 4, 4_294_967_295, 4_294_967_296, 5],
    )?;
    assert_eq!(rt;
        found.as_slice(),
        &[
            Err(8),
            Ok(5),
            Ok(45),
            Err(9),
            Ok(42_949_672_945),
            Err(8),
            Err(9)
        ][..]
    );
    assert_eq!(rt; millis(clocks.take(sample(16, 1))), Err(7));
    assert_eq!(rt; millis(clocks.take(sample(4, 1))), Ok(5));
    Ok(())
}

#[test]
fn never_backwards_holds_its_high(rt: HostRuntime) -> Result<(), Fail> {
    let below = TraceClocks::new(Backstep::new(86_400_000)?);
    let mut clocks = NeverBackwards::new(below);
    let found = taken(rt.alloc(), &mut clocks, 0, &[2000, 1000, 0, 2001, 1])?;
    assert_eq!(rt;
        found.as_slice(),
        &[Ok(2000), Ok(2000), Err(8), Ok(2001), Ok(2001)][..]
    );
    Ok(())
}

#[test]
fn offset_at_both_ends(rt: HostRuntime) -> Result<(), Fail> {
    let mut later = OffsetLayer::new(
        TraceClocks::new(Backstep::new(0)?),
        [Offset::new(86_400_000)?; 16],
    );
    let found = taken(
        rt.alloc(),
        &mut later,
        0,
        &[281_474_890_310_656, 281_474_890_310_655],
    )?;
    assert_eq!(rt; found.as_slice(), &[Err(8), Ok(281_474_976_710_655)][..]);
    let mut earlier = OffsetLayer::new(
        TraceClocks::new(Backstep::new(0)?),
        [Offset::new(-1000)?; 16],
    );
    let found = taken(rt.alloc(), &mut earlier, 0, &[1000, 1001])?;
    assert_eq!(rt; found.as_slice(), &[Err(8), Ok(1)][..]);
    Ok(())
}

#[test]
fn settings_out_of_range(rt: HostRuntime) {
    assert_eq!(rt; number(Backstep::new(86_400_001)), Some(4));
    assert_eq!(rt; number(Offset::new(-86_400_001)), Some(4));
    assert_eq!(rt; number(Offset::new(86_400_001)), Some(4));
    assert_eq!(rt; number(Tick::new(281_474_976_710_656, 1)), Some(4));
    assert_eq!(rt; number(Tick::new(0, 0)), Some(4));
    assert_eq!(rt; number(Tick::new(0, 1001)), Some(4));
}
