use clocks::backstep::Backstep;
use clocks::bank::ClockBank;
use clocks::reading::Raw;
use clocks::sample::Sample;
use clocks::trace_clocks::TraceClocks;
use refusals::refusal::Refusal;
use stamps::lead::Lead;
use stamps::rules::{receive, stamp_own};
use stamps::stamp::Stamp;
use stamps::stamped::Stamped;
use std::test::Fail;

// Time, counter and drift, or the number of the refusal.
fn stamped_numbers(given: Result<Stamped, Refusal>) -> Result<(u64, u16, u64), u8> {
    given
        .map(|stamped| (stamped.stamp.time(), stamped.stamp.counter(), stamped.drift))
        .map_err(|refusal| refusal.number())
}

// The stamp of a code that has one.
fn stamp_at(code: u64) -> Result<Stamp, Fail> {
    Ok(Stamp::from_code(code).ok_or("no stamp")?)
}

// A node's raw number.
fn sample(node: u8, raw: u64) -> Sample {
    Sample {
        node,
        raw: Raw(raw),
    }
}

// A message comes in ahead of the clock, and then the clock falls back.
#[test]
fn drift_of_a_message(rt: HostRuntime) -> Result<(), Fail> {
    let mut clocks = TraceClocks::new(Backstep::new(20)?);
    let reading = clocks.take(sample(0, 1000))?;
    let sent = stamp_at(1501 * 65_536)?;
    assert_eq!(rt;
        stamped_numbers(receive(Lead::new(500)?, Stamp::zero(), sent, reading)),
        Err(15)
    );
    let sent = stamp_at(1500 * 65_536)?;
    let received = receive(Lead::new(500)?, Stamp::zero(), sent, reading)?;
    assert_eq!(rt; stamped_numbers(Ok(received)), Ok((1500, 1, 500)));
    let below = clocks.look(sample(0, 979)).err();
    assert_eq!(rt; below.map(|refusal| refusal.number()), Some(9));
    let reading = clocks.take(sample(0, 980))?;
    assert_eq!(rt;
        stamped_numbers(stamp_own(received.stamp, reading)),
        Ok((1500, 2, 520))
    );
    Ok(())
}

#[test]
fn counter_spent(rt: HostRuntime) -> Result<(), Fail> {
    let mut clocks = TraceClocks::new(Backstep::new(0)?);
    let last = stamp_at(1000 * 65_536 + 65_535)?;
    assert_eq!(rt;
        stamped_numbers(stamp_own(last, clocks.take(sample(0, 1000))?)),
        Err(10)
    );
    assert_eq!(rt;
        stamped_numbers(stamp_own(last, clocks.take(sample(0, 1001))?)),
        Ok((1001, 0, 0))
    );
    Ok(())
}

#[test]
fn lead_out_of_range(rt: HostRuntime) {
    let refused = Lead::new(86_400_001).err();
    assert_eq!(rt; refused.map(|refusal| refusal.number()), Some(4));
}
