// What nodes reported last.
ghost use Rattle.std.specs.Prelude.{◌≡◌, ◌==◌, if◌then◌else◌, map};
ghost use Rattle.history.specs.History.{last_stamp as last_stamp_of};
ghost use Rattle.stamps.specs.Stamp.{stamp_of};
ghost use Rattle.trace_history.specs.Shown.{events_in};
ghost use Rattle.trace_history.specs.Trace.{lowest_last as lowest_last_of};

use crate::events::Event;
use stamps::stamp::Stamp;

// A node's last stamp behind an event: the event's, if it is the node's.
fn later_stamp<K: Copy>(last: Stamp, event: &Event<K>, node: u8) -> Stamp
    ensures { stamp_of result
        ≡ (if «event».now.node == node then stamp_of «event».now.stamp else stamp_of last) }
{
    if event.node == node {
        event.stamp
    } else {
        last
    }
}

// The stamp of the node's last event, 0.0 if it has none.
pub fn last_stamp<K: Copy>(events: &[Event<K>], node: u8) -> Stamp
    ensures { stamp_of result ≡ last_stamp_of (events_in events.now) node }
{
    let mut last = Stamp::zero();
    for event in events {
        last = later_stamp(last, event, node);
    }
    last
}

// The lowest of the last stamps of so many nodes, as a code: the newest with a final page of an open recorder.
pub fn lowest_last<K: Copy>(events: &[Event<K>], nodes: u8) -> u64
    ensures { result ≡ lowest_last_of (events_in events.now) nodes }
{
    let mut lowest = u64::MAX;
    for node in 0..nodes {
        lowest = lowest.min(last_stamp(events, node).code());
    }
    lowest
}
