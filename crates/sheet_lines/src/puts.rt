// How many puts there are.
ghost use Rattle.std.specs.Prelude.{◌≡◌, ◌≤◌, ◌∷◌, [], length, map};
ghost use Rattle.history.specs.Events.{puts as puts_of};
ghost use Rattle.trace.specs.Contents.{content_of};
ghost use Rattle.trace_history.specs.Shown.{event_numbers, events_in};
ghost use Rattle.trace_history.specs.Puts.{put_records};
ghost use Rattle.sheet_lines.specs.Puts.{put_counts};

use trace::records::Record;
use trace_history::events::{Event, What};

// How many puts of a trace were accepted, and how many refused.
#[derive(Clone, Copy, Debug)]
pub struct Puts {
    pub accepted: usize,
    pub refused: usize,
}

// 1 for a put, 0 for any other event.
fn put_by<K: Copy>(event: &Event<K>) -> usize
    ensures puts { result ≡ length (puts_of ((event_numbers event.now).event ∷ [])) }
    ensures few { result ≤ 1 }
{
    match event.what {
        What::Put { .. } => 1,
        What::Note | What::Send { .. } | What::Receipt { .. } => 0,
    }
}

// How many of the events are puts.
fn accepted_among<K: Copy>(events: &[Event<K>]) -> usize
    ensures { result ≡ length (puts_of (events_in events.now)) }
{
    let mut count = 0;
    for event in events {
        count += put_by(event);
    }
    count
}

// How many of the records are puts.
fn put_among(records: &[Record]) -> usize
    ensures { result ≡ put_records (map content_of records.now) }
{
    let mut count = 0;
    for record in records {
        if let Record::Put { .. } = record {
            count += 1;
        }
    }
    count
}

// How many puts there are among the records, and among their events.
pub fn puts_among<K: Copy>(records: &[Record], events: &[Event<K>]) -> Puts
    ensures { result ≡ put_counts (map content_of records.now) (events_in events.now) }
{
    let accepted = accepted_among(events);
    let all = put_among(records);
    Puts {
        accepted,
        refused: all.saturating_sub(accepted),
    }
}
