// Where a version comes from.
ghost use Rattle.std.specs.Prelude.{◌≡◌, map};
ghost use Rattle.std.specs.List.{find};
ghost use Rattle.std.specs.Option.{option_copied, option_map};
ghost use Rattle.trace_history.specs.Shown.{event_numbers};
ghost use Rattle.trace_history.specs.Source.{is_source as is_source_of};

use crate::events::Event;
use store::version::Version;

// Whether an event has a version's node and stamp.
fn is_source<K: Copy>(event: &Event<K>, version: &Version<K>) -> bool
    ensures { result ≡ is_source_of version.now (event_numbers event.now) }
{
    event.node == version.node && event.stamp.code() == version.stamp
}

// The event that put a version: the first with its node and stamp.
pub fn source_of<'a, K: Copy>(events: &'a [Event<K>], version: &Version<K>) -> Option<&'a Event<K>>
    ensures { option_map event_numbers (option_copied result)
        ≡ find (is_source_of version.now) (map event_numbers events.now) }
{
    events.iter().find(|event| is_source(event, version))
}
