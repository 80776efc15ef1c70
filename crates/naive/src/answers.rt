// What is answered to a record.

use crate::events::Newest;
use crate::stamp_rules::Stamp;
use crate::tally::Count;

#[derive(Clone, Copy)]
pub enum Answer {
    SetUp,
    // Of a note, a send, a receipt or a put.
    Event {
        word: Count,
        node: u8,
        stamp: Stamp,
        drift: u64,
    },
    Loss(u32),
    Read(Newest),
    None,
    Refused(u8),
}
