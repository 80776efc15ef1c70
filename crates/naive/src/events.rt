// Everything that was accepted, in the order in which it came. Every question is answered by going through it.

use crate::stamp_rules::{Stamp, ZERO};
use naive_format::records::{Key, Sample};
use std::alloc::{AllocError, Global};

const HIGHEST_READING: u64 = 281_474_976_710_655;

#[derive(Clone, Copy)]
pub enum Deed {
    Note,
    Send { to: u8, message: u32 },
    Receipt { message: u32 },
    Put { key: Key, value: i32 },
}

#[derive(Clone, Copy)]
pub struct Event {
    pub node: u8,
    pub reading: u64,
    pub stamp: Stamp,
    pub deed: Deed,
}

#[derive(Clone, Copy)]
pub enum Entry {
    Event(Event),
    Loss(u32),
}

// A message under way: for whom it is, and the stamp of its send.
#[derive(Clone, Copy)]
pub struct Message {
    pub to: u8,
    pub sent: Stamp,
}

// A put, as a read has it.
#[derive(Clone, Copy)]
pub struct Version {
    pub value: i32,
    pub stamp: Stamp,
    pub node: u8,
}

// The newest version at a stamp code, and how many other nodes put the key at the very same stamp.
#[derive(Clone, Copy)]
pub struct Newest {
    pub version: Version,
    pub ties: usize,
}

#[derive(Drop)]
pub struct History {
    entries: Vec<Entry>,
}

impl Entry {
    // The event, if it is one of the node.
    fn event_of(&self, node: u8) -> Option<&Event> {
        match self {
            Entry::Event(event) if event.node == node => Some(event),
            _ => None,
        }
    }

    // The version of the key that this entry put at or below the code.
    fn version_of(&self, key: Key, code: u64) -> Option<Version> {
        let Entry::Event(event) = self else {
            return None;
        };
        match event.deed {
            Deed::Put { key: other, value } if other == key && event.stamp.code() <= code => {
                Some(Version {
                    value,
                    stamp: event.stamp,
                    node: event.node,
                })
            }
            _ => None,
        }
    }
}

impl History {
    pub fn new(heap: Global) -> History {
        History {
            entries: Vec::new(heap),
        }
    }

    pub fn add(&mut self, entry: Entry) -> Result<(), AllocError> {
        self.entries.push(entry)?;
        Ok(())
    }

    pub fn last_stamp(&self, node: u8) -> Stamp {
        let mut last = ZERO;
        for entry in &self.entries {
            if let Some(event) = entry.event_of(node) {
                last = event.stamp;
            }
        }
        last
    }

    pub fn high(&self, node: u8) -> u64 {
        let mut high = 0;
        for entry in &self.entries {
            if let Some(event) = entry.event_of(node) {
                high = event.reading.max(high);
            }
        }
        high
    }

    // The reading of a sample's clock, refused with 8 or 9.
    pub fn reading(&self, sample: Sample, backstep: u64) -> Result<u64, u8> {
        if sample.raw == 0 || sample.raw > HIGHEST_READING {
            Err(8)
        } else if sample.raw.saturating_add(backstep) < self.high(sample.node) {
            Err(9)
        } else {
            Ok(sample.raw)
        }
    }

    // The message of that number, if it was sent and not used up since.
    pub fn under_way(&self, number: u32) -> Option<Message> {
        let mut found = None;
        for entry in &self.entries {
            match entry {
                Entry::Event(event) => match event.deed {
                    Deed::Send { to, message } if message == number => {
                        found = Some(Message {
                            to,
                            sent: event.stamp,
                        });
                    }
                    Deed::Receipt { message } if message == number => found = None,
                    _ => {}
                },
                Entry::Loss(message) if *message == number => found = None,
                Entry::Loss(_) => {}
            }
        }
        found
    }

    // How many messages are under way: each receipt and each loss used up one that was sent.
    pub fn count_under_way(&self) -> usize {
        let mut count = 0usize;
        for entry in &self.entries {
            match entry {
                Entry::Event(event) => match event.deed {
                    Deed::Send { .. } => count = count.saturating_add(1),
                    Deed::Receipt { .. } => count = count.saturating_sub(1),
                    _ => {}
                },
                Entry::Loss(_) => count = count.saturating_sub(1),
            }
        }
        count
    }

    pub fn count_puts(&self) -> usize {
        let mut count = 0usize;
        for entry in &self.entries {
            if matches!(entry, Entry::Event(event) if matches!(event.deed, Deed::Put { .. })) {
                count = count.saturating_add(1);
            }
        }
        count
    }

    // Whether no node's last stamp is below the code.
    pub fn is_settled(&self, code: u64, nodes: u8) -> bool {
        for node in 0..nodes {
            if self.last_stamp(node).code() < code {
                return false;
            }
        }
        true
    }

    pub fn newest(&self, key: Key, code: u64) -> Option<Newest> {
        let mut newest = None;
        for entry in &self.entries {
            if let Some(version) = entry.version_of(key, code) {
                newest = Some(newer(newest, version));
            }
        }
        newest
    }
}

// The newest so far or one more version, whichever is newer.
fn newer(newest: Option<Newest>, version: Version) -> Newest {
    let Some(so_far) = newest else {
        return Newest { version, ties: 0 };
    };
    let (code, code_so_far) = (version.stamp.code(), so_far.version.stamp.code());
    let ties = so_far.ties.saturating_add(1);
    if code > code_so_far {
        Newest { version, ties: 0 }
    } else if code < code_so_far {
        so_far
    } else if version.node > so_far.version.node {
        Newest { version, ties }
    } else {
        Newest { ties, ..so_far }
    }
}
