// The stamp of each node's last event.
ghost use Rattle.std.specs.Prelude.{◌≡◌, ◌<◌, ◌≤◌, length, map, nat_lt};
ghost use Rattle.stamper.specs.Stamps.{no_stamps, none_below, stamp_at, with_last};
ghost use Rattle.stamps.specs.Stamp.{stamp_of};

use clocks::bank::NODES;
use stamps::stamp::Stamp;
use std::marker::Model;

// The nodes are 0, 1, and so on: so many. A node that has no event yet has 0.0.
#[derive(Drop)]
pub(crate) struct LastStamps {
    stamps: [Stamp; NODES],
    nodes: usize,
}

impl Model for LastStamps {
    ghost use Rattle.std.specs.Prelude.{◌≡◌, ◌≤◌, List, length, map, take};
    ghost use Rattle.stamps.specs.Stamp.{Timestamp, stamp_of};

    ghost Value = { List Timestamp };

    ghost view = { λ last. map stamp_of (take last.nodes last.stamps) };

    ghost invariant = { λ last. (last.nodes ≤ 16) × (length last.stamps ≡ 16) };
}

impl LastStamps {
    // Of so many nodes.
    pub(crate) fn new(nodes: u8) -> LastStamps
        requires { nodes ≤ 16 }
        ensures { result ≡ no_stamps nodes }
    {
        LastStamps {
            stamps: [Stamp::zero(); NODES],
            nodes: usize::from(nodes),
        }
    }

    fn held(&self) -> &[Stamp]
        ensures { map stamp_of result.now ≡ self.now }
    {
        &self.stamps[..self.nodes]
    }

    pub(crate) fn has(&self, node: u8) -> bool
        ensures { result ≡ nat_lt node (length self.now) }
    {
        usize::from(node) < self.nodes
    }

    // 0.0 for a node that has no event yet, or is none of these.
    pub(crate) fn of(&self, node: u8) -> Stamp
        ensures { stamp_of result ≡ stamp_at self.now node }
    {
        self.held()
            .get(usize::from(node))
            .copied()
            .unwrap_or(Stamp::zero())
    }

    // The node's last stamp becomes this one.
    pub(crate) fn set(&mut self, node: u8, stamp: Stamp)
        requires { node < length self.old }
        ensures { self.new ≡ with_last node (stamp_of stamp) self.old }
    {
        self.stamps[usize::from(node)] = stamp;
    }

    // Whether none of the stamps is below the code.
    pub(crate) fn none_below(&self, code: u64) -> bool
        ensures { result ≡ none_below self.now code }
    {
        self.held().iter().all(|stamp| stamp.code() >= code)
    }
}
