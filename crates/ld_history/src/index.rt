//! What a step looks up of the open sessions, so that it need not go over them.
ghost use Rattle.std.specs.Prelude.{◌≡◌, ◌+◌, ◌-◌, ◌^◌, ◌<◌, ◌≤◌, if◌then◌else◌, []};

use crate::name::Name;
use std::alloc::Global;
use std::collections::{BTreeMap, BTreeSet};

/// Tables that follow from the open sessions.
#[derive(Debug, Drop)]
pub(crate) struct Index {
    /// How many requests are under way.
    pub busy: u32,
    /// The session in each seat that is taken.
    pub seats: BTreeMap<u32, u32>,
    /// The sessions that hold each IRI that is held.
    pub holders: BTreeMap<Name, BTreeSet<u32>>,
}

impl Index {
    pub fn new(alloc: Global) -> Index
        ensures busy { result.busy ≡ 0 }
        ensures seats { result.seats.entries ≡ [] }
        ensures holders { result.holders.entries ≡ [] }
    {
        Index {
            busy: 0,
            seats: BTreeMap::new(alloc),
            holders: BTreeMap::new(alloc),
        }
    }

    /// A request is under way now: one more, where the session was idle.
    pub fn begin(&mut self, was_idle: bool)
        requires { self.old.busy + (if was_idle then 1 else 0) < 2 ^ 32 }
        ensures { self.new ≡ record self.old { busy = self.old.busy + (if was_idle then 1 else 0) } }
    {
        if was_idle {
            self.busy += 1;
        }
    }

    /// No request of the session is under way now: one less, where one was.
    pub fn end(&mut self, was_busy: bool)
        requires { (if was_busy then 1 else 0) ≤ self.old.busy }
        ensures { self.new ≡ record self.old { busy = self.old.busy - (if was_busy then 1 else 0) } }
    {
        if was_busy {
            self.busy -= 1;
        }
    }
}
