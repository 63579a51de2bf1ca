//! Loads that wait until a link of another door came back.
ghost use Rattle.std.specs.Prelude.{◌≡◌};

use ld_book::Bell;
use ld_edge::{Door, Failed, MemDoor, MemLink};
use ld_flight::{Loaded, Loader, MemLoader, Pass, Refused};
use std::alloc::Global;
use std::sync::Wait;

/// A loader that begins no load before the gate's bell rang, if it has a gate.
#[derive(Drop)]
pub(crate) struct Gated<'a, R: Wait> {
    pub rt: &'a R,
    pub gate: Option<&'a Bell>,
    pub loader: MemLoader,
}

impl<'a, R: Wait> Loader for Gated<'a, R> {
    ghost loading = { λ g. ⟦<MemLoader as Loader>⟧.loading g.loader };

    ghost at_most_last = { λ g. g.loader.plan.faults.in_range };

    fn load(&mut self, alloc: Global, pass: Pass) -> Result<Loaded, Refused> {
        if let Some(gate) = self.gate {
            gate.wait(self.rt, 0);
        }
        self.loader.load(alloc, pass)
    }

    fn faults(&self) -> u64 {
        self.loader.faults()
    }
}

/// A door that keeps what went out over the links that came back, one after another, and rings the gate's bell at each, if it
/// has a gate.
#[derive(Drop)]
pub(crate) struct Watched<'a, R: Wait> {
    pub rt: &'a R,
    pub gate: Option<&'a Bell>,
    pub door: MemDoor,
    pub written: Vec<u8>,
}

impl<'a, R: Wait> Door for Watched<'a, R> {
    type L = MemLink;

    ghost doorway = { λ d. ⟦<MemDoor as Door>⟧.doorway d.door };

    ghost sides = { λ l. ⟦<MemDoor as Door>⟧.sides l };

    ghost at_most_given = { λ d. d.door.at_most_given };

    ghost at_most_last = { λ d. d.door.plan.faults.in_range };

    fn next(&mut self) -> Result<Option<MemLink>, Failed> {
        self.door.next()
    }

    fn back(&mut self, link: MemLink) {
        let (source, sink) = link.into_parts();
        // Where there is no memory for it, the test finds too little.
        let _kept = self.written.extend_from_slice(sink.bytes());
        self.door.back(MemLink::new(source, sink));
        if let Some(gate) = self.gate {
            gate.ring(self.rt);
        }
    }

    fn faults(&self) -> u64 {
        self.door.faults()
    }
}
