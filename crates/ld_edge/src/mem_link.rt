ghost use Rattle.std.specs.Prelude.{◌≡◌, ◌==◌, Some, length, refl};

use crate::mem_sink::MemSink;
use crate::mem_source::MemSource;
use crate::outside::{Failed, Link, Sink, Source};
use std::marker::Model;

/// A link that gives the bytes of a list, and holds what it takes.
#[derive(Debug, Drop)]
pub struct MemLink {
    source: MemSource,
    sink: MemSink,
}

impl Model for MemLink {
    ghost use Rattle.ld_edge.specs.Memory.{Ends};

    ghost Value = { Ends };

    ghost view = { λ l. record { source = l.source; sink = l.sink } };
}

impl MemLink {
    /// Takes no memory.
    pub fn new(source: MemSource, sink: MemSink) -> MemLink
        ensures source { result.source ≡ source }
        ensures sink { result.sink ≡ sink }
    {
        MemLink { source, sink }
    }

    /// The two sides, as the calls so far left them.
    pub fn into_parts(self) -> (MemSource, MemSink)
        ensures source { result.0 ≡ self.source }
        ensures sink { result.1 ≡ self.sink }
    {
        let MemLink { source, sink } = self;
        (source, sink)
    }
}

impl Source for MemLink {
    ghost incoming = { λ l. ⟦<MemSource as Source>⟧.incoming l.source };

    ghost beside = { λ l. Some (⟦<MemSink as Sink>⟧.outgoing l.sink) };

    ghost at_most_last = { λ l. l.source.plan.faults.in_range };

    fn read(&mut self, into: &mut [u8]) -> Result<usize, Failed> {
        self.source.read(into)
    }

    fn faults(&self) -> u64 {
        self.source.faults()
    }
}

impl Sink for MemLink {
    ghost outgoing = { λ l. ⟦<MemSink as Sink>⟧.outgoing l.sink };

    ghost beside = { λ l. Some (⟦<MemSource as Source>⟧.incoming l.source) };

    ghost at_most_last = { λ l. l.sink.plan.faults.in_range };

    fn write(&mut self, bytes: &[u8]) -> Result<usize, Failed> {
        self.sink.write(bytes)
    }

    fn faults(&self) -> u64 {
        self.sink.faults()
    }
}

impl Link for MemLink {
    ghost reading_keeps = { λ _. refl };

    ghost writing_keeps = { λ _. refl };

    fn link_faults(&self) -> u64 {
        (self.source.faults() + self.sink.faults()).min(u64::MAX / 2)
    }
}
