ghost use Rattle.std.specs.Prelude.{◌≡◌, ◌<◌, ◌≤◌, None, length, IfOk, OnOk, OnErr};

use crate::counted;
use crate::faults::FaultCount;
use crate::outside::{Failed, Sink};
use std::io::Write;

/// A sink over a file, a pipe or a stream. It tells nothing of its bytes, and never flushes: give
/// it a `W` that holds nothing back, as the runtime's own writer.
///
/// A call that a signal interrupts is tried anew, 64 times in all. An error of `W`, the last
/// interruption, and a call that takes no byte, answers `Failed`.
#[derive(Debug, Drop)]
pub struct StdSink<W: Write + Drop> {
    writer: W,
    faults: FaultCount,
}

impl<W: Write + Drop> StdSink<W> {
    ghost use Rattle.ld_edge.specs.StdSink.{writer_of};

    pub fn new(writer: W) -> StdSink<W>
        ensures writer { writer_of result ≡ writer }
        ensures faults { (⟦<StdSink<W> as Sink>⟧.outgoing result).faults ≡ 0 }
    {
        StdSink {
            writer,
            faults: FaultCount::new(),
        }
    }

    pub fn into_inner(self) -> W
        ensures { result ≡ writer_of self }
    {
        let StdSink { writer, faults: _ } = self;
        writer
    }
}

impl<W: Write + Drop> Sink for StdSink<W> {
    ghost use Rattle.std.specs.Io.KnownBytes.{WriteAppends};
    ghost use Rattle.ld_edge.specs.Faults.{next_count, NeverFalls, Rose};
    ghost use Rattle.ld_edge.specs.StdSink.{writer_of};

    ghost outgoing = { λ s. record { held = None; faults = s.faults.number } };

    ghost beside = { λ _. None };

    ghost at_most_last = { λ s. s.faults.in_range };

    fn write(&mut self, bytes: &[u8]) -> Result<usize, Failed>
        requires { 0 < length bytes.now }

        // Where the writer's own bytes are known to a proof, it took what the answer says.
        ensures some { IfOk result (λ n. 1 ≤ n) }
        ensures within { IfOk result (λ n. n ≤ length bytes.now) }
        ensures writer { WriteAppends (W.contents (writer_of self.old)) (W.contents (writer_of self.new)) result bytes.now }

        ensures keeps_count { OnOk result (self.new.faults.number ≡ self.old.faults.number) }
        ensures counted { OnErr result (self.new.faults.number ≡ next_count self.old.faults.number) }
        ensures rose { OnErr result (Rose self.old.faults.number self.new.faults.number) }
        ensures never_falls { NeverFalls self.old.faults.number self.new.faults.number }
    {
        counted::write(&mut self.writer, bytes, &mut self.faults)
    }

    fn faults(&self) -> u64 {
        self.faults.number()
    }
}
