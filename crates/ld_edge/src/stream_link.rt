ghost use Rattle.std.specs.Prelude.{◌≡◌, ◌<◌, Some, None, false, length, refl};

use crate::counted;
use crate::faults::FaultCount;
use crate::outside::{Failed, Link, Sink, Source};
use std::io::{Read, Write};

/// A link over a stream that bytes come from and go to, as a TCP stream. It tells nothing of its bytes, and never
/// flushes: give it a `T` that holds nothing back.
///
/// A call that a signal interrupts is tried anew, 64 times in all. An error of `T`, the last interruption, and a write
/// that takes no byte, answers `Failed`.
#[derive(Debug, Drop)]
pub struct StreamLink<T: Read + Write + Drop> {
    stream: T,
    is_ended: bool,
    read_faults: FaultCount,
    write_faults: FaultCount,
}

impl<T: Read + Write + Drop> StreamLink<T> {
    /// Nothing was read or written by this link yet.
    pub fn new(stream: T) -> StreamLink<T>
        ensures ended { (⟦<StreamLink<T> as Source>⟧.incoming result).is_ended ≡ false }
        ensures read_faults { (⟦<StreamLink<T> as Source>⟧.incoming result).faults ≡ 0 }
        ensures write_faults { (⟦<StreamLink<T> as Sink>⟧.outgoing result).faults ≡ 0 }
    {
        StreamLink {
            stream,
            is_ended: false,
            read_faults: FaultCount::new(),
            write_faults: FaultCount::new(),
        }
    }
}

impl<T: Read + Write + Drop> Source for StreamLink<T> {
    // Its end is met where a read gave no byte.
    ghost incoming = { λ l. record { given = None; left = None; is_ended = l.is_ended; faults = l.read_faults.number } };

    ghost beside = { λ l. Some (record { held = None; faults = l.write_faults.number }) };

    ghost at_most_last = { λ l. l.read_faults.in_range };

    fn read(&mut self, into: &mut [u8]) -> Result<usize, Failed> {
        counted::read(
            &mut self.stream,
            into,
            &mut self.is_ended,
            &mut self.read_faults,
        )
    }

    fn faults(&self) -> u64 {
        self.read_faults.number()
    }
}

impl<T: Read + Write + Drop> Sink for StreamLink<T> {
    ghost outgoing = { λ l. record { held = None; faults = l.write_faults.number } };

    ghost beside = { λ l. Some (record { given = None; left = None; is_ended = l.is_ended; faults = l.read_faults.number }) };

    ghost at_most_last = { λ l. l.write_faults.in_range };

    fn write(&mut self, bytes: &[u8]) -> Result<usize, Failed> {
        counted::write(&mut self.stream, bytes, &mut self.write_faults)
    }

    fn faults(&self) -> u64 {
        self.write_faults.number()
    }
}

impl<T: Read + Write + Drop> Link for StreamLink<T> {
    ghost reading_keeps = { λ _. refl };

    ghost writing_keeps = { λ _. refl };

    fn link_faults(&self) -> u64 {
        (self.read_faults.number() + self.write_faults.number()).min(u64::MAX / 2)
    }
}
