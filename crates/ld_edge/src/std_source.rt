ghost use Rattle.std.specs.Prelude.{◌≡◌, ◌<◌, ◌≤◌, None, false, true, if◌then◌else◌, ◌==◌, length, IfOk, OnOk, OnErr};

use crate::counted;
use crate::faults::FaultCount;
use crate::outside::{Failed, Source};
use std::io::Read;

/// A source over a file, a pipe or a stream. It tells nothing of its bytes.
///
/// A call that a signal interrupts is tried anew, 64 times in all. An error of `R`, and the last
/// interruption, answers `Failed`.
#[derive(Debug, Drop)]
pub struct StdSource<R: Read + Drop> {
    reader: R,
    is_ended: bool,
    faults: FaultCount,
}

impl<R: Read + Drop> StdSource<R> {
    ghost use Rattle.ld_edge.specs.StdSource.{reader_of};

    pub fn new(reader: R) -> StdSource<R>
        ensures reader { reader_of result ≡ reader }
        ensures ended { (⟦<StdSource<R> as Source>⟧.incoming result).is_ended ≡ false }
        ensures faults { (⟦<StdSource<R> as Source>⟧.incoming result).faults ≡ 0 }
    {
        StdSource {
            reader,
            is_ended: false,
            faults: FaultCount::new(),
        }
    }

    pub fn into_inner(self) -> R
        ensures { result ≡ reader_of self }
    {
        let StdSource {
            reader,
            is_ended: _,
            faults: _,
        } = self;
        reader
    }
}

impl<R: Read + Drop> Source for StdSource<R> {
    ghost use Rattle.std.specs.Io.KnownBytes.{ReadConsumes};
    ghost use Rattle.ld_edge.specs.Faults.{next_count, NeverFalls, Rose};
    ghost use Rattle.ld_edge.specs.StdSource.{reader_of};

    // Its end is met where a read gave no byte.
    ghost incoming = { λ s. record { given = None; left = None; is_ended = s.is_ended; faults = s.faults.number } };

    ghost beside = { λ _. None };

    ghost at_most_last = { λ s. s.faults.in_range };

    fn read(&mut self, into: &mut [u8]) -> Result<usize, Failed>
        requires { 0 < length into.old }

        // Where the reader's own bytes are known to a proof, what it gave is handed on.
        ensures within { IfOk result (λ n. n ≤ length into.new) }
        ensures ended { IfOk result (λ n. self.new.is_ended ≡ (if n == 0 then true else self.old.is_ended)) }
        ensures keeps_ended { OnErr result (self.new.is_ended ≡ self.old.is_ended) }
        ensures reader { ReadConsumes (R.remaining (reader_of self.old)) (R.remaining (reader_of self.new)) result into.new }

        ensures keeps_count { OnOk result (self.new.faults.number ≡ self.old.faults.number) }
        ensures counted { OnErr result (self.new.faults.number ≡ next_count self.old.faults.number) }
        ensures rose { OnErr result (Rose self.old.faults.number self.new.faults.number) }
        ensures never_falls { NeverFalls self.old.faults.number self.new.faults.number }
    {
        counted::read(&mut self.reader, into, &mut self.is_ended, &mut self.faults)
    }

    fn faults(&self) -> u64 {
        self.faults.number()
    }
}
