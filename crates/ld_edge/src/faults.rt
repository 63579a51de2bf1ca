ghost use Rattle.std.specs.Prelude.{◌≡◌, ◌≤◌};
ghost use Rattle.ld_edge.specs.Faults.{last_count};

use std::marker::Model;

/// How many calls of an object failed. It stops at its last value, 2^63 - 1.
#[derive(Debug, Drop)]
pub struct FaultCount {
    number: u64,
    ghost in_range: { number ≤ last_count },
}

impl Model for FaultCount {
    ghost use Rattle.ld_edge.specs.Faults.{Count};

    ghost Value = { Count };

    ghost view = { λ c. record { number = c.number; in_range = c.in_range } };
}

impl FaultCount {
    ghost use Rattle.ld_edge.specs.Faults.{next_count, Rose};

    const LAST: u64 = u64::MAX / 2;

    pub fn new() -> FaultCount
        ensures { result.number ≡ 0 }
    {
        FaultCount { number: 0 }
    }

    pub fn number(&self) -> u64
        ensures { result ≡ self.now.number }
    {
        self.number
    }

    /// Counts one failure.
    pub fn rise(&mut self)
        ensures next { self.new.number ≡ next_count self.old.number }
        ensures rose { Rose self.old.number self.new.number }
    {
        if self.number < Self::LAST {
            self.number += 1;
        }
    }
}
