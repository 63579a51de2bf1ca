ghost use Rattle.std.specs.Prelude.{◌≡◌, ◌↔◌, IsTrue, Contains, IsPermutation};
ghost use Rattle.std.specs.List.Sorted.{IsNonDecreasing};

use crate::faults::FaultCount;
use std::marker::Model;

/// Which calls of an object over memory fail, for tests. The calls are counted from 1.
#[derive(Debug, Drop)]
pub struct FaultPlan {
    fail_at: Vec<u64>,
    calls: u64,
    faults: FaultCount,
}

impl Model for FaultPlan {
    ghost use Rattle.std.specs.List.Sorted.{IsNonDecreasing};
    ghost use Rattle.ld_edge.specs.Memory.{Plan};

    ghost Value = { Plan };

    ghost view = { λ p. record { calls = p.calls; fail_at = p.fail_at.items; faults = p.faults } };

    ghost invariant = { λ p. IsNonDecreasing p.fail_at.items };
}

fn is_listed(sorted: &[u64], call: u64) -> bool
    requires { IsNonDecreasing sorted.now }
    ensures { IsTrue result ↔ Contains sorted.now call }
{
    sorted.binary_search(&call).is_ok()
}

impl FaultPlan {
    ghost use Rattle.std.specs.Prelude.{if◌then◌else◌};
    ghost use Rattle.ld_edge.specs.Faults.{next_count};
    ghost use Rattle.ld_edge.specs.Memory.{next_call, NextFails};

    /// The calls whose numbers are in `fail_at` fail. Takes no memory.
    pub fn new(mut fail_at: Vec<u64>) -> FaultPlan
        ensures fail_at { IsPermutation fail_at.items result.fail_at }
        ensures calls { result.calls ≡ 0 }
        ensures faults { result.faults.number ≡ 0 }
    {
        fail_at.sort_unstable();
        FaultPlan {
            fail_at,
            calls: 0,
            faults: FaultCount::new(),
        }
    }

    /// Counts a call, and the failure where the call is one of those that fail.
    pub fn next_fails(&mut self) -> bool
        ensures listed { IsTrue result ↔ NextFails self.old }
        ensures calls { self.new.calls ≡ next_call self.old.calls }
        ensures fail_at { self.new.fail_at ≡ self.old.fail_at }
        ensures faults { self.new.faults.number ≡ (if result then next_count self.old.faults.number else self.old.faults.number) }
    {
        self.calls = self.calls.saturating_add(1);
        let fails = is_listed(self.fail_at.as_slice(), self.calls);
        if fails {
            self.faults.rise();
        }
        fails
    }

    /// Counts a failure that was not planned.
    pub fn count_fault(&mut self)
        ensures faults { self.new.faults.number ≡ next_count self.old.faults.number }
        ensures calls { self.new.calls ≡ self.old.calls }
        ensures fail_at { self.new.fail_at ≡ self.old.fail_at }
    {
        self.faults.rise();
    }

    /// How many calls failed.
    pub fn faults(&self) -> u64
        ensures { result ≡ self.now.faults.number }
    {
        self.faults.number()
    }
}
