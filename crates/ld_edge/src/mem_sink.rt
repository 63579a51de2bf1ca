ghost use Rattle.std.specs.Prelude.{◌≡◌, ◌≤◌, ◌<◌, [], ◌++◌, Some, None, length, min, take, IfOk, OnOk, OnErr, IsErr, IsPermutation};

use crate::outside::{Failed, Sink};
use crate::plan::FaultPlan;
use std::alloc::Global;
use std::marker::Model;

/// A sink that holds what it takes.
#[derive(Debug, Drop)]
pub struct MemSink {
    held: Vec<u8>,
    piece: usize,
    plan: FaultPlan,
}

impl Model for MemSink {
    ghost use Rattle.std.specs.Prelude.{◌≤◌};
    ghost use Rattle.ld_edge.specs.Memory.{Writing};

    ghost Value = { Writing };

    ghost view = { λ s. record { held = s.held.items; piece = s.piece; plan = s.plan } };

    ghost invariant = { λ s. 1 ≤ s.piece };
}

impl MemSink {
    /// A call takes at most `piece` bytes, and fails where `fail_at` has its number, counted from 1,
    /// and where it finds no memory. `new` itself takes none.
    pub fn new(alloc: Global, piece: usize, fail_at: Vec<u64>) -> MemSink
        requires { 1 ≤ piece }
        ensures held { result.held ≡ [] }
        ensures piece { result.piece ≡ piece }
        ensures calls { result.plan.calls ≡ 0 }
        ensures fail_at { IsPermutation fail_at.items result.plan.fail_at }
        ensures faults { result.plan.faults.number ≡ 0 }
    {
        MemSink {
            held: Vec::new(alloc),
            piece,
            plan: FaultPlan::new(fail_at),
        }
    }

    pub fn bytes(&self) -> &[u8]
        ensures { result.now ≡ self.now.held }
    {
        self.held.as_slice()
    }
}

impl Sink for MemSink {
    ghost use Rattle.ld_edge.specs.Faults.{next_count, NeverFalls, Rose};
    ghost use Rattle.ld_edge.specs.Memory.{next_call, NextFails};

    ghost outgoing = { λ s. record { held = Some s.held; faults = s.plan.faults.number } };

    ghost beside = { λ _. None };

    ghost at_most_last = { λ s. s.plan.faults.in_range };

    fn write(&mut self, bytes: &[u8]) -> Result<usize, Failed>
        requires { 0 < length bytes.now }

        // Want of memory fails a call too.
        ensures failed { NextFails self.old.plan → IsErr result }
        ensures count { IfOk result (λ n. n ≡ min self.old.piece (length bytes.now)) }
        ensures some { IfOk result (λ n. 1 ≤ n) }
        ensures taken { IfOk result (λ n. self.new.held ≡ self.old.held ++ take n bytes.now) }
        ensures keeps_held { OnErr result (self.new.held ≡ self.old.held) }

        ensures calls { self.new.plan.calls ≡ next_call self.old.plan.calls }
        ensures piece { self.new.piece ≡ self.old.piece }
        ensures fail_at { self.new.plan.fail_at ≡ self.old.plan.fail_at }
        ensures keeps_count { OnOk result (self.new.plan.faults.number ≡ self.old.plan.faults.number) }
        ensures counted { OnErr result (self.new.plan.faults.number ≡ next_count self.old.plan.faults.number) }
        ensures rose { OnErr result (Rose self.old.plan.faults.number self.new.plan.faults.number) }
        ensures never_falls { NeverFalls self.old.plan.faults.number self.new.plan.faults.number }
    {
        if self.plan.next_fails() {
            return Err(Failed);
        }
        let count = self.piece.min(bytes.len());
        if self.held.extend_from_slice(&bytes[..count]).is_err() {
            self.plan.count_fault();
            return Err(Failed);
        }
        Ok(count)
    }

    fn faults(&self) -> u64 {
        self.plan.faults()
    }
}
