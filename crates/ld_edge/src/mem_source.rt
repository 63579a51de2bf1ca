ghost use Rattle.std.specs.Prelude.{◌≡◌, ◌≤◌, ◌<◌, ◌↔◌, ◌==◌, [], ◌++◌, Some, None, IsTrue, length, min, take, drop, IfOk, OnOk, OnErr, IsErr, IsPermutation};

use crate::outside::{Failed, Source};
use crate::plan::FaultPlan;
use ld_tree::Raw;
use std::marker::Model;

/// A source that gives the bytes of a list.
#[derive(Debug, Drop)]
pub struct MemSource {
    bytes: Raw,
    at: usize,
    piece: usize,
    plan: FaultPlan,
}

impl Model for MemSource {
    ghost use Rattle.std.specs.Prelude.{◌≤◌, length, take, drop};
    ghost use Rattle.ld_edge.specs.Memory.{Reading};

    ghost Value = { Reading };

    ghost view = { λ s. record { given = take s.at s.bytes; left = drop s.at s.bytes; piece = s.piece; plan = s.plan } };

    ghost invariant = { λ s. (s.at ≤ length s.bytes) × (1 ≤ s.piece) };
}

impl MemSource {
    /// A call gives at most `piece` bytes, and fails where `fail_at` has its number, counted from 1.
    /// Takes no memory.
    pub fn new(bytes: Raw, piece: usize, fail_at: Vec<u64>) -> MemSource
        requires { 1 ≤ piece }
        ensures given { result.given ≡ [] }
        ensures left { result.left ≡ bytes }
        ensures piece { result.piece ≡ piece }
        ensures calls { result.plan.calls ≡ 0 }
        ensures fail_at { IsPermutation fail_at.items result.plan.fail_at }
        ensures faults { result.plan.faults.number ≡ 0 }
    {
        MemSource {
            bytes,
            at: 0,
            piece,
            plan: FaultPlan::new(fail_at),
        }
    }
}

impl Source for MemSource {
    ghost use Rattle.ld_edge.specs.Faults.{next_count, NeverFalls, Rose};
    ghost use Rattle.ld_edge.specs.Memory.{next_call, NextFails};

    // Its end is met where nothing is left.
    ghost incoming = { λ s. record { given = Some s.given; left = Some s.left; is_ended = (length s.left == 0); faults = s.plan.faults.number } };

    ghost beside = { λ _. None };

    ghost at_most_last = { λ s. s.plan.faults.in_range };

    fn read(&mut self, into: &mut [u8]) -> Result<usize, Failed>
        requires { 0 < length into.old }

        ensures failed { IsErr result ↔ NextFails self.old.plan }
        ensures count { IfOk result (λ n. n ≡ min self.old.piece (min (length self.old.left) (length into.old))) }
        ensures end { IfOk result (λ n. (n ≡ 0) ↔ (self.old.left ≡ [])) }
        ensures into { IfOk result (λ n. into.new ≡ take n self.old.left ++ drop n into.old) }
        ensures given { IfOk result (λ n. self.new.given ≡ self.old.given ++ take n self.old.left) }
        ensures left { IfOk result (λ n. self.new.left ≡ drop n self.old.left) }
        ensures keeps_given { OnErr result (self.new.given ≡ self.old.given) }
        ensures keeps_left { OnErr result (self.new.left ≡ self.old.left) }
        ensures keeps_into { OnErr result (into.new ≡ into.old) }

        ensures calls { self.new.plan.calls ≡ next_call self.old.plan.calls }
        ensures piece { self.new.piece ≡ self.old.piece }
        ensures fail_at { self.new.plan.fail_at ≡ self.old.plan.fail_at }
        ensures keeps_count { OnOk result (self.new.plan.faults.number ≡ self.old.plan.faults.number) }
        ensures counted { OnErr result (self.new.plan.faults.number ≡ next_count self.old.plan.faults.number) }
        ensures rose { OnErr result (Rose self.old.plan.faults.number self.new.plan.faults.number) }
        ensures never_falls { NeverFalls self.old.plan.faults.number self.new.plan.faults.number }
    {
        if self.plan.next_fails() {
            return Err(Failed);
        }
        let rest = &self.bytes.as_slice()[self.at..];
        let count = self.piece.min(rest.len()).min(into.len());
        into[..count].copy_from_slice(&rest[..count]);
        self.at += count;
        Ok(count)
    }

    fn faults(&self) -> u64 {
        self.plan.faults()
    }
}
