//! A door that has its links in memory.
ghost use Rattle.std.specs.Prelude.{◌≡◌, ◌≤◌, ◌+◌, ◌++◌, ◌∷◌, [], Some, All, IfOk, IsPermutation, length};
ghost use Rattle.ld_edge.specs.Doors.{IsNew};

use crate::door::Door;
use crate::mem_link::MemLink;
use crate::outside::{Failed, Sink, Source};
use crate::plan::FaultPlan;
use ld_tree::NoMemory;
use std::alloc::Global;
use std::collections::VecDeque;
use std::marker::Model;

/// A door that gives the links of a list in turn, and keeps those that come back.
#[derive(Debug, Drop)]
pub struct MemDoor {
    links: VecDeque<MemLink>,
    // Room for all of them was taken at the start.
    returned: Vec<MemLink>,
    given: usize,
    plan: FaultPlan,
    ghost at_most_given: { length returned.items ≤ given },
}

impl Model for MemDoor {
    ghost use Rattle.std.specs.Prelude.{◌≤◌, ◌+◌, All, vec_len, vec_capacity};
    ghost use Rattle.std.specs.VecDeque.{deque_len};
    ghost use Rattle.ld_edge.specs.Doors.{IsNew, Keeping};

    ghost Value = { Keeping };

    ghost view = { λ d. record { left = d.links.items; given = d.given; returned = d.returned.items; plan = d.plan; at_most_given = d.at_most_given } };

    ghost invariant = { λ d. All IsNew d.links.items × (d.given + deque_len d.links ≤ vec_capacity d.returned) };
}

impl MemDoor {
    /// The links, on which nothing was done yet, and the numbers of the calls of `next` that fail, counted from 1.
    pub fn new(alloc: Global, links: Vec<MemLink>, fail_at: Vec<u64>) -> Result<MemDoor, NoMemory>
        requires { All IsNew links.items }
        ensures left { IfOk result (λ door. door.left ≡ links.items) }
        ensures given { IfOk result (λ door. door.given ≡ 0) }
        ensures returned { IfOk result (λ door. door.returned ≡ []) }
        ensures calls { IfOk result (λ door. door.plan.calls ≡ 0) }
        ensures fail_at { IfOk result (λ door. IsPermutation fail_at.items door.plan.fail_at) }
        ensures faults { IfOk result (λ door. door.plan.faults.number ≡ 0) }
    {
        let returned = Vec::with_capacity(alloc, links.len())?;
        Ok(MemDoor {
            links: VecDeque::from(links),
            returned,
            given: 0,
            plan: FaultPlan::new(fail_at),
        })
    }

    /// The links that came back, in their order.
    pub fn returned(&self) -> &[MemLink]
        ensures { result.now ≡ self.now.returned }
    {
        self.returned.as_slice()
    }
}

impl Door for MemDoor {
    ghost use Rattle.std.specs.Prelude.{map};
    ghost use Rattle.ld_edge.specs.Doors.{Keeping};

    type L = MemLink;

    ghost sides = { λ l. (⟦<MemLink as Source>⟧.incoming l, ⟦<MemLink as Sink>⟧.outgoing l) };

    ghost doorway = { λ d. record {
      given = d.given;
      back = length d.returned;
      left = Some (length d.left);
      returned = Some (map (λ l. (⟦<MemLink as Source>⟧.incoming l, ⟦<MemLink as Sink>⟧.outgoing l)) d.returned);
      faults = d.plan.faults.number;
    } };

    ghost at_most_given = { λ d. d.at_most_given };

    ghost at_most_last = { λ d. d.plan.faults.in_range };

    fn next(&mut self) -> Result<Option<MemLink>, Failed> {
        if self.plan.next_fails() {
            return Err(Failed);
        }
        let Some(link) = self.links.pop_front() else {
            return Ok(None);
        };
        self.given += 1;
        Ok(Some(link))
    }

    fn back(&mut self, link: MemLink) {
        self.returned.push(link).unwrap();
    }

    fn faults(&self) -> u64 {
        self.plan.faults()
    }
}
