//! The items of a connection.
ghost use Rattle.std.specs.Prelude.{◌≡◌, ◌≤◌, ◌+◌, ◌++◌, ℕ, List, IfOk};
ghost use Rattle.ld_edge.specs.Passing.{Comes, Goes};
ghost use Rattle.ld_head.specs.Dialogues.{Whole, asked, bad, front, good};
ghost use Rattle.ld_head.specs.Heads.{Accepts, Says};
ghost use Rattle.ld_items.specs.declared.arrivals.Received.TheVariants as received;
ghost use Rattle.ld_items.specs.Taking.{Counts, Gives, Takes, item_of, start};

use crate::body::Body;
use crate::heading::Heading;
use crate::pending::Pending;
use crate::sides::{ask_for_body, read_body, read_head};
use ld_edge::Link;
use ld_head::{Ending, Head, Item, Marks, Path};
use ld_tree::{NoMemory, Raw};
use std::alloc::Global;
use std::marker::Model;

/// What is asked by an item.
#[derive(Debug, Drop)]
pub enum Received {
    /// A request of the path, with its body.
    Ask { path: Path, body: Raw },
    /// A request that is refused with this status before its body is looked at.
    Bad { status: u16 },
}

/// An item that came whole, or whose head was refused.
#[derive(Debug, Drop)]
pub struct Arrived {
    pub item: Received,
    pub marks: Marks,
}

/// What comes next over a link.
#[derive(Debug, Drop)]
pub enum Next {
    /// An item, whose interim text was written where it is due.
    Item(Arrived),
    /// The input ended so.
    Ended(Ending),
    /// A read failed, where the input stood so.
    ReadFault(Ending),
    /// A write of the interim text failed.
    WriteFault,
    /// An allocation failed.
    NoMemory,
}

/// The bytes that came over a connection's link and that nobody looked at, and how many items came before them.
#[derive(Drop)]
pub struct Arrivals {
    pending: Pending,
    items: u32,
}

impl Model for Arrivals {
    ghost use Rattle.ld_items.specs.declared.arrivals.Received.TheVariants as received;
    ghost use Rattle.ld_items.specs.Taking.{Standing};

    ghost Value = { Standing };

    ghost view = { λ a. record { items = a.items; pending = a.pending } };
}

impl Arrivals {
    /// Nothing came yet.
    pub fn new(alloc: Global) -> Result<Arrivals, NoMemory>
        ensures { IfOk result (λ a. a ≡ start) }
    {
        Ok(Arrivals {
            pending: Pending::new(alloc)?,
            items: 0,
        })
    }

    /// The next item, or how the input ends. A connection has at most 65,536 items, of which the last closes: it isn't
    /// asked for another one.
    pub fn next<N: Link>(&mut self, alloc: Global, link: &mut N) -> Next
        requires { self.old.items ≤ 65535 }
        ensures took { (came went : List ℕ) × Comes (N.incoming link.old) (N.incoming link.new) came × Goes (N.outgoing link.old) (N.outgoing link.new) went
            × Takes self.old.items (self.old.pending ++ came) went self.new (N.incoming link.new) result }
        ensures count { Counts (N.incoming link.old) (N.incoming link.new) (N.outgoing link.old) (N.outgoing link.new) result }
    {
        match read_head(alloc, &mut self.pending, link) {
            Heading::Whole(head) => self.after_head(alloc, link, &head),
            Heading::Bad { status, was_head } => self.refuse(status, was_head),
            Heading::Ended(ending) => Next::Ended(ending),
            Heading::Fault(ending) => Next::ReadFault(ending),
            Heading::NoMemory => Next::NoMemory,
        }
    }

    // The item of a head that is whole.
    fn after_head<N: Link>(&mut self, alloc: Global, link: &mut N, head: &Head) -> Next
        requires { self.old.items ≤ 65535 }
        ensures took { (came went : List ℕ) × Comes (N.incoming link.old) (N.incoming link.new) came × Goes (N.outgoing link.old) (N.outgoing link.new) went
            × ((bytes block : List ℕ) → Says block (Accepts head.now) → ((more : List ℕ) → front (bytes ++ more) ≡ Whole block (self.old.pending ++ more))
            → Takes self.old.items (bytes ++ came) went self.new (N.incoming link.new) result) }
        ensures count { Counts (N.incoming link.old) (N.incoming link.new) (N.outgoing link.old) (N.outgoing link.new) result }
    {
        match ask_for_body(link, head.interim) {
            Err(_) => return Next::WriteFault,
            Ok(()) => {}
        }
        let inside = Ending::Inside {
            interim: head.interim,
        };
        match read_body(alloc, &mut self.pending, link, head.length as usize) {
            Body::Whole(body) => self.give(asked_of(head, body), head.marks(self.items)),
            Body::Cut => Next::Ended(inside),
            Body::Fault => Next::ReadFault(inside),
            Body::NoMemory => Next::NoMemory,
        }
    }

    // One more item.
    fn give(&mut self, item: Received, marks: Marks) -> Next
        requires { self.old.items ≤ 65535 }
        ensures given { Gives item marks result }
        ensures items { self.new ≡ record self.old { items = self.old.items + 1 } }
    {
        self.items += 1;
        Next::Item(Arrived { item, marks })
    }

    // The item of a head that is refused. It closes.
    fn refuse(&mut self, status: u16, was_head: bool) -> Next
        requires { self.old.items ≤ 65535 }
        ensures given { Gives (received.Bad status) (bad status was_head).marks result }
        ensures items { self.new ≡ record self.old { items = self.old.items + 1 } }
    {
        let marks = Marks {
            interim: false,
            closes: true,
            head_alone: was_head,
        };
        self.give(Received::Bad { status }, marks)
    }
}

// What a head asks with this body.
fn asked_of(head: &Head, body: Raw) -> Received
    ensures { item_of result ≡ asked head.now body }
{
    match head.item(body.as_slice()) {
        Item::Ask { path, body: _ } => Received::Ask { path, body },
        Item::Bad { status } => Received::Bad { status },
    }
}
