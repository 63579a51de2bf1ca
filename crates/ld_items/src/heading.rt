//! The head of the next item.
ghost use Rattle.std.specs.Prelude.{◌≡◌, ◌++◌, ℕ, List};
ghost use Rattle.ld_edge.specs.Passing.{Comes};
ghost use Rattle.ld_items.specs.Parts.{HeadCounts, HeadEnds, Heads, ToldBy};

use crate::pending::Pending;
use ld_edge::Source;
use ld_head::{Begun, Came, Ending, Head, HeadRefusal, read_head};
use std::alloc::Global;

/// What came of a head.
#[derive(Drop)]
pub(crate) enum Heading {
    Whole(Head),
    /// It is refused with this status, and the connection closes.
    Bad { status: u16, was_head: bool },
    /// The input ended before it was whole.
    Ended(Ending),
    /// A read failed before it was whole.
    Fault(Ending),
    NoMemory,
}

// What a whole block says.
fn told(alloc: Global, block: &[u8]) -> Heading
    ensures { ToldBy block.now result }
{
    match read_head(alloc, block) {
        Ok(head) => Heading::Whole(head),
        Err(HeadRefusal::Status { status, was_head }) => Heading::Bad { status, was_head },
        Err(HeadRefusal::NoMemory) => Heading::NoMemory,
    }
}

/// Reads up to the end of the next head.
pub(crate) fn next_head<S: Source>(alloc: Global, pending: &mut Pending, source: &mut S) -> Heading
    ensures heading { (came : List ℕ) × Comes (S.incoming source.old) (S.incoming source.new) came × Heads (pending.old ++ came) pending.new result }
    ensures end { HeadEnds (S.incoming source.new) result }
    ensures count { HeadCounts (S.incoming source.old).faults (S.incoming source.new).faults result }
    ensures keeps_beside { S.beside source.new ≡ S.beside source.old }
{
    let mut begun = Begun::new(alloc);
    for _ in 0..u64::MAX {
        match pending.fetch(source) {
            Err(_) => return Heading::Fault(begun.ending()),
            Ok(false) => return Heading::Ended(begun.ending()),
            Ok(true) => {}
        }
        match begun.take(pending.bytes()) {
            Came::Whole { block, used } => {
                pending.skip(used);
                return told(alloc, block.as_slice());
            }
            Came::TooLong => {
                return Heading::Bad {
                    status: 431,
                    was_head: false,
                };
            }
            Came::NoMemory => return Heading::NoMemory,
            Came::More { begun: more } => {
                pending.clear();
                begun = more;
            }
        }
    }
    Heading::NoMemory
}
