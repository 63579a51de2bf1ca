//! The body of an item.
ghost use Rattle.std.specs.Prelude.{◌≡◌, ◌++◌, ℕ, List};
ghost use Rattle.ld_edge.specs.Passing.{Comes};
ghost use Rattle.ld_items.specs.Parts.{Bodies, BodyCounts, BodyEnds};

use crate::pending::Pending;
use ld_edge::Source;
use ld_tree::Raw;
use std::alloc::Global;

/// What came of a body.
#[derive(Drop)]
pub(crate) enum Body {
    Whole(Raw),
    /// The input ended before it was whole.
    Cut,
    /// A read failed before it was whole.
    Fault,
    NoMemory,
}

/// Reads so many bytes.
pub(crate) fn next_body<S: Source>(
    alloc: Global,
    pending: &mut Pending,
    source: &mut S,
    length: usize,
) -> Body
    ensures body { (came : List ℕ) × Comes (S.incoming source.old) (S.incoming source.new) came × Bodies length (pending.old ++ came) pending.new result }
    ensures end { BodyEnds (S.incoming source.new) result }
    ensures count { BodyCounts (S.incoming source.old).faults (S.incoming source.new).faults result }
    ensures keeps_beside { S.beside source.new ≡ S.beside source.old }
{
    let mut body = Vec::new(alloc);
    while body.len() < length {
        match pending.fetch(source) {
            Err(_) => return Body::Fault,
            Ok(false) => return Body::Cut,
            Ok(true) => {}
        }
        let count = pending.bytes().len().min(length - body.len());
        if body.extend_from_slice(&pending.bytes()[..count]).is_err() {
            return Body::NoMemory;
        }
        pending.skip(count);
    }
    Body::Whole(Raw::from_vec(body))
}
