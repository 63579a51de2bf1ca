//! The two sides of a link: a call of one leaves the other as it was.
ghost use Rattle.std.specs.Prelude.{◌≡◌, ◌++◌, ℕ, List, true, OnOk, OnErr};
ghost use Rattle.ld_edge.specs.Faults.{Rose};
ghost use Rattle.ld_edge.specs.Passing.{Comes, Goes, GoesInPart};
ghost use Rattle.ld_head.specs.Replies.{interim_text, text_if};
ghost use Rattle.ld_items.specs.Parts.{Bodies, BodyCounts, BodyEnds, HeadCounts, HeadEnds, Heads};

use crate::body::{Body, next_body};
use crate::heading::{Heading, next_head};
use crate::pending::Pending;
use ld_edge::{Failed, Link, write_all};
use ld_head::interim_text;
use std::alloc::Global;

pub(crate) fn read_head<N: Link>(alloc: Global, pending: &mut Pending, link: &mut N) -> Heading
    ensures heading { (came : List ℕ) × Comes (N.incoming link.old) (N.incoming link.new) came × Heads (pending.old ++ came) pending.new result }
    ensures end { HeadEnds (N.incoming link.new) result }
    ensures count { HeadCounts (N.incoming link.old).faults (N.incoming link.new).faults result }
    ensures outgoing { N.outgoing link.new ≡ N.outgoing link.old }
{
    next_head(alloc, pending, link)
}

pub(crate) fn read_body<N: Link>(
    alloc: Global,
    pending: &mut Pending,
    link: &mut N,
    length: usize,
) -> Body
    ensures body { (came : List ℕ) × Comes (N.incoming link.old) (N.incoming link.new) came × Bodies length (pending.old ++ came) pending.new result }
    ensures end { BodyEnds (N.incoming link.new) result }
    ensures count { BodyCounts (N.incoming link.old).faults (N.incoming link.new).faults result }
    ensures outgoing { N.outgoing link.new ≡ N.outgoing link.old }
{
    next_body(alloc, pending, link, length)
}

/// Writes the interim text, where it is due.
pub(crate) fn ask_for_body<N: Link>(link: &mut N, due: bool) -> Result<(), Failed>
    ensures all { OnOk result (Goes (N.outgoing link.old) (N.outgoing link.new) (text_if due interim_text)) }
    ensures part { OnErr result ((due ≡ true) × GoesInPart (N.outgoing link.old) (N.outgoing link.new) interim_text) }
    ensures keeps_count { OnOk result ((N.outgoing link.new).faults ≡ (N.outgoing link.old).faults) }
    ensures rose { OnErr result (Rose (N.outgoing link.old).faults (N.outgoing link.new).faults) }
    ensures incoming { N.incoming link.new ≡ N.incoming link.old }
{
    if !due {
        return Ok(());
    }
    write_all(link, interim_text())
}
