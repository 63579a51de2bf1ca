//! A connection's talk, from its first item to its end.
ghost use Rattle.std.specs.Prelude.{◌≡◌, ◌≤◌, ◌++◌, ℕ, List, MatchOption};
ghost use Rattle.ld_edge.specs.Passing.{Comes, Goes};
ghost use Rattle.ld_fits.specs.Asks.{Heard};
ghost use Rattle.ld_items.specs.Taking.{marked, start as at_start};
ghost use Rattle.ld_talk.specs.Putting.{IsPut, SinkFaults};
ghost use Rattle.ld_talk.specs.Talking.{Faults, Talked};
ghost use Rattle.ld_talk.specs.Underway.{IsTalking, GoesOnOrEnds};

use crate::answering::answer;
use crate::concluding::{conclude, end_of, lack_memory};
use crate::requests::Requests;
use bytes::BytesMut;
use ld_edge::Link;
use ld_head::SessionEnd;
use ld_items::{Arrivals, Arrived, Next};
use std::alloc::Global;

// Answers an item, and says how the talk ends, if it ends after it.
fn speak<N: Link, Q: Requests>(
    alloc: Global,
    link: &mut N,
    buffer: &mut BytesMut,
    outside: &mut Q::Outside,
    requests: Q,
    arrived: &Arrived,
) -> (Q, Option<SessionEnd>)
    ensures put { (own : List ℕ) × Goes (N.outgoing link.old) (N.outgoing link.new) own × IsPut (Q.moves requests outside.old result.0 outside.new) (Q.full result.0) (marked arrived.now) own result.1
        × SinkFaults result.1 (N.outgoing link.old).faults (N.outgoing link.new).faults }
    ensures incoming { N.incoming link.new ≡ N.incoming link.old }
{
    let (requests, spoken) = answer(alloc, link, buffer, outside, requests, arrived);
    let end = conclude(link, spoken, arrived);
    (requests, end)
}

// The next item and its answer, or how the talk ends.
fn exchange<N: Link, Q: Requests>(
    alloc: Global,
    link: &mut N,
    arrivals: &mut Arrivals,
    buffer: &mut BytesMut,
    outside: &mut Q::Outside,
    requests: Q,
) -> (Q, Option<SessionEnd>)
    requires { arrivals.old.items ≤ 65535 }
    ensures exchanged { (came went : List ℕ) × Comes (N.incoming link.old) (N.incoming link.new) came × Goes (N.outgoing link.old) (N.outgoing link.new) went
        × ((start : Q) (from : Q.Outside) (before wrote : List ℕ) (heard : List Heard) → IsTalking (Q.moves start from requests outside.old) before wrote heard arrivals.old
        → GoesOnOrEnds (Q.moves start from result.0 outside.new) (Q.full result.0) (before ++ came) (wrote ++ went) heard arrivals.new (N.incoming link.new) result.1) }
    ensures faults { MatchOption result.1 (((N.incoming link.new).faults ≡ (N.incoming link.old).faults) × ((N.outgoing link.new).faults ≡ (N.outgoing link.old).faults))
        (λ e. Faults e (N.incoming link.old).faults (N.incoming link.new).faults (N.outgoing link.old).faults (N.outgoing link.new).faults) }
{
    match arrivals.next(alloc, link) {
        Next::Item(arrived) => speak(alloc, link, buffer, outside, requests, &arrived),
        Next::Ended(ending) => (requests, Some(end_of(ending))),
        Next::ReadFault(_) => (requests, Some(SessionEnd::ReadFault)),
        Next::WriteFault => (requests, Some(SessionEnd::WriteFault)),
        Next::NoMemory => {
            let end = lack_memory(link);
            (requests, Some(end))
        }
    }
}

// The talk from its first item on.
fn talk_on<N: Link, Q: Requests>(
    alloc: Global,
    link: &mut N,
    outside: &mut Q::Outside,
    arrivals: Arrivals,
    requests: Q,
) -> (Q, SessionEnd)
    requires { arrivals ≡ at_start }
    ensures talked { (came went : List ℕ) × Comes (N.incoming link.old) (N.incoming link.new) came × Goes (N.outgoing link.old) (N.outgoing link.new) went
        × Talked (Q.moves requests outside.old result.0 outside.new) (Q.full result.0) came went (N.incoming link.new) result.1 }
    ensures faults { Faults result.1 (N.incoming link.old).faults (N.incoming link.new).faults (N.outgoing link.old).faults (N.outgoing link.new).faults }
{
    let mut arrivals = arrivals;
    let mut requests = requests;
    let mut buffer = BytesMut::new(alloc);
    for _ in 0..u64::MAX {
        let (next, end) = exchange(alloc, link, &mut arrivals, &mut buffer, outside, requests);
        requests = next;
        if let Some(end) = end {
            return (requests, end);
        }
    }
    // A connection has at most 65,536 items, so that nothing comes here.
    let end = lack_memory(link);
    (requests, end)
}

/// Talks with a connection: answers its items in order by `requests` until the input ends, an item closes it, or the talk
/// can't go on. Nothing came over the link before.
pub fn talk<N: Link, Q: Requests>(
    alloc: Global,
    link: &mut N,
    outside: &mut Q::Outside,
    requests: Q,
) -> (Q, SessionEnd)
    ensures talked { (came went : List ℕ) × Comes (N.incoming link.old) (N.incoming link.new) came × Goes (N.outgoing link.old) (N.outgoing link.new) went
        × Talked (Q.moves requests outside.old result.0 outside.new) (Q.full result.0) came went (N.incoming link.new) result.1 }
    ensures faults { Faults result.1 (N.incoming link.old).faults (N.incoming link.new).faults (N.outgoing link.old).faults (N.outgoing link.new).faults }
{
    match Arrivals::new(alloc) {
        Ok(arrivals) => talk_on(alloc, link, outside, arrivals, requests),
        Err(_) => {
            let end = lack_memory(link);
            (requests, end)
        }
    }
}
