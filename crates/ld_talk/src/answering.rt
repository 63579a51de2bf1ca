//! One item: what it asks for, its answer, and its reply.
ghost use Rattle.std.specs.Prelude.{◌≡◌};
ghost use Rattle.ld_items.specs.Taking.{marked};
ghost use Rattle.ld_head.specs.Outcomes.{reply};
ghost use Rattle.ld_talk.specs.Talking.{IsSaid, IsSaidFull, IsSaidOf, IsSpoken};

use crate::hearing::{Asking, hear};
use crate::requests::{Replied, Requests};
use crate::sending::{SendRefusal, last_marks, send};
use bytes::BytesMut;
use ld_edge::Link;
use ld_head::{Marks, Outcome};
use ld_items::Arrived;
use std::alloc::Global;

/// What came of an item.
#[derive(Clone, Copy, Debug, PartialEq, Eq)]
pub(crate) enum Spoken {
    /// It was answered, and its reply went out.
    Sent,
    /// It was answered, and its reply didn't go out.
    Unsent(SendRefusal),
    /// The history has no room for it, and the reply that says so went out.
    Full { events: u64 },
    /// That reply didn't go out.
    FullUnsent { events: u64, refusal: SendRefusal },
}

// Sends the reply to an item.
fn say<N: Link>(
    alloc: Global,
    link: &mut N,
    buffer: &mut BytesMut,
    fields: Option<(u32, u64)>,
    outcome: &Outcome,
    marks: Marks,
) -> Spoken
    ensures said { IsSaid (reply fields outcome.now marks) (N.outgoing link.old) (N.outgoing link.new) result }
    ensures incoming { N.incoming link.new ≡ N.incoming link.old }
{
    match send(alloc, link, buffer, fields, outcome, marks) {
        Ok(()) => Spoken::Sent,
        Err(refusal) => Spoken::Unsent(refusal),
    }
}

// Sends the reply of a history without room.
fn say_full<N: Link>(alloc: Global, link: &mut N, buffer: &mut BytesMut, events: u64) -> Spoken
    ensures said { IsSaidFull events (N.outgoing link.old) (N.outgoing link.new) result }
    ensures incoming { N.incoming link.new ≡ N.incoming link.old }
{
    let outcome = Outcome::HistoryFull { events };
    match send(alloc, link, buffer, None, &outcome, last_marks()) {
        Ok(()) => Spoken::Full { events },
        Err(refusal) => Spoken::FullUnsent { events, refusal },
    }
}

/// Answers an item, whose interim text was written where it is due.
pub(crate) fn answer<N: Link, Q: Requests>(
    alloc: Global,
    link: &mut N,
    buffer: &mut BytesMut,
    outside: &mut Q::Outside,
    requests: Q,
    arrived: &Arrived,
) -> (Q, Spoken)
    ensures spoken { IsSpoken (Q.moves requests outside.old result.0 outside.new) (Q.full result.0) (marked arrived.now) (N.outgoing link.old) (N.outgoing link.new) result.1 }
    ensures incoming { N.incoming link.new ≡ N.incoming link.old }
{
    let marks = arrived.marks;
    match hear(alloc, &arrived.item) {
        Asking::Unrecorded(outcome) => {
            let spoken = say(alloc, link, buffer, None, &outcome, marks);
            (requests, spoken)
        }
        Asking::Recorded(request) => {
            let (requests, replied) = requests.request(alloc, outside, request);
            let spoken = say_reply(alloc, link, buffer, &replied, marks);
            (requests, spoken)
        }
    }
}

// Sends the reply to a request that came to this.
fn say_reply<N: Link>(
    alloc: Global,
    link: &mut N,
    buffer: &mut BytesMut,
    replied: &Replied,
    marks: Marks,
) -> Spoken
    ensures said { IsSaidOf replied.now marks (N.outgoing link.old) (N.outgoing link.new) result }
    ensures incoming { N.incoming link.new ≡ N.incoming link.old }
{
    match replied {
        Replied::Answered {
            number,
            version,
            outcome,
        } => say(
            alloc,
            link,
            buffer,
            Some((*number, *version)),
            outcome,
            marks,
        ),
        Replied::Unmade => say(alloc, link, buffer, None, &Outcome::NoMemory, marks),
        Replied::HistoryFull { events } => say_full(alloc, link, buffer, *events),
    }
}
