//! A connection, from the opening of its session to its close.
ghost use Rattle.std.specs.Prelude.{◌≡◌, ℕ, List};
ghost use Rattle.ld_book.specs.Pages.{Booked};
ghost use Rattle.ld_book.specs.declared.answers.RoomRefusal.{RoomRefusal};
ghost use Rattle.ld_book.specs.Seats.{lines_of};
ghost use Rattle.ld_edge.specs.Passing.{Comes, Goes};
ghost use Rattle.ld_history.specs.declared.session.Last.TheVariants as lasts;
ghost use Rattle.ld_moves.specs.Standing.{Stands};
ghost use Rattle.ld_moves.specs.Stocks.{IsSound};
ghost use Rattle.ld_talk.specs.Talking.{Faults, Talked};
ghost use Rattle.ld_visit.specs.Visits.{IsFree, pages_in};
ghost use Rattle.ld_session.specs.Serving.{IsConnection, IsFull, Moving, TurnsAway};
ghost use mathlib.Core.List.{IsPrefix};

use crate::session::Session;
use bytes::BytesMut;
use ld_book::{Blank, Hall, RoomRefusal, Seats};
use ld_edge::Link;
use ld_flight::Loader;
use ld_head::{Outcome, SessionEnd};
use ld_talk::{SendRefusal, give_up, last_marks, send, talk};
use ld_visit::{Visit, close, open};
use std::alloc::Global;
use std::marker::PhantomData;
use std::sync::Wait;

/// What came of a connection.
#[derive(Drop)]
pub struct Served {
    /// The seats that it was served from. No session is under way in them.
    pub seats: Seats<Blank>,
    /// The number of its session, where one was opened.
    pub session: Option<u32>,
    pub end: SessionEnd,
}

/// Serves a connection: opens a session in the seat at the book, answers the requests that come over the link in their
/// order, each over a pinned version of the book, and closes the session. A context that a request lacks is fetched by the
/// loader. It may wait for other sessions.
pub fn serve_session<R: Wait, N: Link, L: Loader>(
    rt: &R,
    alloc: Global,
    hall: &Hall<Blank>,
    seats: Seats<Blank>,
    link: &mut N,
    loader: &mut L,
) -> Served
    requires book { seats.book.lock ≡ hall.now.book }
    requires free { IsFree seats.book }

    // The seats come back: that of the library as it was, that of the book free, and having seen more.
    ensures library { result.seats.library ≡ seats.library }
    ensures lock { result.seats.book.lock ≡ seats.book.lock }
    ensures number { result.seats.book.number ≡ seats.book.number }
    ensures free { IsFree result.seats.book }
    ensures seen { IsPrefix seats.book.front result.seats.book.front }

    // However the book goes on, it tells what came and went, and what the loader did.
    ensures served { (came went : List ℕ) × Comes (N.incoming link.old) (N.incoming link.new) came × Goes (N.outgoing link.old) (N.outgoing link.new) went
        × ((book : Booked) → IsSound book.limits book.pages → IsPrefix result.seats.book.front (lines_of book)
        → IsConnection result.session book.limits (pages_in seats.book.front) book.pages came went (N.incoming link.new) (L.loading loader.old) (L.loading loader.new) result.end) }
    ensures faults { Faults result.end (N.incoming link.old).faults (N.incoming link.new).faults (N.outgoing link.old).faults (N.outgoing link.new).faults }
{
    let Seats { book, library } = seats;
    let (book, session, end) = match open(rt, alloc, &hall.book, book) {
        Ok(visit) => {
            let number = visit.session();
            let (visit, end) = converse(rt, alloc, hall, visit, link, loader);
            (close(rt, &hall.book, visit), Some(number), end)
        }
        Err((book, refusal)) => (book, None, turn_away(alloc, link, refusal)),
    };
    Served {
        seats: Seats { book, library },
        session,
        end,
    }
}

// Answers the requests of a session that was opened.
fn converse<R: Wait, N: Link, L: Loader>(
    rt: &R,
    alloc: Global,
    hall: &Hall<Blank>,
    visit: Visit,
    link: &mut N,
    loader: &mut L,
) -> (Visit, SessionEnd)
    requires lock { visit.lock ≡ hall.now.book }
    requires sound { IsSound visit.limits visit.pages }
    requires idle { Stands visit.pages visit.session lasts.Idle }
    ensures idle { Stands result.0.pages result.0.session lasts.Idle }
    ensures lock { result.0.lock ≡ hall.now.book }
    ensures talked { (came went : List ℕ) × Comes (N.incoming link.old) (N.incoming link.new) came × Goes (N.outgoing link.old) (N.outgoing link.new) went
        × Talked (Moving visit result.0 (L.loading loader.old) (L.loading loader.new)) (IsFull result.0.limits result.0.pages) came went (N.incoming link.new) result.1 }
    ensures faults { Faults result.1 (N.incoming link.old).faults (N.incoming link.new).faults (N.outgoing link.old).faults (N.outgoing link.new).faults }
{
    let session = Session {
        rt,
        hall,
        visit,
        loader: PhantomData,
    };
    let (session, end) = talk(alloc, link, loader, session);
    let Session {
        rt: _,
        hall: _,
        visit,
        loader: _,
    } = session;
    (visit, end)
}

// A connection for which no session was opened gets the reply that says why.
fn turn_away<N: Link>(alloc: Global, link: &mut N, refusal: RoomRefusal) -> SessionEnd
    ensures turned { TurnsAway refusal (N.outgoing link.old) (N.outgoing link.new) result }
    ensures incoming { N.incoming link.new ≡ N.incoming link.old }
{
    let RoomRefusal::HistoryFull { events } = refusal else {
        return lack_memory(link);
    };
    let outcome = Outcome::HistoryFull { events };
    let mut buffer = BytesMut::new(alloc);
    match send(alloc, link, &mut buffer, None, &outcome, last_marks()) {
        Ok(()) => SessionEnd::HistoryFull { events },
        Err(SendRefusal::Failed) => SessionEnd::WriteFault,
        Err(SendRefusal::NoMemory) => lack_memory(link),
    }
}

// The reply of want of memory is tried; whether it goes out or not, that is how it ends.
fn lack_memory<N: Link>(link: &mut N) -> SessionEnd
    ensures turned { (refusal : RoomRefusal) → TurnsAway refusal (N.outgoing link.old) (N.outgoing link.new) result }
    ensures incoming { N.incoming link.new ≡ N.incoming link.old }
{
    match give_up(link) {
        Ok(()) | Err(_) => SessionEnd::NoMemory,
    }
}
