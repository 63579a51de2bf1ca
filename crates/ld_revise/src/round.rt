//! A round, from the opening of its session to the close.
ghost use Rattle.std.specs.Prelude.{◌≡◌};
ghost use mathlib.Core.List.{IsPrefix};
ghost use Rattle.ld_book.specs.Pages.{Booked};
ghost use Rattle.ld_book.specs.Seats.{lines_of};
ghost use Rattle.ld_moves.specs.Stocks.{IsSound};
ghost use Rattle.ld_visit.specs.Visits.{IsFree, pages_in};
ghost use Rattle.ld_revise.specs.Rounds.{IsRoundOf};

use crate::tally::Tally;
use crate::walk::{end_for, walk};
use ld_book::{Blank, Hall, Seats};
use ld_flight::Loader;
use ld_session::Desk;
use ld_visit::{close, open};
use std::alloc::Global;
use std::sync::Wait;

/// How a round ended.
#[derive(Clone, Copy, Debug, PartialEq, Eq)]
pub enum RoundEnd {
    /// Each context had its request.
    Done,
    /// The history, of so many entries, had no room for the session, or for one more of its requests.
    HistoryFull { events: u64 },
    NoMemory,
}

/// What a round has done.
#[derive(Drop)]
pub struct Round {
    /// The seats come back.
    pub seats: Seats<Blank>,
    /// The number of its session. None where no session was opened.
    pub session: Option<u32>,
    pub end: RoundEnd,
    /// How its requests were answered, as in [`Tally`].
    pub revised: u32,
    pub same: u32,
    pub failed: u32,
    pub refused: u32,
}

/// Has each stored context loaded anew: opens a session, revises each IRI of its first pinned version once, in order, each
/// as one request, and closes the session. Where that version has none, one request is answered at once. It may wait for
/// other sessions.
///
/// A context that went out meanwhile, that another loads anew, or for whose text there is no room is counted as refused, and
/// one whose load fails as failed; the round goes on. It ends early with `HistoryFull` where the history has no room for the
/// session or for one more request, and with `NoMemory` where an allocation failed.
pub fn revise_round<R: Wait, L: Loader>(
    rt: &R,
    alloc: Global,
    hall: &Hall<Blank>,
    seats: Seats<Blank>,
    loader: &mut L,
) -> Round
    requires book { seats.book.lock ≡ hall.now.book }
    requires free { IsFree seats.book }

    // The seats come back: that of the library as it was, that of the book free, and having seen more.
    ensures library { result.seats.library ≡ seats.library }
    ensures lock { result.seats.book.lock ≡ seats.book.lock }
    ensures number { result.seats.book.number ≡ seats.book.number }
    ensures free { IsFree result.seats.book }
    ensures seen { IsPrefix seats.book.front result.seats.book.front }

    // However the book goes on, it tells what the round and its loader did.
    ensures made { (book : Booked) → IsSound book.limits book.pages → IsPrefix result.seats.book.front (lines_of book)
        → IsRoundOf result.session book.limits (pages_in seats.book.front) book.pages (L.loading loader.old) (L.loading loader.new)
        (record { revised = result.revised; same = result.same; failed = result.failed; refused = result.refused }) result.end }
{
    let Seats { book, library } = seats;
    let (book, session, tally, end) = match open(rt, alloc, &hall.book, book) {
        Ok(visit) => {
            let number = visit.session();
            let desk = Desk { rt, alloc, hall };
            let (visit, tally, end) = walk(&desk, visit, loader);
            (close(rt, &hall.book, visit), Some(number), tally, end)
        }
        Err((book, refusal)) => (book, None, Tally::new(), end_for(refusal)),
    };
    Round {
        seats: Seats { book, library },
        session,
        end,
        revised: tally.revised,
        same: tally.same,
        failed: tally.failed,
        refused: tally.refused,
    }
}
