//! A seat that has a session under way, in and out of its turns.
ghost use Rattle.std.specs.Prelude.{◌≡◌};
ghost use Rattle.ld_visit.specs.Turns.{Adding, Enters, Leaves};

use ld_book::Book;
use ld_turn::{Seat, Turn, TurnLock};
use std::marker::Model;
use std::sync::Wait;

/// A seat at the book, and the session that it has under way. Contracts see its lock and its number, the session, and the
/// book as it has seen it.
#[derive(Drop)]
pub struct Visit {
    pub(crate) seat: Seat<Book>,
    pub(crate) session: u32,
}

impl Model for Visit {
    ghost use Rattle.std.specs.Coded.{codes};
    ghost use Rattle.std.specs.Prelude.{◌≡◌, Some};
    ghost use Rattle.ld_rec.specs.contracts.doc.Doc as docs;
    ghost use Rattle.ld_history.specs.Seats.{opened_in};
    ghost use Rattle.ld_book.specs.Pages.{entries_of};
    ghost use Rattle.ld_visit.specs.Visits.{Visiting, limits_in, pages_in};

    ghost Value = { Visiting };

    ghost coded = { Prim.hlevel (codes, docs.the_row.coded) };

    ghost view = { λ v. record { lock = v.seat.lock; number = v.seat.number; session = v.session; limits = limits_in v.seat.front; pages = pages_in v.seat.front } };

    ghost invariant = { λ v. opened_in (entries_of (pages_in v.seat.front)) v.session ≡ Some v.seat.number };
}

impl Visit {
    /// The session's number.
    pub fn session(&self) -> u32
        ensures { result ≡ self.now.session }
    {
        self.session
    }

    // Waits for the turn. What came in between is of others.
    pub(crate) fn enter<R: Wait>(self, rt: &R, lock: &TurnLock<Book>) -> (Turn<Book>, u32)
        requires { self.lock ≡ lock.now }
        ensures enters { Enters self result.0 }
        ensures session { result.1 ≡ self.session }
    {
        let Visit { seat, session } = self;
        let mut turn = lock.take(rt, seat);
        let _events = turn.value().events();
        (turn, session)
    }

    // Gives the turn on.
    pub(crate) fn leave(lock: &TurnLock<Book>, turn: Turn<Book>, session: u32) -> Visit
        requires lock { turn.seat.lock ≡ lock.now }
        requires adding { Adding session turn }
        ensures { Leaves session turn result }
    {
        let mut turn = turn;
        let _events = turn.value().events();
        let seat = lock.leave(turn);
        Visit { seat, session }
    }
}
