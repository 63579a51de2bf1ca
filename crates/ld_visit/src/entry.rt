//! How a session begins in a seat that has none, and how it ends.
ghost use Rattle.std.specs.Prelude.{◌≡◌, IfErr, IfOk};
ghost use Rattle.ld_history.specs.declared.session.Last.TheVariants as last;
ghost use Rattle.ld_moves.specs.Standing.{Stands};
ghost use Rattle.ld_visit.specs.Visits.{Closed, IsFree, NotOpened, Opened};

use crate::visit::Visit;
use ld_book::{Book, RoomRefusal};
use ld_turn::{Seat, TurnLock};
use std::alloc::Global;
use std::sync::Wait;

/// Opens a session in a seat that has none under way, which makes it a visit. Where the history is full, or there is no
/// memory, the seat comes back, and has none as before.
pub fn open<R: Wait>(
    rt: &R,
    alloc: Global,
    lock: &TurnLock<Book>,
    seat: Seat<Book>,
) -> Result<Visit, (Seat<Book>, RoomRefusal)>
    requires lock { seat.lock ≡ lock.now }
    requires free { IsFree seat }
    ensures opened { IfOk result (Opened seat) }

    // No request of the session is under way.
    ensures idle { IfOk result (λ visit. Stands visit.pages visit.session last.Idle) }
    ensures refused { IfErr result (λ back. NotOpened seat back.0 back.1) }
{
    let number = seat.number();
    let mut turn = lock.take(rt, seat);
    // The history is legal, so that no session came into the seat meanwhile.
    let _events = turn.value().events();
    let opened = turn.value().open_session(alloc, number);
    // It is with the new session, too.
    let _events = turn.value().events();
    let seat = lock.leave(turn);
    match opened {
        Ok(session) => Ok(Visit { seat, session }),
        Err(refusal) => Err((seat, refusal)),
    }
}

/// Closes the session, which has no request under way. Its seat comes back, for another session.
pub fn close<R: Wait>(rt: &R, lock: &TurnLock<Book>, visit: Visit) -> Seat<Book>
    requires lock { visit.lock ≡ lock.now }
    requires may { Stands visit.pages visit.session last.Idle }
    ensures { Closed visit result }
{
    let (mut turn, session) = visit.enter(rt, lock);
    turn.value().close_session(session);
    // The history is legal, as it was.
    let _events = turn.value().events();
    lock.leave(turn)
}
