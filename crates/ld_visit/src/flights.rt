//! How a flight ends in a turn, and a look at one.
ghost use Rattle.std.specs.Prelude.{◌≡◌, ◌≤◌, true, is_some, IfErr};
ghost use Rattle.ld_edge.specs.Faults.{Rose, last_count};
ghost use Rattle.ld_flight.specs.declared.loader.Why.TheVariants as whys;
ghost use Rattle.ld_history.specs.Legal.{state};
ghost use Rattle.ld_history.specs.Steps.{fail_step, lapse_step};
ghost use Rattle.ld_history.specs.Words.{flight_at};
ghost use Rattle.ld_book.specs.Pages.{entries_of, history_of};
ghost use Rattle.ld_visit.specs.Ending.{IsLeading};
ghost use Rattle.ld_visit.specs.Taking.{Lands, Looks, Takes};
ghost use Rattle.ld_visit.specs.Visits.{Took};

use crate::visit::Visit;
use ld_book::{Book, LookAnswer, PublishAnswer};
use ld_flight::{Pass, Ready, Refused};
use ld_tree::NoMemory;
use ld_turn::TurnLock;
use std::alloc::Global;
use std::sync::Wait;

/// The answer of a flight that the session leads comes into the store, or is what is stored. Where memory is wanting the
/// answer comes back, and the flight is under way still.
pub fn publish<R: Wait>(
    rt: &R,
    alloc: Global,
    lock: &TurnLock<Book>,
    visit: Visit,
    ready: Ready,
) -> (Visit, Result<PublishAnswer, (Ready, NoMemory)>)
    requires lock { visit.lock ≡ lock.now }
    requires may { IsLeading visit.pages visit.session ready.pass }
    ensures took { Took visit result.0 (Lands ready result.1) }
    ensures back { IfErr result.1 (λ e. e.0 ≡ ready) }
{
    let (mut turn, session) = visit.enter(rt, lock);
    let published = turn.value().publish(alloc, ready);
    (Visit::leave(lock, turn, session), published)
}

/// The load of a flight that the session leads failed: the loader's count of faults rose. Takes no memory.
pub fn fail<R: Wait>(rt: &R, lock: &TurnLock<Book>, visit: Visit, refused: Refused) -> Visit
    requires lock { visit.lock ≡ lock.now }
    requires why { refused.why ≡ whys.Fault }
    requires rose { Rose refused.before refused.after }
    requires last { refused.after ≤ last_count }
    requires may { IsLeading visit.pages visit.session refused.pass }
    ensures { Took visit result (Takes (λ found. fail_step (history_of found) refused.pass.number refused.before refused.after)) }
{
    let (mut turn, session) = visit.enter(rt, lock);
    turn.value().fail(refused);
    Visit::leave(lock, turn, session)
}

/// A flight that the session leads is given up for want of memory. Takes no memory.
pub fn lapse<R: Wait>(rt: &R, lock: &TurnLock<Book>, visit: Visit, pass: Pass) -> Visit
    requires lock { visit.lock ≡ lock.now }
    requires may { IsLeading visit.pages visit.session pass }
    ensures { Took visit result (Takes (λ found. lapse_step (history_of found) pass.number)) }
{
    let (mut turn, session) = visit.enter(rt, lock);
    turn.value().lapse(pass);
    Visit::leave(lock, turn, session)
}

/// How a flight stands that was led. Takes no memory.
pub fn look<R: Wait>(
    rt: &R,
    lock: &TurnLock<Book>,
    visit: Visit,
    flight: u32,
) -> (Visit, LookAnswer)
    requires lock { visit.lock ≡ lock.now }
    requires led { is_some (flight_at (state (entries_of visit.pages)).flights flight) ≡ true }
    ensures { Took visit result.0 (Looks flight result.1) }
{
    let (mut turn, session) = visit.enter(rt, lock);
    let seen = turn.value().look(flight);
    (Visit::leave(lock, turn, session), seen)
}
