//! What a session does in its turns.
ghost use Rattle.std.specs.Prelude.{◌≡◌};
ghost use Rattle.ld_history.specs.Steps.{answer_step, evict_step, lack_step, revise_step};
ghost use Rattle.ld_history.specs.declared.session.Last.TheVariants as last;
ghost use Rattle.ld_book.specs.Pages.{history_of};
ghost use Rattle.ld_book.specs.Said.{told_evict, told_lack, told_revise};
ghost use Rattle.ld_moves.specs.Standing.{Stands};
ghost use Rattle.ld_visit.specs.Ending.{MayEnd, MayLack, MayPin};
ghost use Rattle.ld_visit.specs.Taking.{Pins, Takes, TakesOr};
ghost use Rattle.ld_visit.specs.Visits.{Took};

use crate::visit::Visit;
use ld_book::{Book, EvictAnswer, LackAnswer, Pin, ReviseAnswer, RoomRefusal};
use ld_history::{How, Name};
use ld_tree::{Iri, NoMemory};
use ld_turn::TurnLock;
use std::alloc::Global;
use std::sync::Wait;

/// Begins the session's next request, or the next attempt of the one under way.
pub fn pin<R: Wait>(
    rt: &R,
    alloc: Global,
    lock: &TurnLock<Book>,
    visit: Visit,
) -> (Visit, Result<Pin, RoomRefusal>)
    requires lock { visit.lock ≡ lock.now }
    requires may { MayPin visit.pages visit.session }
    ensures { Took visit result.0 (Pins visit.session result.1) }
{
    let (mut turn, session) = visit.enter(rt, lock);
    let pinned = turn.value().pin(alloc, session);
    (Visit::leave(lock, turn, session), pinned)
}

/// The session's request is answered so.
pub fn answer<R: Wait>(rt: &R, lock: &TurnLock<Book>, visit: Visit, how: How<Name>) -> Visit
    requires lock { visit.lock ≡ lock.now }
    requires may { MayEnd visit.pages visit.session how }
    ensures { Took visit result (Takes (λ found. answer_step (history_of found) visit.session how)) }
{
    let (mut turn, session) = visit.enter(rt, lock);
    turn.value().answered(session, how);
    Visit::leave(lock, turn, session)
}

/// The request lacks a context at its pinned version. A refusal ends it.
pub fn lack<R: Wait>(
    rt: &R,
    alloc: Global,
    lock: &TurnLock<Book>,
    visit: Visit,
    iri: &Iri,
) -> (Visit, Result<LackAnswer, NoMemory>)
    requires lock { visit.lock ≡ lock.now }
    requires may { MayLack visit.pages visit.session iri.now }
    ensures { Took visit result.0 (TakesOr (told_lack iri.now) (λ found. lack_step (history_of found) visit.session iri.now) result.1) }
{
    let (mut turn, session) = visit.enter(rt, lock);
    let lacked = turn.value().lack(alloc, session, iri);
    (Visit::leave(lock, turn, session), lacked)
}

/// The request wants a context out of the store, and is answered, unless there is no memory.
pub fn evict<R: Wait>(
    rt: &R,
    alloc: Global,
    lock: &TurnLock<Book>,
    visit: Visit,
    iri: &Iri,
) -> (Visit, Result<EvictAnswer, NoMemory>)
    requires lock { visit.lock ≡ lock.now }
    requires may { Stands visit.pages visit.session last.Pinned }
    ensures { Took visit result.0 (TakesOr told_evict (λ found. evict_step (history_of found) visit.session iri.now) result.1) }
{
    let (mut turn, session) = visit.enter(rt, lock);
    let evicted = turn.value().evict(alloc, session, iri);
    (Visit::leave(lock, turn, session), evicted)
}

/// The request wants a stored context loaded anew. A refusal ends it.
pub fn revise<R: Wait>(
    rt: &R,
    alloc: Global,
    lock: &TurnLock<Book>,
    visit: Visit,
    iri: &Iri,
) -> (Visit, Result<ReviseAnswer, NoMemory>)
    requires lock { visit.lock ≡ lock.now }
    requires may { Stands visit.pages visit.session last.Pinned }
    ensures { Took visit result.0 (TakesOr (told_revise iri.now) (λ found. revise_step (history_of found) visit.session iri.now) result.1) }
{
    let (mut turn, session) = visit.enter(rt, lock);
    let revised = turn.value().revise(alloc, session, iri);
    (Visit::leave(lock, turn, session), revised)
}
