//! The requests of a round, from its first pin on.
ghost use Rattle.std.specs.Prelude.{◌≡◌, ◌≤◌, ◌∷◌, List, length, map, Ok};
ghost use Rattle.ld_history.specs.declared.session.Last.TheVariants as last;
ghost use Rattle.ld_moves.specs.Standing.{Stands};
ghost use Rattle.ld_moves.specs.Stocks.{IsSound};
ghost use Rattle.ld_own.specs.Own as own;
ghost use Rattle.ld_session.specs.Requesting.{Attempting};
ghost use Rattle.ld_visit.specs.Taking.{Pins};
ghost use Rattle.ld_visit.specs.Visits.{Took, Visiting};
ghost use Rattle.ld_revise.specs.Walking.{Comes, Reached, Walks, end_by, total};

use crate::round::RoundEnd;
use crate::tally::Tally;
use ld_book::{Pin, RoomRefusal};
use ld_flight::Loader;
use ld_history::How;
use ld_session::Desk;
use ld_store::Placed;
use ld_tree::Iri;
use ld_visit::{Visit, answer, pin};
use std::sync::Wait;

/// Pins a version, and has each of its contexts loaded anew.
pub(crate) fn walk<R: Wait, L: Loader>(
    desk: &Desk<R>,
    visit: Visit,
    loader: &mut L,
) -> (Visit, Tally, RoundEnd)
    requires lock { visit.lock ≡ desk.now.hall.now.book }
    requires idle { Stands visit.pages visit.session last.Idle }
    ensures { Walks visit result.0 (L.loading loader.old) (L.loading loader.new) result.1 result.2 }
{
    let (visit, pinned) = pin(desk.rt, desk.alloc, &desk.hall.book, visit);
    match pinned {
        Ok(first) => revise_all(desk, visit, loader, &first),
        Err(refusal) => (visit, Tally::new(), end_for(refusal)),
    }
}

// How a round ends for which there was no room, or no memory, to pin a version.
pub(crate) fn end_for(refusal: RoomRefusal) -> RoundEnd
    ensures { result ≡ end_by refusal }
{
    match refusal {
        RoomRefusal::HistoryFull { events } => RoundEnd::HistoryFull { events },
        RoomRefusal::NoMemory => RoundEnd::NoMemory,
    }
}

// The request of the first pin revises the first context that it has, and each of the others has a request of its own.
fn revise_all<R: Wait, L: Loader>(
    desk: &Desk<R>,
    visit: Visit,
    loader: &mut L,
    first: &Pin,
) -> (Visit, Tally, RoundEnd)
    requires lock { visit.lock ≡ desk.now.hall.now.book }
    requires at { Attempting visit first.now }
    ensures { (start : Visiting) → Took start visit (Pins start.session (Ok first.now))
        → Walks start result.0 (L.loading loader.old) (L.loading loader.new) result.1 result.2 }
{
    let Some(((iri, _), rest)) = first.snapshot.placed().split_first() else {
        let visit = answer(desk.rt, &desk.hall.book, visit, How::Done);
        return (visit, Tally::new(), RoundEnd::Done);
    };
    let version = first.snapshot.version();
    let (visit, outcome) = desk.reload(visit, loader, iri, version);
    match Tally::new().with(&outcome) {
        Some(tally) => revise_rest(desk, visit, loader, rest, tally),
        None => (visit, Tally::new(), RoundEnd::NoMemory),
    }
}

// One request for each of these contexts.
fn revise_rest<R: Wait, L: Loader>(
    desk: &Desk<R>,
    visit: Visit,
    loader: &mut L,
    rest: &[(Iri, Placed)],
    tally: Tally,
) -> (Visit, Tally, RoundEnd)
    requires lock { visit.lock ≡ desk.now.hall.now.book }
    requires sound { IsSound visit.limits visit.pages }
    requires idle { Stands visit.pages visit.session last.Idle }
    requires small { total tally ≤ length visit.pages }
    ensures { (mine : List own.Placed) × Reached visit result.0 (L.loading loader.old) (L.loading loader.new) (map (λ e. e.0) rest.now) tally result.1 result.2 mine }
{
    let mut visit = visit;
    let mut tally = tally;
    for (iri, _) in rest {
        let (next, came) = revise_next(desk, visit, loader, iri, tally);
        visit = next;
        match came {
            Ok(more) => tally = more,
            Err(end) => return (visit, tally, end),
        }
    }
    (visit, tally, RoundEnd::Done)
}

// The request for a context, which pins a version of its own. Answers the tally with it, or how the round ends there.
fn revise_next<R: Wait, L: Loader>(
    desk: &Desk<R>,
    visit: Visit,
    loader: &mut L,
    iri: &Iri,
    tally: Tally,
) -> (Visit, Result<Tally, RoundEnd>)
    requires lock { visit.lock ≡ desk.now.hall.now.book }
    requires sound { IsSound visit.limits visit.pages }
    requires idle { Stands visit.pages visit.session last.Idle }
    requires small { total tally ≤ length visit.pages }
    ensures { Comes visit result.0 (L.loading loader.old) (L.loading loader.new) iri.now tally result.1 }
{
    let (visit, pinned) = pin(desk.rt, desk.alloc, &desk.hall.book, visit);
    match pinned {
        Ok(pinned) => {
            let version = pinned.snapshot.version();
            let (visit, outcome) = desk.reload(visit, loader, iri, version);
            match tally.with(&outcome) {
                Some(more) => (visit, Ok(more)),
                None => (visit, Err(RoundEnd::NoMemory)),
            }
        }
        Err(refusal) => (visit, Err(end_for(refusal))),
    }
}
