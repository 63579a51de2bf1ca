//! Where a session works.
ghost use Rattle.std.specs.Prelude.{◌≡◌};
ghost use Rattle.ld_history.specs.declared.session.Last.TheVariants as lasts;
ghost use Rattle.ld_moves.specs.Standing.{Stands};
ghost use Rattle.ld_talk.specs.Hearing.{requested};
ghost use Rattle.ld_session.specs.Requesting.{Requested, unmade_as};

use ld_book::{Blank, Hall, RoomRefusal};
use ld_flight::Loader;
use ld_talk::{Replied, Request};
use ld_visit::Visit;
use std::alloc::Global;
use std::sync::Wait;

/// What a session's requests are answered with, beside its loader: the runtime that it waits by, where memory comes from,
/// and the hall that it shares with other sessions.
#[derive(Drop)]
pub struct Desk<'a, R: Wait> {
    pub rt: &'a R,
    pub alloc: Global,
    pub hall: &'a Hall<Blank>,
}

/// What comes of a request that pinned no version.
pub(crate) fn unmade(refusal: RoomRefusal) -> Replied
    ensures { result ≡ unmade_as refusal }
{
    match refusal {
        RoomRefusal::HistoryFull { events } => Replied::HistoryFull { events },
        RoomRefusal::NoMemory => Replied::Unmade,
    }
}

impl<'a, R: Wait> Desk<'a, R> {
    /// Answers a request.
    pub(crate) fn reply<L: Loader>(
        &self,
        visit: Visit,
        loader: &mut L,
        request: &Request,
    ) -> (Visit, Replied)
        requires lock { visit.lock ≡ self.now.hall.now.book }
        requires idle { Stands visit.pages visit.session lasts.Idle }
        ensures { Requested visit result.0 (L.loading loader.old) (L.loading loader.new) (requested request.now) result.1 }
    {
        match request {
            Request::Evaluation { op, envelope } => self.evaluation(visit, loader, *op, envelope),
            Request::Revision(iri) => self.revision(visit, loader, iri),
            Request::Eviction(iri) => self.eviction(visit, iri),
        }
    }
}
