//! Revisions and evictions of stored contexts.
ghost use Rattle.std.specs.Prelude.{◌≡◌};
ghost use Rattle.ld_fits.specs.Asks.{Eviction, Revision};
ghost use Rattle.ld_fits.specs.Play.{Evicting, Reloading, Revising};
ghost use Rattle.ld_flight.specs.Loads.{Loading};
ghost use Rattle.ld_history.specs.declared.session.Last.TheVariants as lasts;
ghost use Rattle.ld_moves.specs.Standing.{IsOf, Stands};
ghost use Rattle.ld_moves.specs.Stocks.{IsSound};
ghost use Rattle.ld_visit.specs.Ending.{Ended};
ghost use Rattle.ld_session.specs.Landing.{end_of_landing};
ghost use Rattle.ld_session.specs.Requesting.{Ends, EndsAt, Requested, Revised, evicted_as, revised_to};

use crate::desk::{Desk, unmade};
use crate::landing::Landing;
use ld_book::{EvictAnswer, ReviseAnswer};
use ld_flight::Loader;
use ld_head::Outcome;
use ld_history::How;
use ld_talk::Replied;
use ld_tree::Iri;
use ld_visit::{Visit, answer, evict, pin, revise};
use std::sync::Wait;

impl<'a, R: Wait> Desk<'a, R> {
    /// Answers a revision: pins a version, and has the stored context of the IRI loaded anew.
    pub(crate) fn revision<L: Loader>(
        &self,
        visit: Visit,
        loader: &mut L,
        iri: &Iri,
    ) -> (Visit, Replied)
        requires lock { visit.lock ≡ self.now.hall.now.book }
        requires idle { Stands visit.pages visit.session lasts.Idle }
        ensures { Requested visit result.0 (L.loading loader.old) (L.loading loader.new) (Revision iri.now) result.1 }
    {
        let (visit, pinned) = pin(self.rt, self.alloc, &self.hall.book, visit);
        match pinned {
            Ok(pinned) => {
                let version = pinned.snapshot.version();
                let (visit, outcome) = self.reload(visit, loader, iri, version);
                let replied = Replied::Answered {
                    number: pinned.request,
                    version,
                    outcome,
                };
                (visit, replied)
            }
            Err(refusal) => (visit, unmade(refusal)),
        }
    }

    /// Has the stored context of the IRI loaded anew for a request that has pinned this version, and answers the request.
    /// The outcome is `Revised`, `Same`, `NotStored`, `Flying`, `ArchiveFull`, `LoadFault` or `NoMemory`.
    pub fn reload<L: Loader>(
        &self,
        visit: Visit,
        loader: &mut L,
        iri: &Iri,
        version: u64,
    ) -> (Visit, Outcome)
        requires lock { visit.lock ≡ self.now.hall.now.book }
        requires pinned { Stands visit.pages visit.session lasts.Pinned }
        ensures { EndsAt visit result.0 (L.loading loader.old) (L.loading loader.new) version (λ r. Revising r iri.now) result.1 }
    {
        let (visit, revised) = revise(self.rt, self.alloc, &self.hall.book, visit, iri);
        match revised {
            Ok(revised) => self.go_on(visit, loader, iri, version, revised),
            Err(_) => {
                let visit = answer(self.rt, &self.hall.book, visit, How::NoMemory);
                (visit, Outcome::NoMemory)
            }
        }
    }

    // What the book answered to the revision.
    fn go_on<L: Loader>(
        &self,
        visit: Visit,
        loader: &mut L,
        iri: &Iri,
        version: u64,
        revised: ReviseAnswer,
    ) -> (Visit, Outcome)
        requires lock { visit.lock ≡ self.now.hall.now.book }
        requires sound { IsSound visit.limits visit.pages }
        requires revised { Revised visit.pages visit.session iri.now revised }
        ensures { EndsAt visit result.0 (L.loading loader.old) (L.loading loader.new) version (λ r. revised_to r iri.now revised) result.1 }
    {
        match revised {
            ReviseAnswer::Lead(pass) => {
                let flight = pass.flight();
                let (visit, landing) = self.fly(visit, loader, pass);
                self.conclude(visit, iri, version, flight, landing)
            }
            ReviseAnswer::NotStored { version } => (visit, Outcome::NotStored { version }),
            ReviseAnswer::Flying { flight } => (visit, Outcome::Flying { flight }),
            ReviseAnswer::ArchiveFull { bytes } => (visit, Outcome::ArchiveFull { bytes }),
        }
    }

    // What its flight comes to for a revision over this version.
    fn conclude(
        &self,
        visit: Visit,
        iri: &Iri,
        version: u64,
        flight: u32,
        landing: Landing,
    ) -> (Visit, Outcome)
        requires lock { visit.lock ≡ self.now.hall.now.book }
        requires led { Stands visit.pages visit.session (lasts.ReviseLed flight) }
        requires of { IsOf visit.pages flight iri.now }
        requires ended { Ended visit.pages flight (end_of_landing landing) }
        ensures { (loader : Loading) → EndsAt visit result.0 loader loader version (λ r. Reloading r iri.now) result.1 }
    {
        match landing {
            Landing::Published(version) => {
                let how = How::Revised { version };
                let visit = answer(self.rt, &self.hall.book, visit, how);
                (visit, Outcome::Revised { version })
            }
            Landing::Same => {
                let visit = answer(self.rt, &self.hall.book, visit, How::Same);
                (visit, Outcome::Same { version })
            }
            Landing::Failed { before, after } => self.fault(visit, iri, flight, before, after),
            Landing::Lapsed => {
                let visit = answer(self.rt, &self.hall.book, visit, How::NoMemory);
                (visit, Outcome::NoMemory)
            }
        }
    }

    /// Answers an eviction: pins a version, and has the context of the IRI go out of the store.
    pub(crate) fn eviction(&self, visit: Visit, iri: &Iri) -> (Visit, Replied)
        requires lock { visit.lock ≡ self.now.hall.now.book }
        requires idle { Stands visit.pages visit.session lasts.Idle }
        ensures { (loader : Loading) → Requested visit result.0 loader loader (Eviction iri.now) result.1 }
    {
        let (visit, pinned) = pin(self.rt, self.alloc, &self.hall.book, visit);
        match pinned {
            Ok(pinned) => {
                let (visit, outcome) = self.take_out(visit, iri);
                let replied = Replied::Answered {
                    number: pinned.request,
                    version: pinned.snapshot.version(),
                    outcome,
                };
                (visit, replied)
            }
            Err(refusal) => (visit, unmade(refusal)),
        }
    }

    // Has the context go out for a request that has pinned a version.
    fn take_out(&self, visit: Visit, iri: &Iri) -> (Visit, Outcome)
        requires lock { visit.lock ≡ self.now.hall.now.book }
        requires pinned { Stands visit.pages visit.session lasts.Pinned }
        ensures { (loader : Loading) → Ends visit result.0 loader loader (λ r. Evicting r iri.now) result.1 }
    {
        let (visit, evicted) = evict(self.rt, self.alloc, &self.hall.book, visit, iri);
        match evicted {
            Ok(answer) => (visit, outcome_of(answer)),
            Err(_) => {
                let visit = answer(self.rt, &self.hall.book, visit, How::NoMemory);
                (visit, Outcome::NoMemory)
            }
        }
    }
}

// What an eviction is answered.
fn outcome_of(answer: EvictAnswer) -> Outcome
    ensures { result ≡ evicted_as answer }
{
    match answer {
        EvictAnswer::Evicted(version) => Outcome::Evicted { version },
        EvictAnswer::NotStored { version } => Outcome::NotStored { version },
        EvictAnswer::Held { session } => Outcome::Held { session },
        EvictAnswer::Revising { flight } => Outcome::Revising { flight },
    }
}
