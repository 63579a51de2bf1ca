//! Bringing a context that an evaluation lacks.
ghost use Rattle.std.specs.Prelude.{◌≡◌, Err};
ghost use Rattle.ld_answer.specs.Bodies.{too_many_body};
ghost use Rattle.ld_answer.specs.declared.envelope.Envelope.{Envelope};
ghost use Rattle.ld_answer.specs.declared.op.Op.{Op};
ghost use Rattle.ld_fits.specs.Play.{Lacking, Pinned, Reloading};
ghost use Rattle.ld_flight.specs.Loads.{Loading};
ghost use Rattle.ld_history.specs.declared.session.End.TheVariants as ends;
ghost use Rattle.ld_history.specs.declared.session.Last.TheVariants as lasts;
ghost use Rattle.ld_moves.specs.Standing.{IsOf, Stands};
ghost use Rattle.ld_moves.specs.Stocks.{IsSound};
ghost use Rattle.ld_rec.specs.declared.stop.Stop.TheVariants as stops;
ghost use Rattle.ld_visit.specs.Ending.{Awaits, Ended, IsLeading, IsLoading, MayLack};
ghost use Rattle.ld_session.specs.Landing.{end_of_landing};
ghost use Rattle.ld_session.specs.Requesting.{Brought, Ends, Lacked, lacked_to};

use crate::desk::Desk;
use crate::landing::Landing;
use ld_answer::{load_fault_body, too_many_body};
use ld_book::LackAnswer;
use ld_flight::{Loader, Pass};
use ld_head::Outcome;
use ld_history::How;
use ld_tree::{Iri, Tree};
use ld_visit::{Visit, answer, lack};
use std::sync::Wait;

impl<'a, R: Wait> Desk<'a, R> {
    /// Brings the context into the store that an evaluation lacks at its pinned version: it is there by now, or comes by a
    /// flight of another session or of this one. Answers the outcome where the request ended so, and none where it may pin
    /// again.
    pub(crate) fn bring<L: Loader>(
        &self,
        visit: Visit,
        loader: &mut L,
        iri: &Iri,
    ) -> (Visit, Option<Outcome>)
        requires lock { visit.lock ≡ self.now.hall.now.book }
        requires may { MayLack visit.pages visit.session iri.now }
        ensures { (op : Op) (envelope : Envelope) → Brought visit result.0 (L.loading loader.old) (L.loading loader.new) op envelope iri.now (λ r. Pinned r op envelope (Err (stops.Missing iri.now))) result.1 }
    {
        // Made before the turn: what a turn has answered with, no want of memory may change.
        let too_many = match too_many_body(self.alloc, iri.as_str()) {
            Ok(body) => body,
            Err(_) => {
                let visit = answer(self.rt, &self.hall.book, visit, How::NoMemory);
                return (visit, Some(Outcome::NoMemory));
            }
        };
        let (visit, lacked) = lack(self.rt, self.alloc, &self.hall.book, visit, iri);
        match lacked {
            Ok(lacked) => self.follow(visit, loader, iri, lacked, too_many),
            Err(_) => {
                let visit = answer(self.rt, &self.hall.book, visit, How::NoMemory);
                (visit, Some(Outcome::NoMemory))
            }
        }
    }

    // What the book answered to the lack. `too_many` is the body where the request holds as many contexts as it may.
    fn follow<L: Loader>(
        &self,
        visit: Visit,
        loader: &mut L,
        iri: &Iri,
        lacked: LackAnswer,
        too_many: Tree,
    ) -> (Visit, Option<Outcome>)
        requires lock { visit.lock ≡ self.now.hall.now.book }
        requires sound { IsSound visit.limits visit.pages }
        requires lacked { Lacked visit.pages visit.session iri.now lacked }
        requires body { too_many ≡ too_many_body iri.now }
        ensures { (op : Op) (envelope : Envelope) → Brought visit result.0 (L.loading loader.old) (L.loading loader.new) op envelope iri.now (λ r. lacked_to r op envelope iri.now lacked) result.1 }
    {
        match lacked {
            LackAnswer::There => (visit, None),
            LackAnswer::Joined(flight) => self.join(visit, iri, flight),
            LackAnswer::Lead(pass) => self.lead(visit, loader, iri, pass),
            LackAnswer::TooMany { held: _ } => (visit, Some(Outcome::TooMany(too_many))),
            LackAnswer::StoreFull => (visit, Some(Outcome::StoreFull)),
            LackAnswer::ArchiveFull { bytes } => (visit, Some(Outcome::ArchiveFull { bytes })),
        }
    }

    // The context comes by a flight of another session, if it comes.
    fn join(&self, visit: Visit, iri: &Iri, flight: u32) -> (Visit, Option<Outcome>)
        requires lock { visit.lock ≡ self.now.hall.now.book }
        requires sound { IsSound visit.limits visit.pages }
        requires joined { Stands visit.pages visit.session (lasts.Joined flight) }
        requires of { IsOf visit.pages flight iri.now }
        ensures { (loader : Loading) (op : Op) (envelope : Envelope) → Brought visit result.0 loader loader op envelope iri.now (λ r. Lacking r op envelope iri.now) result.1 }
    {
        let (visit, landing) = self.watch(visit, flight);
        self.come_down(visit, iri, flight, landing)
    }

    // It comes by a flight that this session leads, if it comes.
    fn lead<L: Loader>(
        &self,
        visit: Visit,
        loader: &mut L,
        iri: &Iri,
        pass: Pass,
    ) -> (Visit, Option<Outcome>)
        requires lock { visit.lock ≡ self.now.hall.now.book }
        requires led { Stands visit.pages visit.session (lasts.Led pass.number) }
        requires leads { IsLeading visit.pages visit.session pass }
        requires of { IsOf visit.pages pass.number iri.now }
        ensures { (op : Op) (envelope : Envelope) → Brought visit result.0 (L.loading loader.old) (L.loading loader.new) op envelope iri.now (λ r. Lacking r op envelope iri.now) result.1 }
    {
        let flight = pass.flight();
        let (visit, landing) = self.fly(visit, loader, pass);
        self.come_down(visit, iri, flight, landing)
    }

    // What a flight comes to for an evaluation that waited for it.
    fn come_down(
        &self,
        visit: Visit,
        iri: &Iri,
        flight: u32,
        landing: Landing,
    ) -> (Visit, Option<Outcome>)
        requires lock { visit.lock ≡ self.now.hall.now.book }
        requires sound { IsSound visit.limits visit.pages }
        requires loads { IsLoading visit.pages visit.session flight }
        requires of { IsOf visit.pages flight iri.now }
        requires ended { Ended visit.pages flight (end_of_landing landing) }
        ensures { (loader : Loading) (op : Op) (envelope : Envelope) → Brought visit result.0 loader loader op envelope iri.now (λ r. Lacking r op envelope iri.now) result.1 }
    {
        match landing {
            Landing::Published(_) => (visit, None),
            Landing::Failed { before, after } => {
                let (visit, outcome) = self.fault(visit, iri, flight, before, after);
                (visit, Some(outcome))
            }
            // Only a revision is ever the same, and no evaluation waits for one.
            Landing::Lapsed | Landing::Same => {
                let visit = answer(self.rt, &self.hall.book, visit, How::NoMemory);
                (visit, Some(Outcome::NoMemory))
            }
        }
    }

    /// A request waited for a flight for this IRI, whose load failed, and is answered so.
    pub(crate) fn fault(
        &self,
        visit: Visit,
        iri: &Iri,
        flight: u32,
        before: u64,
        after: u64,
    ) -> (Visit, Outcome)
        requires lock { visit.lock ≡ self.now.hall.now.book }
        requires awaits { Awaits visit.pages visit.session flight }
        requires of { IsOf visit.pages flight iri.now }
        requires ended { Ended visit.pages flight (ends.Failed before after) }
        ensures lacking { (loader : Loading) (op : Op) (envelope : Envelope) → Ends visit result.0 loader loader (λ r. Lacking r op envelope iri.now) result.1 }
        ensures reloading { (loader : Loading) → Ends visit result.0 loader loader (λ r. Reloading r iri.now) result.1 }
    {
        match load_fault_body(self.alloc, iri.as_str(), flight, before, after) {
            Ok(body) => {
                let visit = answer(self.rt, &self.hall.book, visit, How::LoadFault { flight });
                (visit, Outcome::LoadFault(body))
            }
            Err(_) => {
                let visit = answer(self.rt, &self.hall.book, visit, How::NoMemory);
                (visit, Outcome::NoMemory)
            }
        }
    }
}
