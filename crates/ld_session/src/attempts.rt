//! An evaluation, attempt by attempt.
ghost use Rattle.std.specs.Prelude.{◌≡◌, ℕ, List};
ghost use Rattle.ld_answer.specs.declared.envelope.Envelope.{Envelope};
ghost use Rattle.ld_answer.specs.declared.op.Op.{Op};
ghost use Rattle.ld_fits.specs.Asks.{Evaluation};
ghost use Rattle.ld_fits.specs.Play.{Lacking, Pinned};
ghost use Rattle.ld_flight.specs.Loads.{Loading};
ghost use Rattle.ld_history.specs.declared.session.Last.TheVariants as lasts;
ghost use Rattle.ld_moves.specs.Standing.{Stands};
ghost use Rattle.ld_session.specs.Requesting.{Attempting, MayPinAgain, Requested, Tried, TriedOut, given_at};

use crate::desk::{Desk, unmade};
use crate::evaluating::evaluate;
use ld_answer::{Envelope, Op};
use ld_book::Pin;
use ld_flight::Loader;
use ld_head::Outcome;
use ld_history::How;
use ld_talk::{Judged, Replied};
use ld_visit::{Visit, answer, pin};
use std::sync::Wait;

/// What came of an attempt.
#[derive(Drop)]
pub(crate) enum Attempt {
    /// The request was answered so.
    Answered(Outcome),
    /// The context came that it lacked, and it has pinned anew.
    Again(Pin),
}

impl<'a, R: Wait> Desk<'a, R> {
    /// Answers an evaluation: pins a version, and evaluates over it outside any turn. Where that lacks a context, the context
    /// is brought, and another attempt is made over a version that has it.
    pub(crate) fn evaluation<L: Loader>(
        &self,
        visit: Visit,
        loader: &mut L,
        op: Op,
        envelope: &Envelope,
    ) -> (Visit, Replied)
        requires lock { visit.lock ≡ self.now.hall.now.book }
        requires idle { Stands visit.pages visit.session lasts.Idle }
        ensures { Requested visit result.0 (L.loading loader.old) (L.loading loader.new) (Evaluation op envelope.now) result.1 }
    {
        let (visit, pinned) = pin(self.rt, self.alloc, &self.hall.book, visit);
        match pinned {
            Ok(first) => {
                let number = first.request;
                let (visit, version, outcome) = self.try_out(visit, loader, op, envelope, first);
                let replied = Replied::Answered {
                    number,
                    version,
                    outcome,
                };
                (visit, replied)
            }
            Err(refusal) => (visit, unmade(refusal)),
        }
    }

    // Attempt by attempt from the first pin on. Answers the version of the last one, and the outcome.
    fn try_out<L: Loader>(
        &self,
        visit: Visit,
        loader: &mut L,
        op: Op,
        envelope: &Envelope,
        first: Pin,
    ) -> (Visit, u64, Outcome)
        requires lock { visit.lock ≡ self.now.hall.now.book }
        requires at { Attempting visit first }
        ensures { TriedOut visit result.0 (L.loading loader.old) (L.loading loader.new) op envelope.now first result.1 result.2 }
    {
        let mut visit = visit;
        let mut pinned = first;
        for _ in self.rt.forever() {
            let (next, attempt) = self.attempt(visit, loader, op, envelope, &pinned);
            visit = next;
            match attempt {
                Attempt::Again(later) => pinned = later,
                Attempt::Answered(outcome) => return (visit, pinned.snapshot.version(), outcome),
            }
        }
        unreachable!()
    }

    // One attempt over what is pinned.
    fn attempt<L: Loader>(
        &self,
        visit: Visit,
        loader: &mut L,
        op: Op,
        envelope: &Envelope,
        pinned: &Pin,
    ) -> (Visit, Attempt)
        requires lock { visit.lock ≡ self.now.hall.now.book }
        requires at { Attempting visit pinned.now }
        ensures { Tried visit result.0 (L.loading loader.old) (L.loading loader.new) op envelope.now (λ r. Pinned r op envelope.now (given_at pinned.now op envelope.now)) result.1 }
    {
        match evaluate(self.alloc, &pinned.snapshot, op, envelope) {
            Ok(Judged::Outcome(outcome)) => {
                let visit = answer(self.rt, &self.hall.book, visit, How::Done);
                (visit, Attempt::Answered(outcome))
            }
            Ok(Judged::Missing(iri)) => {
                let (visit, brought) = self.bring(visit, loader, &iri);
                match brought {
                    Some(outcome) => (visit, Attempt::Answered(outcome)),
                    None => self.pin_again(visit),
                }
            }
            Err(_) => {
                let visit = answer(self.rt, &self.hall.book, visit, How::NoMemory);
                (visit, Attempt::Answered(Outcome::NoMemory))
            }
        }
    }

    // The next pin of an evaluation whose context came. It needs no room in the history, so that only memory may be wanting.
    fn pin_again(&self, visit: Visit) -> (Visit, Attempt)
        requires lock { visit.lock ≡ self.now.hall.now.book }
        requires may { MayPinAgain visit }
        ensures { (loader : Loading) (op : Op) (envelope : Envelope) (iri : List ℕ) → Tried visit result.0 loader loader op envelope (λ r. Lacking r op envelope iri) result.1 }
    {
        let (visit, pinned) = pin(self.rt, self.alloc, &self.hall.book, visit);
        match pinned {
            Ok(next) => (visit, Attempt::Again(next)),
            Err(_) => {
                let visit = answer(self.rt, &self.hall.book, visit, How::NoMemory);
                (visit, Attempt::Answered(Outcome::NoMemory))
            }
        }
    }
}
