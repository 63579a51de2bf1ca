//! How the flights come down that a session waits for: those that it leads, and those of others.
ghost use Rattle.std.specs.Prelude.{◌≡◌, ◌≤◌, ◌++◌, ◌∷◌, [], true, is_some, length, MatchOption};
ghost use Rattle.ld_book.specs.Pages.{entries_of};
ghost use Rattle.ld_book.specs.Said.{told_end};
ghost use Rattle.ld_book.specs.declared.answers.LookAnswer.TheVariants as looks;
ghost use Rattle.ld_edge.specs.Faults.{last_count};
ghost use Rattle.ld_flight.specs.Loads.{Loading, entry_of, longest_text};
ghost use Rattle.ld_flight.specs.Refusals.{IsCountedAs};
ghost use Rattle.ld_history.specs.Legal.{state};
ghost use Rattle.ld_history.specs.Words.{flight_at};
ghost use Rattle.ld_moves.specs.Stocks.{IsSound};
ghost use Rattle.ld_visit.specs.Ending.{IsLeading};
ghost use Rattle.ld_session.specs.Landing.{GainsAtMostOne, Landed, end_of_landing, landing_by};

use crate::desk::Desk;
use ld_book::{LookAnswer, PublishAnswer};
use ld_flight::{Loaded, Loader, Pass, Refused, Why};
use ld_visit::{Visit, fail, lapse, look, publish};
use std::sync::Wait;

/// How a flight ended.
#[derive(Clone, Copy, Debug, PartialEq, Eq)]
pub(crate) enum Landing {
    /// Its answer came into the store, which made this version.
    Published(u64),
    /// It was a revision, and its answer is what was stored.
    Same,
    /// Its load failed: the loader's count of faults rose from `before` to `after`.
    Failed { before: u64, after: u64 },
    /// It was given up for want of memory.
    Lapsed,
}

impl<'a, R: Wait> Desk<'a, R> {
    /// Loads the context of a flight that the session leads, outside any turn, and ends the flight in one. Then those are
    /// woken that wait for it.
    pub(crate) fn fly<L: Loader>(
        &self,
        visit: Visit,
        loader: &mut L,
        pass: Pass,
    ) -> (Visit, Landing)
        requires lock { visit.lock ≡ self.now.hall.now.book }
        requires leads { IsLeading visit.pages visit.session pass }
        ensures { Landed visit result.0 (L.loading loader.old) (L.loading loader.new) pass.number result.1 }
    {
        let (visit, landing) = match loader.load(self.alloc, pass) {
            Ok(loaded) => self.land(visit, loaded),
            Err(refused) => self.turn_back(visit, refused),
        };
        self.hall.bell.ring(self.rt);
        (visit, landing)
    }

    // What was loaded is read, outside any turn, and published.
    fn land(&self, visit: Visit, loaded: Loaded) -> (Visit, Landing)
        requires lock { visit.lock ≡ self.now.hall.now.book }
        requires leads { IsLeading visit.pages visit.session loaded.pass }
        requires short { length loaded.text ≤ longest_text }
        ensures { (before after : Loading) → after.given ≡ before.given ++ entry_of loaded.pass loaded.url loaded.text ∷ [] → after.faults ≡ before.faults
            → Landed visit result.0 before after loaded.pass.number result.1 }
    {
        let ready = match loaded.ready(self.alloc) {
            Ok(ready) => ready,
            Err((loaded, _)) => {
                let Loaded {
                    pass,
                    url: _,
                    text: _,
                } = loaded;
                return self.give_up(visit, pass);
            }
        };
        let (visit, published) = publish(self.rt, self.alloc, &self.hall.book, visit, ready);
        match published {
            Ok(answer) => (visit, landing_by(answer)),
            Err((ready, _)) => self.give_up(visit, ready.into_pass()),
        }
    }

    // A load came to nothing.
    fn turn_back(&self, visit: Visit, refused: Refused) -> (Visit, Landing)
        requires lock { visit.lock ≡ self.now.hall.now.book }
        requires leads { IsLeading visit.pages visit.session refused.pass }
        requires counted { IsCountedAs refused.why refused.before refused.after }
        requires last { refused.after ≤ last_count }
        ensures { (before after : Loading) → after.given ≡ before.given → refused.before ≡ before.faults → refused.after ≡ after.faults
            → Landed visit result.0 before after refused.pass.number result.1 }
    {
        match refused.why {
            Why::Fault => {
                let (before, after) = (refused.before, refused.after);
                let visit = fail(self.rt, &self.hall.book, visit, refused);
                (visit, Landing::Failed { before, after })
            }
            Why::NoMemory => {
                let Refused {
                    pass,
                    why: _,
                    before: _,
                    after: _,
                } = refused;
                self.give_up(visit, pass)
            }
        }
    }

    // A flight is given up for want of memory, whether its loader gave an answer or none.
    fn give_up(&self, visit: Visit, pass: Pass) -> (Visit, Landing)
        requires lock { visit.lock ≡ self.now.hall.now.book }
        requires leads { IsLeading visit.pages visit.session pass }
        ensures { (before after : Loading) → GainsAtMostOne pass before after → Landed visit result.0 before after pass.number result.1 }
    {
        let visit = lapse(self.rt, &self.hall.book, visit, pass);
        (visit, Landing::Lapsed)
    }

    /// Waits for a flight of another session: looks at it in turns, and sleeps between them until some flight has come down.
    pub(crate) fn watch(&self, visit: Visit, flight: u32) -> (Visit, Landing)
        requires lock { visit.lock ≡ self.now.hall.now.book }
        requires sound { IsSound visit.limits visit.pages }
        requires led { is_some (flight_at (state (entries_of visit.pages)).flights flight) ≡ true }
        ensures { (loader : Loading) → Landed visit result.0 loader loader flight result.1 }
    {
        let mut visit = visit;
        for _ in self.rt.forever() {
            // Counted before the look, so that no flight comes down unnoticed after it.
            let noted = self.hall.bell.count(self.rt);
            let (next, seen) = look(self.rt, &self.hall.book, visit, flight);
            visit = next;
            match landing_of(seen) {
                Some(landing) => return (visit, landing),
                None => self.hall.bell.wait(self.rt, noted),
            }
        }
        unreachable!()
    }
}

// How a flight ended whose answer came.
fn landing_by(answer: PublishAnswer) -> Landing
    ensures { result ≡ landing_by answer }
{
    match answer {
        PublishAnswer::Published(version) => Landing::Published(version),
        PublishAnswer::Same => Landing::Same,
    }
}

// How a flight ended, if it did.
fn landing_of(seen: LookAnswer) -> Option<Landing>
    ensures { MatchOption result (seen ≡ looks.Flying) (λ landing. seen ≡ told_end (end_of_landing landing)) }
{
    match seen {
        LookAnswer::Flying => None,
        LookAnswer::Published(version) => Some(Landing::Published(version)),
        LookAnswer::Same => Some(Landing::Same),
        LookAnswer::Failed { before, after } => Some(Landing::Failed { before, after }),
        LookAnswer::Lapsed => Some(Landing::Lapsed),
    }
}
