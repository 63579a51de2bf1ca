//! What comes of a context that a request lacks.
ghost use Rattle.std.specs.Prelude.{◌≡◌, ◌+◌, ◌≤◌, [], ◌∷◌, None, length, option_map, IfOk};
ghost use Rattle.ld_history.specs.Seen.{seen};
ghost use Rattle.ld_history.specs.Steps as steps;
ghost use Rattle.ld_history.specs.Choices.{CanCount};
ghost use Rattle.ld_history.specs.Plans.{lack_planned, AreFew};
ghost use Rattle.ld_history.specs.Words.{at_iri};
ghost use Rattle.ld_history.specs.ByTurns.{lack_found, may_lack};

use crate::answers::LackAnswer;
use crate::event::{Event, How};
use crate::limits::Limits;
use crate::name::Name;
use crate::plans::{LackPlan, Replacement};
use crate::rules::LONGEST_IRI;
use crate::session::Session;
use crate::tables::Tables;
use ld_tree::NoMemory;

impl Tables {
    /// None where the session may not lack it.
    pub fn lacking(
        &self,
        limits: &Limits,
        session: u32,
        iri: &Name,
    ) -> Result<Option<LackPlan>, NoMemory>
        requires few { AreFew limits.now (seen self.now) }
        requires count { CanCount (seen self.now) }
        ensures { IfOk result (λ plan. option_map lack_planned plan ≡ lack_found limits.now (seen self.now) session iri.now) }
    {
        match self.session(session) {
            Some(s) => if self.may_lack(iri, s) {
                self.missing(limits, session, iri, s)
            } else {
                Ok(None)
            },
            None => Ok(None),
        }
    }

    pub fn may_lack(&self, iri: &Name, s: &Session) -> bool
        ensures { result ≡ may_lack (seen self.now) iri.now s.now }
    {
        s.last.is_pinned()
            && !self.was_stored(iri, s.version)
            && iri.as_iri().as_str().len() <= LONGEST_IRI
    }

    fn missing(
        &self,
        limits: &Limits,
        session: u32,
        iri: &Name,
        s: &Session,
    ) -> Result<Option<LackPlan>, NoMemory>
        requires few { length s.now.held ≤ limits.now.held }
        requires count { CanCount (seen self.now) }
        ensures { IfOk result (λ plan. option_map lack_planned plan ≡ steps.missing limits.now (seen self.now) session iri.now s.now) }
    {
        let held = s.held.as_slice().len();
        if held >= limits.held as usize {
            let held = held as u32;
            let how = How::TooMany { iri: iri.share()? };
            return Ok(Some(ending(session, s, LackAnswer::TooMany { held }, how)));
        }
        if self.is_stored(iri) {
            return Ok(Some(found(session, iri.share()?)));
        }
        self.joining(limits, session, iri, s)
    }

    fn joining(
        &self,
        limits: &Limits,
        session: u32,
        iri: &Name,
        s: &Session,
    ) -> Result<Option<LackPlan>, NoMemory>
        requires { CanCount (seen self.now) }
        ensures { IfOk result (λ plan. option_map lack_planned plan ≡ steps.joining limits.now (seen self.now) session iri.now s.now (at_iri (seen self.now).leads iri.now)) }
    {
        match self.leads.get(iri) {
            Some(lead) => Ok(Some(joined(session, iri.share()?, lead.flight))),
            None => self.leading(limits, session, iri, s),
        }
    }

    fn leading(
        &self,
        limits: &Limits,
        session: u32,
        iri: &Name,
        s: &Session,
    ) -> Result<Option<LackPlan>, NoMemory>
        requires { CanCount (seen self.now) }
        ensures { IfOk result (λ plan. option_map lack_planned plan ≡ steps.leading limits.now (seen self.now) session iri.now s.now) }
    {
        if self.is_full(limits) {
            return Ok(Some(ending(session, s, LackAnswer::StoreFull, How::StoreFull)));
        }
        if !self.archive_has_room(limits) {
            let bytes = self.bytes;
            let answer = LackAnswer::ArchiveFull { bytes };
            return Ok(Some(ending(session, s, answer, How::ArchiveFull { bytes })));
        }
        let flight = self.flights.len() as u32 + 1;
        if self.places() == u64::from(limits.contexts) {
            return self.replacing(session, iri, flight);
        }
        Ok(Some(led(session, iri.share()?, flight)))
    }

    fn replacing(&self, session: u32, iri: &Name, flight: u32) -> Result<Option<LackPlan>, NoMemory>
        requires count { CanCount (seen self.now) }
        requires next { flight ≡ length self.now.flights.items + 1 }
        ensures { IfOk result (λ plan. option_map lack_planned plan ≡ steps.led_after (seen self.now) session iri.now (steps.next_out (seen self.now))) }
    {
        match self.next_out() {
            Some(out) => Ok(Some(LackPlan::Replace(Replacement {
                session,
                out: out.share()?,
                version: self.version + 1,
                iri: iri.share()?,
                flight,
            }))),
            None => Ok(None),
        }
    }
}

fn ending(session: u32, s: &Session, answer: LackAnswer, how: How<Name>) -> LackPlan
    ensures { lack_planned result ≡ steps.ending session s.now answer how }
{
    let request = s.request;
    LackPlan::One {
        answer,
        event: Event::Answered {
            session,
            request,
            how,
        },
    }
}

fn found(session: u32, iri: Name) -> LackPlan
    ensures { lack_planned result ≡ steps.taken LackAnswer.There (steps.plain (Event.Found session iri) ∷ []) }
{
    LackPlan::One {
        answer: LackAnswer::There,
        event: Event::Found { session, iri },
    }
}

fn joined(session: u32, iri: Name, flight: u32) -> LackPlan
    ensures { lack_planned result ≡ steps.taken (LackAnswer.Joined flight) (steps.plain (Event.Joined session iri flight) ∷ []) }
{
    LackPlan::One {
        answer: LackAnswer::Joined { flight },
        event: Event::Joined {
            session,
            iri,
            flight,
        },
    }
}

fn led(session: u32, iri: Name, flight: u32) -> LackPlan
    ensures { lack_planned result ≡ steps.taken (LackAnswer.Led flight None) (steps.plain (Event.Led session iri flight) ∷ []) }
{
    LackPlan::One {
        answer: LackAnswer::Led { flight, out: None },
        event: Event::Led {
            session,
            iri,
            flight,
        },
    }
}
