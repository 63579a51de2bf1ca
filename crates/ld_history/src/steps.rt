//! The steps that sessions and flights take. Each asks what the rules allow next, and appends it.
ghost use Rattle.std.specs.Prelude.{◌≡◌, None, is_some, true, IfOk, OnOk, OnErr};
ghost use Rattle.ld_history.specs.Legal.{state};
ghost use Rattle.ld_history.specs.Rules as rules;
ghost use Rattle.ld_history.specs.Steps.{Answers, grown, plain, open_step, pin_step, publish_step, fail_step, lapse_step, answer_step, revise_step, close_step, outcome};

mod evict;
mod lack;

use crate::answers::{OpenAnswer, PinAnswer, PublishAnswer, ReviseAnswer};
use crate::choices::revise_event;
use crate::event::{Entry, Event, Given, How};
use crate::name::{Answer, Name};
use crate::refusal::StepRefusal;
use crate::state::{State, append, append_end};
use ld_tree::{Iri, NoMemory};
use std::alloc::Global;

impl State {
    /// Opens a session in a seat, where the history has room. Not allowed where the seat isn't below 256
    /// or an open session has it.
    pub fn open_session(&mut self, alloc: Global, seat: u32) -> Result<OpenAnswer, StepRefusal>
        ensures answered { IfOk result (Answers (open_step self.old seat)) }
        ensures appended { OnOk result (self.new ≡ grown self.old (open_step self.old seat)) }
        ensures refused { result ≡ Err StepRefusal.NotAllowed → open_step self.old seat ≡ None }
        ensures unchanged { OnErr result (self.new ≡ self.old) }
    {
        let Some(answer) = self.tables.open_answer(&self.limits, seat) else {
            return Err(StepRefusal::NotAllowed);
        };
        if let OpenAnswer::Opened { session } = answer {
            append(alloc, self, plain(Event::Opened { session, seat }))?;
        }
        Ok(answer)
    }

    /// Begins the session's next request, where the history has room, or the next attempt of the one
    /// under way. Not allowed where no such session is open, or its request doesn't wait for a pin.
    pub fn pin(&mut self, alloc: Global, session: u32) -> Result<PinAnswer, StepRefusal>
        ensures answered { IfOk result (Answers (pin_step self.old session)) }
        ensures appended { OnOk result (self.new ≡ grown self.old (pin_step self.old session)) }
        ensures refused { result ≡ Err StepRefusal.NotAllowed → pin_step self.old session ≡ None }
        ensures unchanged { OnErr result (self.new ≡ self.old) }
    {
        let Some(answer) = self.tables.pin_answer(&self.limits, session) else {
            return Err(StepRefusal::NotAllowed);
        };
        if let PinAnswer::Pinned {
            request,
            attempt,
            version,
        } = answer
        {
            let event = Event::Pinned {
                session,
                request,
                attempt,
                version,
            };
            append(alloc, self, plain(event))?;
        }
        Ok(answer)
    }

    /// A flight's answer comes. Not allowed where the flight isn't under way, or the length is above
    /// 1,048,577.
    pub fn publish(
        &mut self,
        alloc: Global,
        flight: u32,
        given: Given,
    ) -> Result<PublishAnswer, StepRefusal>
        ensures answered { IfOk result (Answers (publish_step self.old flight given)) }
        ensures appended { OnOk result (self.new ≡ grown self.old (publish_step self.old flight given)) }
        ensures refused { result ≡ Err StepRefusal.NotAllowed → publish_step self.old flight given ≡ None }
        ensures unchanged { OnErr result (self.new ≡ self.old) }
    {
        let given = self.tables.keep_given(alloc, given)?;
        let Some(answer) = self.tables.publish_answer(flight, &given) else {
            return Err(StepRefusal::NotAllowed);
        };
        let event = match answer {
            PublishAnswer::Published { version } => Event::Published { flight, version },
            PublishAnswer::Same => Event::Same { flight },
        };
        let given = Some(self.tables.keep_same(&event, given)?);
        append(alloc, self, Entry { event, given })?;
        Ok(answer)
    }

    /// Whether a flight may fail: it is under way, and the loader's count of faults rose within 2^63 - 1 or stands
    /// there.
    pub fn may_fail(&self, flight: u32, before: u64, after: u64) -> bool
        ensures { result ≡ rules.may_fail (state self.now.entries) flight before after }
    {
        self.tables.may_fail(flight, before, after)
    }

    /// A flight's load failed: the loader's count of faults rose from `before` to `after`. Takes no memory.
    pub fn fail(&mut self, flight: u32, before: u64, after: u64)
        requires { rules.may_fail (state self.old.entries) flight before after ≡ true }
        ensures { self.new ≡ grown self.old (fail_step self.old flight before after) }
    {
        append_end(
            self,
            Event::Failed {
                flight,
                before,
                after,
            },
        );
    }

    /// Whether a flight may be given up: it is under way.
    pub fn may_lapse(&self, flight: u32) -> bool
        ensures { result ≡ rules.may_lapse (state self.now.entries) flight }
    {
        self.tables.may_lapse(flight)
    }

    /// A flight is given up for want of memory. Takes none.
    pub fn lapse(&mut self, flight: u32)
        requires { rules.may_lapse (state self.old.entries) flight ≡ true }
        ensures { self.new ≡ grown self.old (lapse_step self.old flight) }
    {
        append_end(self, Event::Lapsed { flight });
    }

    /// The IRI as the history keeps it: where it keeps an equal one, they share the text.
    pub fn name(&self, alloc: Global, iri: Iri) -> Result<Name, NoMemory>
        ensures { IfOk result (λ name. name ≡ iri) }
    {
        self.tables.name(alloc, iri)
    }

    /// Whether the rules allow that the session's request is answered so.
    pub fn may_answer(&self, session: u32, how: &How<Name>) -> bool
        ensures { result ≡ is_some (answer_step self.now session how.now) }
    {
        match self.tables.request(session) {
            Some(request) => self.tables.may_answer(&self.limits, session, request, how),
            None => false,
        }
    }

    /// The session's request is answered so. Answers the request's number. Takes no memory.
    pub fn answer(&mut self, session: u32, how: How<Name>) -> u32
        requires { is_some (answer_step self.old session how) ≡ true }
        ensures answered { Answers (answer_step self.old session how) result }
        ensures appended { self.new ≡ grown self.old (answer_step self.old session how) }
    {
        let request = self.tables.request(session).unwrap();
        append_end(
            self,
            Event::Answered {
                session,
                request,
                how,
            },
        );
        request
    }

    /// The request wants a stored context loaded anew: it leads a flight for it, or is answered why not.
    /// Not allowed where the session's last own event isn't Pinned.
    pub fn revise(
        &mut self,
        alloc: Global,
        session: u32,
        iri: Iri,
    ) -> Result<ReviseAnswer, StepRefusal>
        ensures answered { IfOk result (Answers (revise_step self.old session iri)) }
        ensures appended { OnOk result (self.new ≡ grown self.old (revise_step self.old session iri)) }
        ensures refused { result ≡ Err StepRefusal.NotAllowed → revise_step self.old session iri ≡ None }
        ensures unchanged { OnErr result (self.new ≡ self.old) }
    {
        let Some(request) = self.tables.pinned_request(session) else {
            return Err(StepRefusal::NotAllowed);
        };
        let iri = self.tables.name(alloc, iri)?;
        let answer = self.tables.revise_answer(&self.limits, &iri);
        let event = revise_event(session, request, iri, answer);
        append(alloc, self, plain(event))?;
        Ok(answer)
    }

    /// Whether the session may be closed: it is open and has no request under way.
    pub fn may_close(&self, session: u32) -> bool
        ensures { result ≡ rules.may_close (state self.now.entries) session }
    {
        self.tables.may_close(session)
    }

    /// Closes the session. Takes no memory.
    pub fn close_session(&mut self, session: u32)
        requires { rules.may_close (state self.old.entries) session ≡ true }
        ensures { self.new ≡ grown self.old (close_step self.old session) }
    {
        append_end(self, Event::Closed { session });
    }

    /// The number of the current version.
    pub fn version(&self) -> u64
        ensures { result ≡ (state self.now.entries).version }
    {
        self.tables.version
    }

    /// How the session's request ends by itself, where it waits for nothing more: Done where its last own
    /// event is Pinned, else by how the flight that it led, joined or revised has ended.
    pub fn outcome(&self, session: u32) -> Option<How<Name>>
        ensures { result ≡ outcome self.now session }
    {
        self.tables.outcome(session)
    }
}

/// The event with no answer of a flight.
pub(crate) fn plain(event: Event<Name>) -> Entry<Name, Answer>
    ensures { result ≡ plain event }
{
    Entry { event, given: None }
}
