//! What the tables say of a step, before its entry is made.
ghost use Rattle.std.specs.Prelude.{◌≡◌, ℕ, ◌+◌, not, ◌&&◌, nat_lt};
ghost use Rattle.std.specs.Option.{option_map};
ghost use Rattle.ld_history.specs.declared.session.Session.{Session};
ghost use Rattle.ld_history.specs.Words.{at_number, flight_at, is_taken};
ghost use Rattle.ld_history.specs.Seen.{seen};
ghost use Rattle.ld_history.specs.Steps as steps;
ghost use Rattle.ld_history.specs.Choices.{CanCount, answer_of, pinned_request, revise_event};

use crate::answers::{OpenAnswer, PinAnswer, PublishAnswer, ReviseAnswer};
use crate::event::{Event, How};
use crate::limits::Limits;
use crate::name::{Answer, Name};
use crate::rules::OVERSIZE;
use crate::tables::Tables;

impl Tables {
    /// The number of the open session's last request.
    pub fn request(&self, session: u32) -> Option<u32>
        ensures { result ≡ option_map (λ s. s.request) (at_number (seen self.now).sessions session) }
    {
        match self.session(session) {
            Some(s) => Some(s.request),
            None => None,
        }
    }

    /// The number of the session's request, where its last own event is Pinned.
    pub fn pinned_request(&self, session: u32) -> Option<u32>
        ensures { result ≡ pinned_request (seen self.now) session }
    {
        match self.session(session) {
            Some(s) => s.last.is_pinned().then_some(s.request),
            None => None,
        }
    }

    /// What asking for a session in this seat answers, if it is allowed.
    pub fn open_answer(&self, limits: &Limits, seat: u32) -> Option<OpenAnswer>
        requires { CanCount (seen self.now) }
        ensures { result ≡ answer_of (steps.where_ (nat_lt seat 256 && not (is_taken (seen self.now) seat)) (steps.opening limits.now (seen self.now) seat)) }
    {
        if seat >= 256 || self.is_taken(seat) {
            return None;
        }
        if !self.history_has_room(limits) {
            return Some(OpenAnswer::HistoryFull {
                events: self.events,
            });
        }
        Some(OpenAnswer::Opened {
            session: self.opened + 1,
        })
    }

    /// What a pin answers, if it is allowed.
    pub fn pin_answer(&self, limits: &Limits, session: u32) -> Option<PinAnswer>
        requires { CanCount (seen self.now) }
        ensures { result ≡ answer_of (steps.of_session (seen self.now) session (steps.pinning limits.now (seen self.now) session)) }
    {
        let s = self.session(session)?;
        if !s.last.is_idle() {
            return self.may_pin_again(s.last).then_some(PinAnswer::Pinned {
                request: s.request,
                attempt: s.attempt + 1,
                version: self.version,
            });
        }
        Some(self.first_pin(limits, s.request + 1))
    }

    fn first_pin(&self, limits: &Limits, request: u32) -> PinAnswer
        ensures { (session : ℕ) (s : Session) → s.request + 1 ≡ request → result ≡ (steps.pinning_first limits.now (seen self.now) session s).answer }
    {
        if !self.history_has_room(limits) {
            return PinAnswer::HistoryFull {
                events: self.events,
            };
        }
        PinAnswer::Pinned {
            request,
            attempt: 1,
            version: self.version,
        }
    }

    /// What comes of a flight's answer, if it is allowed.
    pub fn publish_answer(&self, flight: u32, given: &Answer) -> Option<PublishAnswer>
        requires { CanCount (seen self.now) }
        ensures { result ≡ answer_of (steps.publish_found (seen self.now) flight given.now (flight_at (seen self.now).flights flight)) }
    {
        let f = self.flight(flight)?;
        if !f.end.is_under_way() || given.length() > OVERSIZE {
            return None;
        }
        if !f.kind.is_lead() && self.is_stored_answer(&f.iri, given) {
            return Some(PublishAnswer::Same);
        }
        Some(PublishAnswer::Published {
            version: self.version + 1,
        })
    }

    /// What a pinned request is answered that wants the context loaded anew.
    pub fn revise_answer(&self, limits: &Limits, iri: &Name) -> ReviseAnswer
        requires { CanCount (seen self.now) }
        ensures { (session : ℕ) (s : Session) → result ≡ (steps.revising_stored limits.now (seen self.now) session iri.now s).answer }
    {
        if !self.is_stored(iri) {
            return ReviseAnswer::NotStored {
                version: self.version,
            };
        }
        if let Some(revision) = self.revisions.get(iri) {
            return ReviseAnswer::Flying {
                flight: revision.flight,
            };
        }
        if !self.archive_has_room(limits) {
            return ReviseAnswer::ArchiveFull { bytes: self.bytes };
        }
        ReviseAnswer::Led {
            flight: self.flights.len() as u32 + 1,
        }
    }
}

/// The event that the answer stands for.
pub(crate) fn revise_event(
    session: u32,
    request: u32,
    iri: Name,
    answer: ReviseAnswer,
) -> Event<Name>
    ensures { result ≡ revise_event session request iri answer }
{
    let how = match answer {
        ReviseAnswer::Led { flight } => return Event::ReviseLed {
            session,
            iri,
            flight,
        },
        ReviseAnswer::NotStored { version } => How::NotStored { version },
        ReviseAnswer::Flying { flight } => How::Flying { flight },
        ReviseAnswer::ArchiveFull { bytes } => How::ArchiveFull { bytes },
    };
    Event::Answered {
        session,
        request,
        how,
    }
}
