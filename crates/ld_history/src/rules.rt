//! Which entry may come next: a function for each row of the rules, and the words they are made of.
ghost use Rattle.std.specs.Prelude.{◌≡◌, true, ◌&&◌, option_copied};
ghost use Rattle.std.specs.List.{list_any};
ghost use Rattle.ld_history.specs.Words.{at_number, at_iri, flight_at, is_idle, is_pinned, has_request, is_lead, is_under_way, is_published, is_published_as, is_failed, is_same, is_stored, is_led, is_revised, places, flights_under_way, requests_under_way, history_has_room, archive_has_room, is_held, least_holder, may_go, is_next_out, is_taken, has_flight, is_stored_answer};
ghost use Rattle.ld_history.specs.Turns.{turns_until, is_rising};
ghost use Rattle.ld_history.specs.Rules as rules;
ghost use Rattle.ld_history.specs.ByTurns as by_turns;
ghost use Rattle.ld_history.specs.Leading.{LeadIsLast, leads_now};
ghost use Rattle.ld_history.specs.Seen.{seen};
ghost use Rattle.ld_history.specs.ByTurns.{was_stored};

use crate::event::{Entry, Event, How};
use crate::limits::Limits;
use crate::name::{Answer, Name};
use crate::session::{End, Flight, Flying, Kind, Last, Session};
use crate::tables::Tables;

/// The greatest length of an IRI whose context is loaded, in bytes.
pub(crate) const LONGEST_IRI: usize = 2048;

/// The greatest length of an answer, which stands for an oversize one.
pub(crate) const OVERSIZE: u32 = 1_048_577;

/// The greatest count of a loader's faults.
const LAST_FAULT: u64 = 0x7fff_ffff_ffff_ffff;

impl Last {
    pub fn is_idle(self) -> bool
        ensures { result ≡ is_idle self }
    {
        matches!(self, Last::Idle)
    }

    pub fn is_pinned(self) -> bool
        ensures { result ≡ is_pinned self }
    {
        matches!(self, Last::Pinned)
    }
}

impl Last {
    fn waits_for(self, flight: u32) -> bool
        ensures { result ≡ rules.waits_for flight self }
    {
        match self {
            Last::Led { flight: own }
            | Last::Joined { flight: own }
            | Last::ReviseLed { flight: own } => own == flight,
            _ => false,
        }
    }

    fn has_evicted(self, version: u64) -> bool
        ensures { result ≡ rules.has_evicted version self }
    {
        match self {
            Last::Evicted { version: made } => made == version,
            _ => false,
        }
    }
}

impl Kind {
    pub fn is_lead(self) -> bool
        ensures { result ≡ is_lead self }
    {
        matches!(self, Kind::Lead)
    }
}

impl End {
    pub fn is_under_way(self) -> bool
        ensures { result ≡ is_under_way self }
    {
        matches!(self, End::UnderWay)
    }

    fn is_published(self) -> bool
        ensures { result ≡ is_published self }
    {
        matches!(self, End::Published { .. })
    }

    fn is_published_as(self, version: u64) -> bool
        ensures { result ≡ is_published_as version self }
    {
        match self {
            End::Published { version: made } => made == version,
            _ => false,
        }
    }

    fn is_failed(self) -> bool
        ensures { result ≡ is_failed self }
    {
        matches!(self, End::Failed { .. })
    }

    fn is_same(self) -> bool
        ensures { result ≡ is_same self }
    {
        matches!(self, End::Same)
    }
}

impl Session {
    pub fn has_request(&self) -> bool
        ensures { result ≡ has_request self.now }
    {
        !self.last.is_idle()
    }
}

impl Tables {
    pub fn session(&self, number: u32) -> Option<&Session>
        ensures { option_copied result ≡ at_number (seen self.now).sessions number }
    {
        self.sessions.get(&number)
    }

    pub fn flight(&self, number: u32) -> Option<&Flight>
        ensures { option_copied result ≡ flight_at (seen self.now).flights number }
    {
        match number.checked_sub(1) {
            Some(place) => self.flights.get(place as usize),
            None => None,
        }
    }

    pub fn is_stored(&self, iri: &Name) -> bool
        ensures { result ≡ is_stored (seen self.now) iri.now }
    {
        self.stored.contains_key(iri)
    }

    fn is_led(&self, iri: &Name) -> bool
        ensures { result ≡ is_led (seen self.now) iri.now }
    {
        self.leads.contains_key(iri)
    }

    fn is_revised(&self, iri: &Name) -> bool
        ensures { result ≡ is_revised (seen self.now) iri.now }
    {
        self.revisions.contains_key(iri)
    }

    pub fn places(&self) -> u64
        ensures { result ≡ places (seen self.now) }
    {
        self.stored.len() as u64 + self.leads.len() as u64
    }

    fn requests_under_way(&self) -> u32
        ensures { result ≡ requests_under_way (seen self.now) }
    {
        self.index.busy
    }

    pub fn history_has_room(&self, limits: &Limits) -> bool
        ensures { result ≡ history_has_room limits.now (seen self.now) }
    {
        let events = self.events;
        let requests = u128::from(self.requests_under_way());
        u128::from(events) + 320 * (requests + 1) + 256 <= u128::from(limits.events)
    }

    pub fn archive_has_room(&self, limits: &Limits) -> bool
        ensures { result ≡ archive_has_room limits.now (seen self.now) }
    {
        let bytes = self.bytes;
        let flights = self.leads.len() as u128 + self.revisions.len() as u128;
        u128::from(bytes) + 1_050_624 * (flights + 1) <= u128::from(limits.bytes)
    }

    fn is_held(&self, iri: &Name) -> bool
        ensures { result ≡ is_held (seen self.now) iri.now }
    {
        self.index.holders.contains_key(iri)
    }

    pub fn least_holder(&self, iri: &Name) -> Option<u32>
        ensures { result ≡ least_holder (seen self.now) iri.now }
    {
        match self.index.holders.get(iri) {
            Some(set) => set.first().copied(),
            None => None,
        }
    }

    pub fn may_go(&self, iri: &Name) -> bool
        ensures { result ≡ may_go (seen self.now) iri.now }
    {
        !self.is_held(iri) && !self.is_revised(iri)
    }

    pub fn is_next_out(&self, iri: &Name) -> bool
        ensures { result ≡ is_next_out (seen self.now) iri.now }
    {
        match self.next_out() {
            Some(out) => *out == *iri,
            None => false,
        }
    }

    pub fn was_stored(&self, iri: &Name, version: u64) -> bool
        ensures { result ≡ was_stored (seen self.now) iri.now version }
    {
        match self.turns.get(iri) {
            Some(turns) => turns_until(turns.as_slice(), version) % 2 == 1,
            None => false,
        }
    }

    fn has_flight(&self, session: u32) -> bool
        requires { LeadIsLast (seen self.now) }
        ensures { result ≡ has_flight (seen self.now) session }
    {
        match self.session(session) {
            Some(s) => self.leads_now(session, s.last),
            None => false,
        }
    }

    fn leads_now(&self, session: u32, last: Last) -> bool
        ensures { result ≡ leads_now (seen self.now) session last }
    {
        match last {
            Last::Led { flight } | Last::ReviseLed { flight } => match self.flight(flight) {
                Some(f) => f.end.is_under_way() && f.session == session,
                None => false,
            },
            _ => false,
        }
    }

    pub fn is_stored_answer(&self, iri: &Name, given: &Answer) -> bool
        ensures { result ≡ is_stored_answer (seen self.now) iri.now given.now }
    {
        match self.stored.get(iri) {
            Some(stored) => stored.answer.is_same(given),
            None => false,
        }
    }

    pub fn may_open(&self, limits: &Limits, session: u32, seat: u32) -> bool
        ensures { result ≡ rules.may_open limits.now (seen self.now) session seat }
    {
        u64::from(session) == u64::from(self.opened) + 1
            && seat < 256
            && !self.is_taken(seat)
            && self.history_has_room(limits)
    }

    pub fn is_taken(&self, seat: u32) -> bool
        ensures { result ≡ is_taken (seen self.now) seat }
    {
        self.index.seats.contains_key(&seat)
    }

    pub fn end_of(&self, flight: u32) -> Option<End>
        ensures { result ≡ rules.end_of (seen self.now) flight }
    {
        match self.flight(flight) {
            Some(f) => Some(f.end),
            None => None,
        }
    }

    pub fn may_pin(
        &self,
        limits: &Limits,
        session: u32,
        request: u32,
        attempt: u32,
        version: u64,
    ) -> bool
        ensures { result ≡ rules.may_pin limits.now (seen self.now) session request attempt version }
    {
        match self.session(session) {
            Some(s) => version == self.version
                && (self.begins(limits, request, attempt, s) || self.goes_on(request, attempt, s)),
            None => false,
        }
    }

    fn begins(&self, limits: &Limits, request: u32, attempt: u32, s: &Session) -> bool
        ensures { result ≡ rules.begins limits.now (seen self.now) request attempt s.now }
    {
        s.last.is_idle()
            && u64::from(request) == u64::from(s.request) + 1
            && attempt == 1
            && self.history_has_room(limits)
    }

    fn goes_on(&self, request: u32, attempt: u32, s: &Session) -> bool
        ensures { result ≡ rules.goes_on (seen self.now) request attempt s.now }
    {
        request == s.request
            && u64::from(attempt) == u64::from(s.attempt) + 1
            && self.may_pin_again(s.last)
    }

    pub fn may_pin_again(&self, last: Last) -> bool
        ensures { result ≡ rules.may_pin_again (seen self.now) last }
    {
        match last {
            Last::Found => true,
            Last::Led { flight } | Last::Joined { flight } => match self.end_of(flight) {
                Some(end) => end.is_published(),
                None => false,
            },
            _ => false,
        }
    }

    fn lacks(&self, limits: &Limits, iri: &Name, s: &Session) -> bool
        ensures { result ≡ by_turns.lacks limits.now (seen self.now) iri.now s.now }
    {
        !self.was_stored(iri, s.version)
            && iri.as_iri().as_str().len() <= LONGEST_IRI
            && s.held.as_slice().len() < limits.held as usize
    }

    pub fn may_find(&self, limits: &Limits, session: u32, iri: &Name) -> bool
        ensures { result ≡ by_turns.may_find limits.now (seen self.now) session iri.now }
    {
        match self.session(session) {
            Some(s) => s.last.is_pinned() && self.lacks(limits, iri, s) && self.is_stored(iri),
            None => false,
        }
    }

    fn place_was_made(&self, limits: &Limits, session: u32, iri: &Name) -> bool
        ensures { result ≡ rules.place_was_made limits.now (seen self.now) session iri.now }
    {
        match &self.evicted {
            Some(e) => e.session == session
                && e.places == u64::from(limits.contexts)
                && e.next
                && e.iri != *iri,
            None => false,
        }
    }

    fn has_place(&self, limits: &Limits, iri: &Name, flight: u32) -> bool
        ensures { result ≡ rules.has_place limits.now (seen self.now) iri.now flight }
    {
        !self.is_stored(iri)
            && !self.is_led(iri)
            && self.places() < u64::from(limits.contexts)
            && self.archive_has_room(limits)
            && self.is_next(flight)
    }

    fn is_next(&self, flight: u32) -> bool
        ensures { result ≡ rules.is_next (seen self.now) flight }
    {
        flight as u64 == self.flights.len() as u64 + 1
    }

    pub fn may_lead(&self, limits: &Limits, session: u32, iri: &Name, flight: u32) -> bool
        ensures { result ≡ by_turns.may_lead limits.now (seen self.now) session iri.now flight }
    {
        match self.session(session) {
            Some(s) => (s.last.is_pinned() || self.place_was_made(limits, session, iri))
                && self.lacks(limits, iri, s)
                && self.has_place(limits, iri, flight),
            None => false,
        }
    }

    fn is_led_as(&self, iri: &Name, flight: u32) -> bool
        ensures { result ≡ rules.is_led_as (seen self.now) iri.now flight }
    {
        match self.leads.get(iri) {
            Some(lead) => lead.flight == flight,
            None => false,
        }
    }

    pub fn may_join(&self, limits: &Limits, session: u32, iri: &Name, flight: u32) -> bool
        ensures { result ≡ by_turns.may_join limits.now (seen self.now) session iri.now flight }
    {
        match self.session(session) {
            Some(s) => s.last.is_pinned()
                && self.lacks(limits, iri, s)
                && self.is_led_as(iri, flight),
            None => false,
        }
    }

    fn is_next_version(&self, version: u64) -> bool
        ensures { result ≡ rules.is_next_version (seen self.now) version }
    {
        u128::from(version) == u128::from(self.version) + 1
    }

    pub fn may_publish(&self, flight: u32, version: u64, given: &Answer) -> bool
        ensures { result ≡ rules.may_publish (seen self.now) flight version given.now }
    {
        match self.flight(flight) {
            Some(f) => f.end.is_under_way()
                && self.is_next_version(version)
                && given.length() <= OVERSIZE
                && (f.kind.is_lead() || !self.is_stored_answer(&f.iri, given)),
            None => false,
        }
    }

    fn is_flying(&self, flight: u32) -> bool
        ensures { result ≡ rules.is_flying (seen self.now) flight }
    {
        match self.flight(flight) {
            Some(f) => f.end.is_under_way(),
            None => false,
        }
    }

    pub fn may_fail(&self, flight: u32, before: u64, after: u64) -> bool
        ensures { result ≡ rules.may_fail (seen self.now) flight before after }
    {
        self.is_flying(flight)
            && after <= LAST_FAULT
            && (before < after || (before == LAST_FAULT && after == LAST_FAULT))
    }

    pub fn may_lapse(&self, flight: u32) -> bool
        ensures { result ≡ rules.may_lapse (seen self.now) flight }
    {
        self.is_flying(flight)
    }

    pub fn has_pinned(&self, session: u32) -> bool
        ensures { result ≡ rules.has_pinned (seen self.now) session }
    {
        match self.session(session) {
            Some(s) => s.last.is_pinned(),
            None => false,
        }
    }

    pub fn may_evict(&self, session: u32, iri: &Name, version: u64) -> bool
        ensures { result ≡ rules.may_evict (seen self.now) session iri.now version }
    {
        self.has_pinned(session)
            && self.is_stored(iri)
            && self.may_go(iri)
            && self.is_next_version(version)
    }

    pub fn may_revise(&self, limits: &Limits, session: u32, iri: &Name, flight: u32) -> bool
        ensures { result ≡ rules.may_revise limits.now (seen self.now) session iri.now flight }
    {
        self.has_pinned(session)
            && self.is_stored(iri)
            && !self.is_led(iri)
            && !self.is_revised(iri)
            && self.archive_has_room(limits)
            && self.is_next(flight)
    }

    pub fn may_be_same(&self, flight: u32, given: &Answer) -> bool
        ensures { result ≡ rules.may_be_same (seen self.now) flight given.now }
    {
        match self.flight(flight) {
            Some(f) => f.end.is_under_way()
                && !f.kind.is_lead()
                && self.is_stored_answer(&f.iri, given),
            None => false,
        }
    }

    fn is_revising(&self, flight: u32) -> bool
        ensures { result ≡ rules.is_revising (seen self.now) flight }
    {
        match self.flight(flight) {
            Some(f) => f.end.is_under_way() && !f.kind.is_lead(),
            None => false,
        }
    }

    fn has_failed(&self, flight: u32) -> bool
        ensures { result ≡ rules.has_failed (seen self.now) flight }
    {
        match self.end_of(flight) {
            Some(end) => end.is_failed(),
            None => false,
        }
    }

    pub fn is_full(&self, limits: &Limits) -> bool
        ensures { result ≡ rules.is_full limits.now (seen self.now) }
    {
        self.places() == u64::from(limits.contexts) && self.none_may_go()
    }

    fn none_may_go(&self) -> bool
        ensures { result ≡ rules.none_may_go (seen self.now) }
    {
        self.next_out().is_none()
    }

    fn is_least_holder(&self, iri: &Name, session: u32) -> bool
        ensures { result ≡ rules.is_least_holder (seen self.now) session iri.now }
    {
        self.least_holder(iri) == Some(session)
    }

    fn holds_first(&self, session: u32) -> bool
        ensures { result ≡ rules.holds_first (seen self.now) session }
    {
        match self.session(session) {
            Some(s) => self.is_first_of(session, s.held.as_slice()),
            None => false,
        }
    }

    /// Whether one of the IRIs is stored, and this is the least session that holds it.
    fn is_first_of(&self, session: u32, held: &[Name]) -> bool
        ensures { result ≡ list_any (λ iri. is_stored (seen self.now) iri && rules.is_least_holder (seen self.now) session iri) held.now }
    {
        held.iter().any(|iri| self.is_stored(iri) && self.is_least_holder(iri, session))
    }

    fn revised_as(&self, version: u64, last: Last) -> bool
        ensures { result ≡ rules.revised_as (seen self.now) version last }
    {
        match last {
            Last::ReviseLed { flight } => match self.end_of(flight) {
                Some(end) => end.is_published_as(version),
                None => false,
            },
            _ => false,
        }
    }

    fn revised_same(&self, last: Last) -> bool
        ensures { result ≡ rules.revised_same (seen self.now) last }
    {
        match last {
            Last::ReviseLed { flight } => match self.end_of(flight) {
                Some(end) => end.is_same(),
                None => false,
            },
            _ => false,
        }
    }

    fn may_say(&self, limits: &Limits, s: &Session, how: &How<Name>) -> bool
        ensures { result ≡ by_turns.may_say limits.now (seen self.now) s.now how.now }
    {
        match how {
            How::Done => s.last.is_pinned(),
            How::NoMemory => true,
            How::LoadFault { flight } => s.last.waits_for(*flight) && self.has_failed(*flight),
            How::TooMany { iri } => {
                s.last.is_pinned()
                    && s.held.as_slice().len() == limits.held as usize
                    && !self.was_stored(iri, s.version)
            }
            How::StoreFull => s.last.is_pinned() && self.is_full(limits),
            How::ArchiveFull { bytes } => s.last.is_pinned()
                && !self.archive_has_room(limits)
                && *bytes == self.bytes,
            How::NotStored { version } => s.last.is_pinned() && *version == self.version,
            How::Held { session } => s.last.is_pinned() && self.holds_first(*session),
            How::Revising { flight } | How::Flying { flight } => s.last.is_pinned()
                && self.is_revising(*flight),
            How::Evicted { version } => s.last.has_evicted(*version),
            How::Revised { version } => self.revised_as(*version, s.last),
            How::Same => self.revised_same(s.last),
        }
    }

    pub fn may_answer(&self, limits: &Limits, session: u32, request: u32, how: &How<Name>) -> bool
        requires { LeadIsLast (seen self.now) }
        ensures { result ≡ by_turns.may_answer limits.now (seen self.now) session request how.now }
    {
        match self.session(session) {
            Some(s) => s.has_request()
                && request == s.request
                && !self.has_flight(session)
                && self.may_say(limits, s, how),
            None => false,
        }
    }

    pub fn may_close(&self, session: u32) -> bool
        ensures { result ≡ rules.may_close (seen self.now) session }
    {
        match self.session(session) {
            Some(s) => s.last.is_idle(),
            None => false,
        }
    }
}

/// How many turns came with the version or before it, by halves.
fn turns_until(turns: &[u64], version: u64) -> usize
    requires { is_rising 0 turns.now ≡ true }
    ensures { result ≡ turns_until turns.now version }
{
    let mut low = 0;
    let mut high = turns.len();
    while low < high {
        let middle = low + (high - low) / 2;
        if turns[middle] <= version {
            low = middle + 1;
        } else {
            high = middle;
        }
    }
    low
}

impl Tables {
    /// Whether the rules allow the entry after the history that made these tables.
    pub fn allows(&self, limits: &Limits, entry: &Entry<Name, Answer>) -> bool
        requires { LeadIsLast (seen self.now) }
        ensures { result ≡ by_turns.allows limits.now (seen self.now) entry.now }
    {
        match &entry.given {
            Some(given) => self.allows_with(&entry.event, given),
            None => self.allows_alone(limits, &entry.event),
        }
    }

    fn allows_with(&self, event: &Event<Name>, given: &Answer) -> bool
        ensures { result ≡ rules.allows_with (seen self.now) given.now event.now }
    {
        match event {
            Event::Published { flight, version } => self.may_publish(*flight, *version, given),
            Event::Same { flight } => self.may_be_same(*flight, given),
            _ => false,
        }
    }

    fn allows_alone(&self, limits: &Limits, event: &Event<Name>) -> bool
        requires { LeadIsLast (seen self.now) }
        ensures { result ≡ by_turns.allows_alone limits.now (seen self.now) event.now }
    {
        match event {
            Event::Opened { session, seat } => self.may_open(limits, *session, *seat),
            Event::Pinned {
                session,
                request,
                attempt,
                version,
            } => self.may_pin(limits, *session, *request, *attempt, *version),
            Event::Found { session, iri } => self.may_find(limits, *session, iri),
            Event::Led {
                session,
                iri,
                flight,
            } => self.may_lead(limits, *session, iri, *flight),
            Event::Joined {
                session,
                iri,
                flight,
            } => self.may_join(limits, *session, iri, *flight),
            Event::Failed {
                flight,
                before,
                after,
            } => self.may_fail(*flight, *before, *after),
            Event::Lapsed { flight } => self.may_lapse(*flight),
            Event::Evicted {
                session,
                iri,
                version,
            } => self.may_evict(*session, iri, *version),
            Event::ReviseLed {
                session,
                iri,
                flight,
            } => self.may_revise(limits, *session, iri, *flight),
            Event::Answered {
                session,
                request,
                how,
            } => self.may_answer(limits, *session, *request, how),
            Event::Closed { session } => self.may_close(*session),
            Event::Published { .. } | Event::Same { .. } => false,
        }
    }
}
