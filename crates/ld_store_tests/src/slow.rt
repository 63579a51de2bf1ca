//! The rules once more, as plainly as can be: each question goes over the whole list of entries, and
//! nothing is remembered. Tests compare it with `step`.

use ld_history::{Answer, Entry, Event, Given, How, Limits, Name};

/// A legal history, under its limits.
#[derive(Clone, Copy)]
pub struct Slow<'a> {
    pub limits: Limits,
    pub entries: &'a [&'a Entry<Name, Answer>],
}

/// The event is one of those that may be a session's last own event, and is this session's.
fn is_own(event: &Event<Name>, of: u32) -> bool {
    match event {
        Event::Pinned { session, .. }
        | Event::Found { session, .. }
        | Event::Led { session, .. }
        | Event::Joined { session, .. }
        | Event::Evicted { session, .. }
        | Event::ReviseLed { session, .. }
        | Event::Answered { session, .. } => *session == of,
        _ => false,
    }
}

fn makes_version(event: &Event<Name>) -> bool {
    matches!(event, Event::Published { .. } | Event::Evicted { .. })
}

/// The number of the flight that begins.
fn begins(event: &Event<Name>) -> Option<u32> {
    match event {
        Event::Led { flight, .. } | Event::ReviseLed { flight, .. } => Some(*flight),
        _ => None,
    }
}

/// The number of the flight that ends.
fn ends(event: &Event<Name>) -> Option<u32> {
    match event {
        Event::Published { flight, .. }
        | Event::Failed { flight, .. }
        | Event::Lapsed { flight }
        | Event::Same { flight } => Some(*flight),
        _ => None,
    }
}

fn is(name: &Name, iri: &str) -> bool {
    name.as_iri().as_str() == iri
}

impl Slow<'_> {
    pub fn allows(&self, entry: &Entry) -> bool {
        match &entry.given {
            Some(given) => match &entry.event {
                Event::Published { flight, version } => {
                    self.may_publish(*flight, *version, given)
                }
                Event::Same { flight } => self.may_be_same(*flight, given),
                _ => false,
            },
            None => self.allows_alone(&entry.event),
        }
    }

    fn allows_alone(&self, event: &Event) -> bool {
        match event {
            Event::Opened { session, seat } => self.may_open(*session, *seat),
            Event::Pinned {
                session,
                request,
                attempt,
                version,
            } => self.may_pin(*session, *request, *attempt, *version),
            Event::Found { session, iri } => {
                let iri = iri.as_str();
                self.has_pinned(*session) && self.lacks(*session, iri) && self.is_stored(iri)
            }
            Event::Led {
                session,
                iri,
                flight,
            } => self.may_lead(*session, iri.as_str(), *flight),
            Event::Joined {
                session,
                iri,
                flight,
            } => {
                let iri = iri.as_str();
                self.has_pinned(*session)
                    && self.lacks(*session, iri)
                    && self.is_flight_for(*flight, iri, true)
            }
            Event::Failed {
                flight,
                before,
                after,
            } => self.may_fail(*flight, *before, *after),
            Event::Lapsed { flight } => self.is_flying(*flight),
            Event::Evicted {
                session,
                iri,
                version,
            } => self.may_evict(*session, iri.as_str(), *version),
            Event::ReviseLed {
                session,
                iri,
                flight,
            } => self.may_revise(*session, iri.as_str(), *flight),
            Event::Answered {
                session,
                request,
                how,
            } => self.may_answer(*session, *request, how),
            Event::Closed { session } => self.is_open(*session) && !self.has_request(*session),
            Event::Published { .. } | Event::Same { .. } => false,
        }
    }

    fn version(&self) -> u64 {
        self.entries
            .iter()
            .filter(|e| makes_version(&e.event))
            .count() as u64
    }

    fn sessions(&self) -> u32 {
        let mut greatest = 0;
        for entry in self.entries {
            if let Event::Opened { session, .. } = &entry.event {
                greatest = *session;
            }
        }
        greatest
    }

    fn is_open(&self, of: u32) -> bool {
        let mut open = false;
        for entry in self.entries {
            match &entry.event {
                Event::Opened { session, .. } if *session == of => open = true,
                Event::Closed { session } if *session == of => open = false,
                _ => {}
            }
        }
        open
    }

    fn is_taken(&self, wanted: u32) -> bool {
        for entry in self.entries {
            if let Event::Opened { session, seat } = &entry.event {
                if *seat == wanted && self.is_open(*session) {
                    return true;
                }
            }
        }
        false
    }

    fn last(&self, session: u32) -> Option<&Event<Name>> {
        for entry in self.entries.iter().rev() {
            if is_own(&entry.event, session) {
                return Some(&entry.event);
            }
        }
        None
    }

    fn has_request(&self, session: u32) -> bool {
        match self.last(session) {
            Some(event) => !matches!(event, Event::Answered { .. }),
            None => false,
        }
    }

    fn has_pinned(&self, session: u32) -> bool {
        match self.last(session) {
            Some(event) => matches!(event, Event::Pinned { .. }),
            None => false,
        }
    }

    /// The session's last pin: request, attempt and version.
    fn pin(&self, of: u32) -> Option<(u32, u32, u64)> {
        for entry in self.entries.iter().rev() {
            if let Event::Pinned {
                session,
                request,
                attempt,
                version,
            } = &entry.event
            {
                if *session == of {
                    return Some((*request, *attempt, *version));
                }
            }
        }
        None
    }

    /// What the session's request under way found, led or joined: only the IRI that is asked for, or all.
    fn held(&self, of: u32, asked: Option<&str>) -> usize {
        let mut count = 0usize;
        for entry in self.entries {
            match &entry.event {
                Event::Answered { session, .. } if *session == of => count = 0,
                Event::Found { session, iri }
                | Event::Led { session, iri, .. }
                | Event::Joined { session, iri, .. }
                    if *session == of => {
                    if asked.is_none() || asked == Some(iri.as_iri().as_str()) {
                        count = count.saturating_add(1);
                    }
                }
                _ => {}
            }
        }
        count
    }

    fn holds(&self, session: u32, iri: &str) -> bool {
        self.is_open(session) && self.held(session, Some(iri)) > 0
    }

    fn least_holder(&self, iri: &str) -> Option<u32> {
        for session in 1..=self.sessions() {
            if self.holds(session, iri) {
                return Some(session);
            }
        }
        None
    }

    fn requests_under_way(&self) -> u128 {
        let mut count: u128 = 0;
        for session in 1..=self.sessions() {
            if self.is_open(session) && self.has_request(session) {
                count = count.saturating_add(1);
            }
        }
        count
    }

    fn flight(&self, number: u32) -> Option<&Event<Name>> {
        for entry in self.entries {
            if begins(&entry.event) == Some(number) {
                return Some(&entry.event);
            }
        }
        None
    }

    fn end(&self, number: u32) -> Option<&Event<Name>> {
        for entry in self.entries {
            if ends(&entry.event) == Some(number) {
                return Some(&entry.event);
            }
        }
        None
    }

    fn is_flying(&self, number: u32) -> bool {
        self.flight(number).is_some() && self.end(number).is_none()
    }

    /// The flight is under way for this IRI: a Lead, or a Revise.
    fn is_flight_for(&self, number: u32, wanted: &str, lead: bool) -> bool {
        match self.flight(number) {
            Some(Event::Led { iri, .. }) => lead && is(iri, wanted) && self.is_flying(number),
            Some(Event::ReviseLed { iri, .. }) => {
                !lead && is(iri, wanted) && self.is_flying(number)
            }
            _ => false,
        }
    }

    fn is_revising(&self, number: u32) -> bool {
        match self.flight(number) {
            Some(Event::ReviseLed { .. }) => self.is_flying(number),
            _ => false,
        }
    }

    fn flights(&self) -> u32 {
        let mut greatest = 0;
        for entry in self.entries {
            if let Some(number) = begins(&entry.event) {
                greatest = number;
            }
        }
        greatest
    }

    fn has_flight_for(&self, iri: &str, lead: bool) -> bool {
        (1..=self.flights()).any(|number| self.is_flight_for(number, iri, lead))
    }

    fn flights_under_way(&self) -> u128 {
        let mut count: u128 = 0;
        for number in 1..=self.flights() {
            if self.is_flying(number) {
                count = count.saturating_add(1);
            }
        }
        count
    }

    fn has_flight(&self, of: u32) -> bool {
        for entry in self.entries {
            match &entry.event {
                Event::Led {
                    session,
                    flight,
                    ..
                }
                | Event::ReviseLed {
                    session,
                    flight,
                    ..
                } if *session == of && self.is_flying(*flight) => return true,
                _ => {}
            }
        }
        false
    }

    /// The flight is for this IRI, under way or ended.
    fn was_for(&self, number: u32, wanted: &str) -> bool {
        match self.flight(number) {
            Some(Event::Led { iri, .. } | Event::ReviseLed { iri, .. }) => is(iri, wanted),
            _ => false,
        }
    }

    /// The entry that published what is stored for the IRI in the version.
    fn stored_at(&self, wanted: &str, at: u64) -> Option<&Entry<Name, Answer>> {
        for entry in self.entries.iter().rev() {
            match &entry.event {
                Event::Published { flight, version }
                    if *version <= at && self.was_for(*flight, wanted) => {
                    return Some(entry);
                }
                Event::Evicted { iri, version, .. } if *version <= at && is(iri, wanted) => {
                    return None;
                }
                _ => {}
            }
        }
        None
    }

    fn stored(&self, iri: &str) -> Option<&Entry<Name, Answer>> {
        self.stored_at(iri, u64::MAX)
    }

    fn is_stored(&self, iri: &str) -> bool {
        self.stored(iri).is_some()
    }

    fn is_stored_answer(&self, iri: &str, given: &Given) -> bool {
        match self.stored(iri) {
            Some(
                Entry {
                    given: Some(stored),
                    ..
                },
            ) => {
                *stored.url().as_iri() == given.url
                    && stored.length() == given.length
                    && *stored.mark() == given.mark
            }
            _ => false,
        }
    }

    /// The version at which what is stored for the IRI was published.
    fn published(&self, iri: &str) -> Option<u64> {
        match self.stored(iri) {
            Some(
                Entry {
                    event: Event::Published { version, .. },
                    ..
                },
            ) => Some(*version),
            _ => None,
        }
    }

    /// The flight is the first that was led for its IRI.
    fn is_first(&self, number: u32, wanted: &str) -> bool {
        for entry in self.entries {
            match &entry.event {
                Event::Led { iri, flight, .. } if is(iri, wanted) => return *flight == number,
                _ => {}
            }
        }
        false
    }

    /// Stored IRIs, and Lead flights under way.
    fn places(&self) -> u128 {
        let mut count: u128 = 0;
        for entry in self.entries {
            if let Event::Led { iri, flight, .. } = &entry.event {
                let iri = iri.as_iri().as_str();
                if self.is_first(*flight, iri) && self.is_stored(iri) {
                    count = count.saturating_add(1);
                }
                if self.is_flying(*flight) {
                    count = count.saturating_add(1);
                }
            }
        }
        count
    }

    fn kept_bytes(&self) -> u128 {
        let mut sum: u128 = 0;
        for entry in self.entries {
            match &entry.event {
                Event::Led { iri, flight, .. } => {
                    let iri = iri.as_iri().as_str();
                    if self.is_first(*flight, iri) {
                        sum = sum.saturating_add(iri.len() as u128);
                    }
                }
                Event::Published { .. } => sum = sum.saturating_add(kept_length(entry)),
                _ => {}
            }
        }
        sum
    }

    fn history_has_room(&self) -> bool {
        let begun = self
            .requests_under_way()
            .saturating_add(1)
            .saturating_mul(320);
        let sum = begun
            .saturating_add(self.entries.len() as u128)
            .saturating_add(256);
        sum <= u128::from(self.limits.events)
    }

    fn archive_has_room(&self) -> bool {
        let begun = self
            .flights_under_way()
            .saturating_add(1)
            .saturating_mul(1_050_624);
        begun.saturating_add(self.kept_bytes()) <= u128::from(self.limits.bytes)
    }

    fn may_go(&self, iri: &str) -> bool {
        self.least_holder(iri).is_none() && !self.has_flight_for(iri, false)
    }

    /// A stored IRI may go that was published before this version.
    fn may_go_before(&self, before: u64) -> bool {
        for entry in self.entries {
            if let Event::Led { iri, .. } = &entry.event {
                let iri = iri.as_iri().as_str();
                match self.published(iri) {
                    Some(version) if version < before && self.may_go(iri) => return true,
                    _ => {}
                }
            }
        }
        false
    }

    fn is_next_out(&self, iri: &str) -> bool {
        match self.published(iri) {
            Some(version) => self.may_go(iri) && !self.may_go_before(version),
            None => false,
        }
    }

    fn may_open(&self, session: u32, seat: u32) -> bool {
        session.checked_sub(1) == Some(self.sessions())
            && seat < 256
            && !self.is_taken(seat)
            && self.history_has_room()
    }

    fn may_pin(&self, session: u32, request: u32, attempt: u32, version: u64) -> bool {
        let (last_request, last_attempt) = match self.pin(session) {
            Some((request, attempt, _)) => (request, attempt),
            None => (0, 0),
        };
        let begins = !self.has_request(session)
            && request.checked_sub(1) == Some(last_request)
            && attempt == 1
            && self.history_has_room();
        let goes_on = self.may_pin_again(session)
            && request == last_request
            && attempt.checked_sub(1) == Some(last_attempt);
        self.is_open(session) && version == self.version() && (begins || goes_on)
    }

    fn may_pin_again(&self, session: u32) -> bool {
        match self.last(session) {
            Some(Event::Found { .. }) => true,
            Some(Event::Led { flight, .. } | Event::Joined { flight, .. }) => {
                matches!(self.end(*flight), Some(Event::Published { .. }))
            }
            _ => false,
        }
    }

    fn lacks(&self, session: u32, iri: &str) -> bool {
        let lacked = match self.pin(session) {
            Some((_, _, version)) => self.stored_at(iri, version).is_none(),
            None => false,
        };
        lacked && iri.len() <= 2048 && self.held(session, None) < self.limits.held as usize
    }

    fn may_lead(&self, session: u32, iri: &str, flight: u32) -> bool {
        (self.has_pinned(session) || self.made_place(session, iri))
            && self.lacks(session, iri)
            && !self.is_stored(iri)
            && !self.has_flight_for(iri, true)
            && self.places() < u128::from(self.limits.contexts)
            && self.archive_has_room()
            && flight.checked_sub(1) == Some(self.flights())
    }

    /// The entry just before is this session's Evicted of the next in order, out of a full store.
    fn made_place(&self, of: u32, wanted: &str) -> bool {
        let Some((last, before)) = self.entries.split_last() else {
            return false;
        };
        let before = Slow {
            limits: self.limits,
            entries: before,
        };
        match &last.event {
            Event::Evicted { session, iri, .. } => {
                *session == of
                    && !is(iri, wanted)
                    && before.places() == u128::from(self.limits.contexts)
                    && before.is_next_out(iri.as_iri().as_str())
            }
            _ => false,
        }
    }

    fn may_publish(&self, flight: u32, version: u64, given: &Given) -> bool {
        let differs = match self.flight(flight) {
            Some(Event::ReviseLed { iri, .. }) => {
                !self.is_stored_answer(iri.as_iri().as_str(), given)
            }
            _ => true,
        };
        self.is_flying(flight)
            && version.checked_sub(1) == Some(self.version())
            && given.length <= 1_048_577
            && differs
    }

    fn may_be_same(&self, flight: u32, given: &Given) -> bool {
        match self.flight(flight) {
            Some(Event::ReviseLed { iri, .. }) => {
                self.is_flying(flight) && self.is_stored_answer(iri.as_iri().as_str(), given)
            }
            _ => false,
        }
    }

    fn may_fail(&self, flight: u32, before: u64, after: u64) -> bool {
        let last = 0x7fff_ffff_ffff_ffff;
        self.is_flying(flight)
            && after <= last
            && (before < after || (before == last && after == last))
    }

    fn may_evict(&self, session: u32, iri: &str, version: u64) -> bool {
        self.has_pinned(session)
            && self.is_stored(iri)
            && self.may_go(iri)
            && version.checked_sub(1) == Some(self.version())
    }

    fn may_revise(&self, session: u32, iri: &str, flight: u32) -> bool {
        self.has_pinned(session)
            && self.is_stored(iri)
            && !self.has_flight_for(iri, true)
            && !self.has_flight_for(iri, false)
            && self.archive_has_room()
            && flight.checked_sub(1) == Some(self.flights())
    }

    fn may_answer(&self, session: u32, request: u32, how: &How) -> bool {
        let is_its = match self.pin(session) {
            Some((last, _, _)) => request == last,
            None => false,
        };
        self.is_open(session)
            && self.has_request(session)
            && is_its
            && !self.has_flight(session)
            && self.may_say(session, how)
    }

    fn may_say(&self, session: u32, how: &How) -> bool {
        match how {
            How::NoMemory => true,
            How::LoadFault { flight } => {
                self.waits_for(session, *flight)
                    && matches!(self.end(*flight), Some(Event::Failed { .. }))
            }
            How::Evicted { version } => match self.last(session) {
                Some(Event::Evicted { version: made, .. }) => made == version,
                _ => false,
            },
            How::Revised { version } => match self.revision_end(session) {
                Some(Event::Published { version: made, .. }) => made == version,
                _ => false,
            },
            How::Same => matches!(self.revision_end(session), Some(Event::Same { .. })),
            _ => self.has_pinned(session) && self.may_say_pinned(session, how),
        }
    }

    fn may_say_pinned(&self, session: u32, how: &How) -> bool {
        match how {
            How::Done => true,
            How::TooMany { iri } => self.may_say_too_many(session, iri.as_str()),
            How::StoreFull => {
                self.places() == u128::from(self.limits.contexts) && !self.may_go_before(u64::MAX)
            }
            How::ArchiveFull { bytes } => {
                !self.archive_has_room() && u128::from(*bytes) == self.kept_bytes()
            }
            How::NotStored { version } => *version == self.version(),
            How::Held { session } => self.holds_first(*session),
            How::Revising { flight } | How::Flying { flight } => self.is_revising(*flight),
            _ => false,
        }
    }

    fn may_say_too_many(&self, session: u32, iri: &str) -> bool {
        let lacked = match self.pin(session) {
            Some((_, _, version)) => self.stored_at(iri, version).is_none(),
            None => false,
        };
        lacked && self.held(session, None) == self.limits.held as usize
    }

    /// Some stored IRI is held, and this is the least session that holds it.
    fn holds_first(&self, session: u32) -> bool {
        for entry in self.entries {
            if let Event::Led { iri, .. } = &entry.event {
                let iri = iri.as_iri().as_str();
                if self.is_stored(iri) && self.least_holder(iri) == Some(session) {
                    return true;
                }
            }
        }
        false
    }

    fn waits_for(&self, session: u32, wanted: u32) -> bool {
        match self.last(session) {
            Some(
                Event::Led { flight, .. }
                | Event::Joined { flight, .. }
                | Event::ReviseLed { flight, .. },
            ) => *flight == wanted,
            _ => false,
        }
    }

    /// How the revision ended that is the session's last own event.
    fn revision_end(&self, session: u32) -> Option<&Event<Name>> {
        match self.last(session) {
            Some(Event::ReviseLed { flight, .. }) => self.end(*flight),
            _ => None,
        }
    }
}

/// What a Published entry's text counts: an oversize one isn't kept.
fn kept_length(entry: &Entry<Name, Answer>) -> u128 {
    match &entry.given {
        Some(given) if given.length() <= 1_048_576 => { u128::from(given.length()) }
        _ => 0,
    }
}
