ghost use Rattle.ld_history.specs.Legal.{AreWithin};

use crate::slow::Slow;
use ld_history::{Entry, Event, Given, How, Limits, State, StepRefusal, step};
use ld_tree::{Items, Text};
use std::alloc::Global;
use std::process::Abort;

/// The server's limits, but for 2 contexts.
fn two() -> Limits
    ensures { AreWithin result }
{
    Limits {
        contexts: 2,
        held: 64,
        events: 16_777_216,
        bytes: 134_217_728,
    }
}

fn few_events() -> Limits
    ensures { AreWithin result }
{
    Limits {
        contexts: 2,
        held: 64,
        events: 576,
        bytes: 134_217_728,
    }
}

fn few_bytes() -> Limits
    ensures { AreWithin result }
{
    Limits {
        contexts: 2,
        held: 64,
        events: 16_777_216,
        bytes: 1_050_624,
    }
}

fn one_held() -> Limits
    ensures { AreWithin result }
{
    Limits {
        contexts: 2,
        held: 1,
        events: 16_777_216,
        bytes: 134_217_728,
    }
}

fn plain(event: Event) -> Entry {
    Entry { event, given: None }
}

fn opened(session: u32, seat: u32) -> Entry {
    plain(Event::Opened { session, seat })
}

fn pinned(session: u32, request: u32, attempt: u32, version: u64) -> Entry {
    plain(Event::Pinned {
        session,
        request,
        attempt,
        version,
    })
}

fn text(rt: &impl Abort, alloc: Global, text: &str) -> Text {
    Text::from_str(alloc, text).expect(rt, "memory")
}

fn found(rt: &impl Abort, alloc: Global, session: u32, iri: &str) -> Entry {
    let iri = text(rt, alloc, iri);
    plain(Event::Found { session, iri })
}

fn led(rt: &impl Abort, alloc: Global, session: u32, iri: &str, flight: u32) -> Entry {
    let iri = text(rt, alloc, iri);
    plain(Event::Led {
        session,
        iri,
        flight,
    })
}

fn joined(rt: &impl Abort, alloc: Global, session: u32, iri: &str, flight: u32) -> Entry {
    let iri = text(rt, alloc, iri);
    plain(Event::Joined {
        session,
        iri,
        flight,
    })
}

fn evicted(rt: &impl Abort, alloc: Global, session: u32, iri: &str, version: u64) -> Entry {
    let iri = text(rt, alloc, iri);
    plain(Event::Evicted {
        session,
        iri,
        version,
    })
}

fn revise_led(rt: &impl Abort, alloc: Global, session: u32, iri: &str, flight: u32) -> Entry {
    let iri = text(rt, alloc, iri);
    plain(Event::ReviseLed {
        session,
        iri,
        flight,
    })
}

fn answered(session: u32, request: u32, how: How) -> Entry {
    plain(Event::Answered {
        session,
        request,
        how,
    })
}

fn too_many(rt: &impl Abort, alloc: Global, session: u32, request: u32, iri: &str) -> Entry {
    let iri = text(rt, alloc, iri);
    answered(session, request, How::TooMany { iri })
}

fn closed(session: u32) -> Entry {
    plain(Event::Closed { session })
}

fn failed(flight: u32, before: u64, after: u64) -> Entry {
    plain(Event::Failed {
        flight,
        before,
        after,
    })
}

/// An answer from the IRI itself, with the mark `m`.
fn given(rt: &impl Abort, alloc: Global, iri: &str, length: u32) -> Option<Given> {
    let mut mark = Items::new(alloc);
    assert!(rt; mark.push(b'm').is_ok());
    let url = text(rt, alloc, iri);
    Some(Given { url, length, mark })
}

fn published(
    rt: &impl Abort,
    alloc: Global,
    flight: u32,
    version: u64,
    iri: &str,
    length: u32,
) -> Entry {
    let event = Event::Published { flight, version };
    let given = given(rt, alloc, iri, length);
    Entry { event, given }
}

fn same(rt: &impl Abort, alloc: Global, flight: u32, iri: &str, length: u32) -> Entry {
    let event = Event::Same { flight };
    let given = given(rt, alloc, iri, length);
    Entry { event, given }
}

fn begin(rt: &impl Abort, alloc: Global, limits: Limits) -> State
    requires { AreWithin limits }
{
    State::new(alloc, limits).expect(rt, "memory")
}

/// What the plain program says of the entry.
fn plainly(rt: &impl Abort, alloc: Global, state: &State, entry: &Entry) -> bool {
    let mut entries = Vec::new(alloc);
    for place in 0..state.events() {
        let kept = state.entry(place).expect(rt, "an entry");
        assert!(rt; entries.push(kept).is_ok());
    }
    let slow = Slow {
        limits: state.limits(),
        entries: entries.as_slice(),
    };
    slow.allows(entry)
}

/// The entry has to be allowed.
fn may(rt: &impl Abort, alloc: Global, state: &mut State, entry: Entry) {
    assert!(rt; plainly(rt, alloc, state, &entry));
    let outcome = step(alloc, state, entry);
    assert_eq!(rt; outcome, Ok(()));
}

/// The entry has to be refused, for want of what the words name.
fn may_not(rt: &impl Abort, alloc: Global, state: &mut State, entry: Entry, why: &str) {
    let before = state.events();
    assert!(rt; !plainly(rt, alloc, state, &entry), "{why}");
    let outcome = step(alloc, state, entry);
    assert_eq!(rt; outcome, Err(StepRefusal::NotAllowed), "{why}");
    assert_eq!(rt; state.events(), before, "{why}");
}

/// Two sessions, of which the first leads a flight for x that the second joins.
fn shared_flight(rt: &impl Abort, alloc: Global, limits: Limits) -> State
    requires { AreWithin limits }
{
    let mut state = begin(rt, alloc, limits);
    may(rt, alloc, &mut state, opened(1, 0));
    may(rt, alloc, &mut state, opened(2, 1));
    may(rt, alloc, &mut state, pinned(1, 1, 1, 0));
    may(rt, alloc, &mut state, pinned(2, 1, 1, 0));
    may(rt, alloc, &mut state, led(rt, alloc, 1, "x", 1));
    may(rt, alloc, &mut state, joined(rt, alloc, 2, "x", 1));
    state
}

#[test]
fn a_flight_is_shared(rt: HostRuntime) {
    let alloc = rt.alloc();
    let mut state = shared_flight(&rt, alloc, Limits::server());
    may(&rt, alloc, &mut state, published(&rt, alloc, 1, 1, "x", 10));
    may(&rt, alloc, &mut state, pinned(1, 1, 2, 1));
    may(&rt, alloc, &mut state, pinned(2, 1, 2, 1));
    may(&rt, alloc, &mut state, answered(1, 1, How::Done));
    may(&rt, alloc, &mut state, answered(2, 1, How::Done));
    may(&rt, alloc, &mut state, closed(1));
    may(&rt, alloc, &mut state, closed(2));
}

/// The first session holds x at version 1, and the second has pinned that version.
fn held(rt: &impl Abort, alloc: Global, limits: Limits) -> State
    requires { AreWithin limits }
{
    let mut state = begin(rt, alloc, limits);
    may(rt, alloc, &mut state, opened(1, 0));
    may(rt, alloc, &mut state, opened(2, 1));
    may(rt, alloc, &mut state, pinned(1, 1, 1, 0));
    may(rt, alloc, &mut state, led(rt, alloc, 1, "x", 1));
    may(rt, alloc, &mut state, published(rt, alloc, 1, 1, "x", 3));
    may(rt, alloc, &mut state, pinned(1, 1, 2, 1));
    may(rt, alloc, &mut state, pinned(2, 1, 1, 1));
    state
}

#[test]
fn a_held_context_stays(rt: HostRuntime) {
    let alloc = rt.alloc();
    let mut state = held(&rt, alloc, Limits::server());
    may(
        &rt,
        alloc,
        &mut state,
        answered(2, 1, How::Held { session: 1 }),
    );
    may(&rt, alloc, &mut state, answered(1, 1, How::Done));
    may(&rt, alloc, &mut state, pinned(2, 2, 1, 1));
    may(&rt, alloc, &mut state, evicted(&rt, alloc, 2, "x", 2));
    may(
        &rt,
        alloc,
        &mut state,
        answered(2, 2, How::Evicted { version: 2 }),
    );
    may(&rt, alloc, &mut state, pinned(2, 3, 1, 2));
    may(
        &rt,
        alloc,
        &mut state,
        answered(2, 3, How::NotStored { version: 2 }),
    );
}

/// Two contexts, which fill the store, are held by the first session, and the second lacks a third.
fn full(rt: &impl Abort, alloc: Global, limits: Limits) -> State
    requires { AreWithin limits }
{
    let mut state = begin(rt, alloc, limits);
    may(rt, alloc, &mut state, opened(1, 0));
    may(rt, alloc, &mut state, opened(2, 1));
    may(rt, alloc, &mut state, pinned(1, 1, 1, 0));
    may(rt, alloc, &mut state, led(rt, alloc, 1, "a", 1));
    may(rt, alloc, &mut state, published(rt, alloc, 1, 1, "a", 3));
    may(rt, alloc, &mut state, pinned(1, 1, 2, 1));
    may(rt, alloc, &mut state, led(rt, alloc, 1, "b", 2));
    may(rt, alloc, &mut state, published(rt, alloc, 2, 2, "b", 3));
    may(rt, alloc, &mut state, pinned(1, 1, 3, 2));
    may(rt, alloc, &mut state, pinned(2, 1, 1, 2));
    state
}

#[test]
fn a_full_store_makes_place(rt: HostRuntime) {
    let alloc = rt.alloc();
    let mut state = full(&rt, alloc, two());
    may(&rt, alloc, &mut state, answered(2, 1, How::StoreFull));
    may(&rt, alloc, &mut state, answered(1, 1, How::Done));
    may(&rt, alloc, &mut state, pinned(2, 2, 1, 2));
    may(&rt, alloc, &mut state, evicted(&rt, alloc, 2, "a", 3));
    may(&rt, alloc, &mut state, led(&rt, alloc, 2, "c", 3));
    may(&rt, alloc, &mut state, published(&rt, alloc, 3, 4, "c", 3));
}

#[test]
fn the_history_may_be_full(rt: HostRuntime) {
    let alloc = rt.alloc();
    let mut state = begin(&rt, alloc, few_events());
    may(&rt, alloc, &mut state, opened(1, 0));
    may_not(&rt, alloc, &mut state, pinned(1, 1, 1, 0), "no room");
}

#[test]
fn the_archive_may_be_full(rt: HostRuntime) {
    let alloc = rt.alloc();
    let mut state = begin(&rt, alloc, few_bytes());
    may(&rt, alloc, &mut state, opened(1, 0));
    may(&rt, alloc, &mut state, opened(2, 1));
    may(&rt, alloc, &mut state, pinned(1, 1, 1, 0));
    may(&rt, alloc, &mut state, pinned(2, 1, 1, 0));
    may(&rt, alloc, &mut state, led(&rt, alloc, 1, "a", 1));
    may_not(
        &rt,
        alloc,
        &mut state,
        led(&rt, alloc, 2, "b", 2),
        "no room",
    );
    may(
        &rt,
        alloc,
        &mut state,
        answered(2, 1, How::ArchiveFull { bytes: 1 }),
    );
}

/// A revision that finds the same, and one that fails.
#[test]
fn revisions_change_nothing(rt: HostRuntime) {
    let alloc = rt.alloc();
    let mut state = held(&rt, alloc, Limits::server());
    may(&rt, alloc, &mut state, revise_led(&rt, alloc, 2, "x", 2));
    may(&rt, alloc, &mut state, same(&rt, alloc, 2, "x", 3));
    may(&rt, alloc, &mut state, answered(2, 1, How::Same));
    may(&rt, alloc, &mut state, pinned(2, 2, 1, 1));
    may(&rt, alloc, &mut state, revise_led(&rt, alloc, 2, "x", 3));
    may(&rt, alloc, &mut state, failed(3, 0, 1));
    may(
        &rt,
        alloc,
        &mut state,
        answered(2, 2, How::LoadFault { flight: 3 }),
    );
}

/// A revision that brings another answer.
#[test]
fn a_revision_is_published(rt: HostRuntime) {
    let alloc = rt.alloc();
    let mut state = held(&rt, alloc, Limits::server());
    may(&rt, alloc, &mut state, revise_led(&rt, alloc, 2, "x", 2));
    may(
        &rt,
        alloc,
        &mut state,
        answered(1, 1, How::Flying { flight: 2 }),
    );
    may(&rt, alloc, &mut state, pinned(1, 2, 1, 1));
    may(
        &rt,
        alloc,
        &mut state,
        answered(1, 2, How::Revising { flight: 2 }),
    );
    may_not(
        &rt,
        alloc,
        &mut state,
        same(&rt, alloc, 2, "x", 4),
        "the answer differs",
    );
    may(&rt, alloc, &mut state, published(&rt, alloc, 2, 2, "x", 4));
    may(
        &rt,
        alloc,
        &mut state,
        answered(2, 1, How::Revised { version: 2 }),
    );
    may(&rt, alloc, &mut state, pinned(2, 2, 1, 2));
    may(&rt, alloc, &mut state, answered(2, 2, How::NoMemory));
}

#[test]
fn one_condition_broken_of_opening(rt: HostRuntime) {
    let alloc = rt.alloc();
    let mut state = begin(&rt, alloc, Limits::server());
    may_not(&rt, alloc, &mut state, opened(2, 0), "not the next number");
    may_not(&rt, alloc, &mut state, opened(1, 256), "no seat");
    may_not(&rt, alloc, &mut state, closed(1), "not open");
    may_not(&rt, alloc, &mut state, pinned(1, 1, 1, 0), "not open");
    may(&rt, alloc, &mut state, opened(1, 0));
    may_not(&rt, alloc, &mut state, opened(2, 0), "a seat that is taken");
    may_not(
        &rt,
        alloc,
        &mut state,
        pinned(1, 1, 1, 1),
        "not the current version",
    );
    may_not(
        &rt,
        alloc,
        &mut state,
        pinned(1, 2, 1, 0),
        "not the next request",
    );
    may_not(
        &rt,
        alloc,
        &mut state,
        pinned(1, 1, 2, 0),
        "not the first attempt",
    );
    may(&rt, alloc, &mut state, pinned(1, 1, 1, 0));
    may_not(&rt, alloc, &mut state, closed(1), "a request under way");
}

#[test]
fn one_condition_broken_of_requests(rt: HostRuntime) {
    let alloc = rt.alloc();
    let mut state = held(&rt, alloc, Limits::server());
    may_not(
        &rt,
        alloc,
        &mut state,
        pinned(1, 1, 3, 1),
        "nothing was lacked since the pin",
    );
    may_not(
        &rt,
        alloc,
        &mut state,
        answered(2, 2, How::Done),
        "another request",
    );
}

#[test]
fn one_condition_broken_in_flight(rt: HostRuntime) {
    let alloc = rt.alloc();
    let mut state = shared_flight(&rt, alloc, Limits::server());
    may_not(
        &rt,
        alloc,
        &mut state,
        pinned(1, 1, 2, 0),
        "the flight is under way",
    );
    may_not(
        &rt,
        alloc,
        &mut state,
        answered(1, 1, How::NoMemory),
        "a flight that it led is under way",
    );
    may_not(
        &rt,
        alloc,
        &mut state,
        answered(2, 1, How::Done),
        "the last own event is Joined",
    );
    may_not(
        &rt,
        alloc,
        &mut state,
        joined(&rt, alloc, 2, "x", 1),
        "not pinned",
    );
}

#[test]
fn one_condition_broken_of_contexts(rt: HostRuntime) {
    let alloc = rt.alloc();
    let mut state = held(&rt, alloc, Limits::server());
    may_not(
        &rt,
        alloc,
        &mut state,
        found(&rt, alloc, 2, "x"),
        "the pinned version has it",
    );
    may_not(
        &rt,
        alloc,
        &mut state,
        found(&rt, alloc, 2, "y"),
        "not stored",
    );
    may_not(&rt, alloc, &mut state, led(&rt, alloc, 2, "x", 2), "stored");
    may_not(
        &rt,
        alloc,
        &mut state,
        led(&rt, alloc, 2, "y", 3),
        "not the next flight",
    );
    may_not(
        &rt,
        alloc,
        &mut state,
        joined(&rt, alloc, 2, "y", 1),
        "in no flight under way",
    );
    may_not(
        &rt,
        alloc,
        &mut state,
        evicted(&rt, alloc, 2, "x", 2),
        "held",
    );
    may_not(
        &rt,
        alloc,
        &mut state,
        evicted(&rt, alloc, 2, "y", 2),
        "not stored",
    );
    may_not(
        &rt,
        alloc,
        &mut state,
        revise_led(&rt, alloc, 2, "y", 2),
        "not stored",
    );
    may_not(
        &rt,
        alloc,
        &mut state,
        revise_led(&rt, alloc, 2, "x", 1),
        "not the next flight",
    );
}

#[test]
fn no_more_are_held(rt: HostRuntime) {
    let alloc = rt.alloc();
    let mut state = held(&rt, alloc, one_held());
    may_not(
        &rt,
        alloc,
        &mut state,
        led(&rt, alloc, 1, "y", 2),
        "as many are held as may be",
    );
    may_not(
        &rt,
        alloc,
        &mut state,
        too_many(&rt, alloc, 1, 1, "x"),
        "the pinned version has it",
    );
    may(&rt, alloc, &mut state, too_many(&rt, alloc, 1, 1, "y"));
}

#[test]
fn no_more_are_stored(rt: HostRuntime) {
    let alloc = rt.alloc();
    let mut state = full(&rt, alloc, two());
    may_not(
        &rt,
        alloc,
        &mut state,
        led(&rt, alloc, 2, "c", 3),
        "no place",
    );
}

#[test]
fn one_condition_broken_of_flights(rt: HostRuntime) {
    let alloc = rt.alloc();
    let mut state = shared_flight(&rt, alloc, Limits::server());
    may_not(
        &rt,
        alloc,
        &mut state,
        published(&rt, alloc, 2, 1, "x", 3),
        "no flight",
    );
    may_not(
        &rt,
        alloc,
        &mut state,
        published(&rt, alloc, 1, 2, "x", 3),
        "a version is left out",
    );
    may_not(
        &rt,
        alloc,
        &mut state,
        published(&rt, alloc, 1, 1, "x", 1_048_578),
        "too long",
    );
    may_not(
        &rt,
        alloc,
        &mut state,
        plain(Event::Published {
            flight: 1,
            version: 1,
        }),
        "no answer",
    );
    may_not(
        &rt,
        alloc,
        &mut state,
        same(&rt, alloc, 1, "x", 3),
        "no revision",
    );
    may_not(&rt, alloc, &mut state, failed(1, 1, 1), "no fault");
    may_not(
        &rt,
        alloc,
        &mut state,
        failed(1, 0, 1 << 63),
        "past the greatest count",
    );
}

#[test]
fn one_condition_broken_of_ended_flights(rt: HostRuntime) {
    let alloc = rt.alloc();
    let mut state = held(&rt, alloc, Limits::server());
    may_not(&rt, alloc, &mut state, failed(1, 0, 1), "ended");
    may_not(
        &rt,
        alloc,
        &mut state,
        plain(Event::Lapsed { flight: 1 }),
        "ended",
    );
}

#[test]
fn one_condition_broken_of_answers(rt: HostRuntime) {
    let alloc = rt.alloc();
    let mut state = held(&rt, alloc, Limits::server());
    may_not(
        &rt,
        alloc,
        &mut state,
        too_many(&rt, alloc, 1, 1, "y"),
        "more may be held",
    );
    may_not(
        &rt,
        alloc,
        &mut state,
        answered(2, 1, How::StoreFull),
        "there is a place",
    );
    may_not(
        &rt,
        alloc,
        &mut state,
        answered(2, 1, How::ArchiveFull { bytes: 4 }),
        "there is room",
    );
    may_not(
        &rt,
        alloc,
        &mut state,
        answered(2, 1, How::NotStored { version: 0 }),
        "not the current version",
    );
    may_not(
        &rt,
        alloc,
        &mut state,
        answered(2, 1, How::Held { session: 2 }),
        "not the holder",
    );
    may_not(
        &rt,
        alloc,
        &mut state,
        answered(2, 1, How::Revising { flight: 1 }),
        "no revision",
    );
}

#[test]
fn one_condition_broken_of_later_answers(rt: HostRuntime) {
    let alloc = rt.alloc();
    let mut state = held(&rt, alloc, Limits::server());
    may_not(
        &rt,
        alloc,
        &mut state,
        answered(2, 1, How::Flying { flight: 1 }),
        "no revision",
    );
    may_not(
        &rt,
        alloc,
        &mut state,
        answered(2, 1, How::LoadFault { flight: 1 }),
        "no failure",
    );
    may_not(
        &rt,
        alloc,
        &mut state,
        answered(2, 1, How::Evicted { version: 1 }),
        "nothing was evicted",
    );
    may_not(
        &rt,
        alloc,
        &mut state,
        answered(2, 1, How::Revised { version: 1 }),
        "nothing was revised",
    );
    may_not(
        &rt,
        alloc,
        &mut state,
        answered(2, 1, How::Same),
        "nothing was revised",
    );
}
