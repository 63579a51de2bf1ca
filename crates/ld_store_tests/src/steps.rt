ghost use Rattle.ld_history.specs.Legal.{AreWithin};

use ld_history::{
    End, EvictAnswer, Given, How, LackAnswer, Limits, OpenAnswer, PinAnswer, PublishAnswer,
    ReviseAnswer, State, StepRefusal,
};
use ld_tree::{Iri, Items, Text};
use std::alloc::Global;
use std::process::Abort;

fn begin(rt: &impl Abort, alloc: Global, limits: Limits) -> State
    requires { AreWithin limits }
{
    State::new(alloc, limits).expect(rt, "memory")
}

fn iri(rt: &impl Abort, alloc: Global, text: &str) -> Iri {
    Text::from_str(alloc, text).expect(rt, "memory")
}

fn given(rt: &impl Abort, alloc: Global, url: &str, length: u32) -> Given {
    Given {
        url: iri(rt, alloc, url),
        length,
        mark: Items::new(alloc),
    }
}

fn opens(rt: &impl Abort, alloc: Global, state: &mut State, seat: u32, session: u32) {
    assert_eq!(rt;
        state.open_session(alloc, seat),
        Ok(OpenAnswer::Opened { session })
    );
}

fn pins(
    rt: &impl Abort,
    alloc: Global,
    state: &mut State,
    session: u32,
    (request, attempt, version): (u32, u32, u64),
) {
    let pinned = PinAnswer::Pinned {
        request,
        attempt,
        version,
    };
    assert_eq!(rt; state.pin(alloc, session), Ok(pinned));
}

/// The session leads this flight for the IRI; gives what went out for it.
fn leads(
    rt: &impl Abort,
    alloc: Global,
    state: &mut State,
    session: u32,
    text: &str,
    number: u32,
) -> Option<u64> {
    match state.lack(alloc, session, iri(rt, alloc, text)) {
        Ok(LackAnswer::Led { flight, out }) => {
            assert_eq!(rt; flight, number);
            match out {
                Some(out) => Some(out.version),
                None => None,
            }
        }
        _ => {
            assert!(rt; false, "not led");
            None
        }
    }
}

fn publishes(
    rt: &impl Abort,
    alloc: Global,
    state: &mut State,
    flight: u32,
    url: &str,
    version: u64,
) {
    let answer = state.publish(alloc, flight, given(rt, alloc, url, 3));
    assert_eq!(rt; answer, Ok(PublishAnswer::Published { version }));
}

fn answers(rt: &impl Abort, state: &mut State, session: u32, request: u32) {
    let how = state.outcome(session).expect(rt, "an outcome");
    assert!(rt; state.may_answer(session, &how));
    assert_eq!(rt; state.answer(session, how), request);
}

fn closes(rt: &impl Abort, state: &mut State, session: u32) {
    assert!(rt; state.may_close(session));
    state.close_session(session);
}

fn fails(rt: &impl Abort, state: &mut State, flight: u32, before: u64, after: u64) {
    assert!(rt; state.may_fail(flight, before, after));
    state.fail(flight, before, after);
}

fn lapses(rt: &impl Abort, state: &mut State, flight: u32) {
    assert!(rt; state.may_lapse(flight));
    state.lapse(flight);
}

/// The server's limits, but for 1 context.
fn one() -> Limits
    ensures { AreWithin result }
{
    Limits {
        contexts: 1,
        held: 64,
        events: 16_777_216,
        bytes: 134_217_728,
    }
}

#[test]
fn a_session_loads_revises_and_evicts(rt: HostRuntime) {
    let alloc = rt.alloc();
    let mut state = begin(&rt, alloc, Limits::server());
    opens(&rt, alloc, &mut state, 7, 1);
    pins(&rt, alloc, &mut state, 1, (1, 1, 0));
    assert!(rt; leads(&rt, alloc, &mut state, 1, "x", 1).is_none());
    publishes(&rt, alloc, &mut state, 1, "x", 1);
    pins(&rt, alloc, &mut state, 1, (1, 2, 1));
    answers(&rt, &mut state, 1, 1);
    pins(&rt, alloc, &mut state, 1, (2, 1, 1));
    let revised = state.revise(alloc, 1, iri(&rt, alloc, "x"));
    assert_eq!(rt; revised, Ok(ReviseAnswer::Led { flight: 2 }));
    let same = state.publish(alloc, 2, given(&rt, alloc, "x", 3));
    assert_eq!(rt; same, Ok(PublishAnswer::Same));
    assert!(rt; matches!(state.outcome(1), Some(How::Same)));
    let name = state
        .name(alloc, iri(&rt, alloc, "x"))
        .expect(&rt, "memory");
    assert_eq!(rt; name.as_iri().as_str(), "x");
    answers(&rt, &mut state, 1, 2);
    pins(&rt, alloc, &mut state, 1, (3, 1, 1));
    let evicted = state.evict(alloc, 1, iri(&rt, alloc, "x"));
    assert_eq!(rt; evicted, Ok(EvictAnswer::Evicted { version: 2 }));
    closes(&rt, &mut state, 1);
    assert_eq!(rt; state.version(), 2);
    assert_eq!(rt; state.events(), 14);
}

#[test]
fn flights_fail_and_lapse(rt: HostRuntime) {
    let alloc = rt.alloc();
    let mut state = begin(&rt, alloc, Limits::server());
    opens(&rt, alloc, &mut state, 0, 1);
    pins(&rt, alloc, &mut state, 1, (1, 1, 0));
    assert!(rt; leads(&rt, alloc, &mut state, 1, "x", 1).is_none());
    assert!(rt; state.outcome(1).is_none());
    assert_eq!(rt; state.end_of(1), Some(End::UnderWay));
    fails(&rt, &mut state, 1, 3, 5);
    let failed = End::Failed {
        before: 3,
        after: 5,
    };
    assert_eq!(rt; state.end_of(1), Some(failed));
    assert!(rt; matches!(state.outcome(1), Some(How::LoadFault { flight: 1 })));
    answers(&rt, &mut state, 1, 1);
    pins(&rt, alloc, &mut state, 1, (2, 1, 0));
    assert!(rt; leads(&rt, alloc, &mut state, 1, "x", 2).is_none());
    lapses(&rt, &mut state, 2);
    assert!(rt; !state.may_lapse(2));
    assert_eq!(rt; state.end_of(2), Some(End::Lapsed));
    assert_eq!(rt; state.end_of(3), None);
    answers(&rt, &mut state, 1, 2);
    assert_eq!(rt; state.pin(alloc, 2), Err(StepRefusal::NotAllowed));
}

#[test]
fn a_full_store_lets_one_go(rt: HostRuntime) {
    let alloc = rt.alloc();
    let mut state = begin(&rt, alloc, one());
    opens(&rt, alloc, &mut state, 0, 1);
    pins(&rt, alloc, &mut state, 1, (1, 1, 0));
    assert!(rt; leads(&rt, alloc, &mut state, 1, "x", 1).is_none());
    publishes(&rt, alloc, &mut state, 1, "x", 1);
    pins(&rt, alloc, &mut state, 1, (1, 2, 1));
    answers(&rt, &mut state, 1, 1);
    pins(&rt, alloc, &mut state, 1, (2, 1, 1));
    assert_eq!(rt; leads(&rt, alloc, &mut state, 1, "y", 2), Some(2));
    publishes(&rt, alloc, &mut state, 2, "y", 3);
}
