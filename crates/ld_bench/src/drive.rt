//! Sessions that lack contexts, load them and are answered, turn after turn.

use ld_history::{Given, LackAnswer, Limits, State, StepRefusal};
use ld_tree::{Iri, Items, NoMemory, Text};
use std::alloc::Global;

const SESSIONS: u32 = 64;

const CONTEXTS: u64 = 512;

/// Which contexts the sessions lack.
#[derive(Clone, Copy)]
pub enum Wanted {
    /// A few, again and again.
    Few,
    /// Another one each time.
    Distinct,
}

/// Numbers of contexts, the same in each run. Those of a few look as if they were drawn.
#[derive(Drop)]
struct Draw {
    wanted: Wanted,
    state: u64,
}

impl Draw {
    fn context(&mut self) -> u64 {
        match self.wanted {
            Wanted::Few => {
                self.state = self
                    .state
                    .wrapping_mul(6_364_136_223_846_793_005)
                    .wrapping_add(1);
                (self.state >> 33) % CONTEXTS
            }
            Wanted::Distinct => {
                self.state = self.state.wrapping_add(1);
                self.state
            }
        }
    }
}

/// A history of about so many events, under the server's limits.
pub fn drive(alloc: Global, events: u64, wanted: Wanted) -> Result<State, StepRefusal> {
    let mut state = State::new(alloc, Limits::server())?;
    for seat in 0..SESSIONS {
        state.open_session(alloc, seat)?;
    }
    let mut draw = Draw { wanted, state: 1 };
    for _ in 0..events {
        if state.events() >= events {
            break;
        }
        turn(alloc, &mut state, &mut draw)?;
    }
    Ok(state)
}

/// Each session begins a request, lacks a context, waits for it and is answered.
fn turn(alloc: Global, state: &mut State, draw: &mut Draw) -> Result<(), StepRefusal> {
    pin(alloc, state)?;
    let flights = lack(alloc, state, draw)?;
    land(alloc, state, flights)?;
    pin(alloc, state)?;
    answer(state);
    Ok(())
}

/// Pins for each session that may pin.
fn pin(alloc: Global, state: &mut State) -> Result<(), StepRefusal> {
    for session in 1..=SESSIONS {
        match state.pin(alloc, session) {
            Ok(_) | Err(StepRefusal::NotAllowed) => {}
            Err(refusal) => return Err(refusal),
        }
    }
    Ok(())
}

/// Lacks a context for each session, unless its version has it. Gives the flights that were led.
fn lack(alloc: Global, state: &mut State, draw: &mut Draw) -> Result<Vec<Flight>, StepRefusal> {
    let mut flights = Vec::new(alloc);
    for session in 1..=SESSIONS {
        let context = draw.context();
        match state.lack(alloc, session, iri(alloc, context)?) {
            Ok(LackAnswer::Led { flight, .. }) => note(&mut flights, Flight { flight, context })?,
            Ok(_) | Err(StepRefusal::NotAllowed) => {}
            Err(refusal) => return Err(refusal),
        }
    }
    Ok(flights)
}

/// A flight, and the number of its context.
#[derive(Clone, Copy)]
struct Flight {
    flight: u32,
    context: u64,
}

fn note(flights: &mut Vec<Flight>, flight: Flight) -> Result<(), NoMemory> {
    flights.push(flight)?;
    Ok(())
}

/// Publishes an empty text for each of the flights.
fn land(alloc: Global, state: &mut State, flights: Vec<Flight>) -> Result<(), StepRefusal> {
    for Flight { flight, context } in flights {
        let given = Given {
            url: iri(alloc, context)?,
            length: 0,
            mark: Items::new(alloc),
        };
        state.publish(alloc, flight, given)?;
    }
    Ok(())
}

/// Answers each session that waits for nothing more.
fn answer(state: &mut State) {
    for session in 1..=SESSIONS {
        if let Some(how) = state.outcome(session) {
            if state.may_answer(session, &how) {
                let _request = state.answer(session, how);
            }
        }
    }
}

fn iri(alloc: Global, context: u64) -> Result<Iri, NoMemory> {
    let text = format!(in alloc; "http://contexts.example/{context}")?;
    Text::from_str(alloc, text.as_str())
}
