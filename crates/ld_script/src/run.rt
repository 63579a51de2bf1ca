//! Running the lines of a script.
ghost use Rattle.std.specs.Prelude.{◌≡◌, ◌++◌, IfOk, OnOk};
ghost use Rattle.ld_history.specs.Legal.{AreWithin};
ghost use Rattle.ld_history.specs.declared.refusal.StepRefusal.TheVariants as step_refusal;
ghost use Rattle.ld_script.specs.declared.line.Line.TheVariants as line;
ghost use Rattle.ld_script.specs.Printed as printed;

use crate::line::Line;
use crate::print::{
    print_evicted, print_lacked, print_line, print_opened, print_pinned, print_published,
    print_revised, print_words,
};
use ld_history::{Given, Limits, State, StepRefusal};
use ld_tree::{Iri, NoMemory, Raw};
use std::alloc::Global;

/// What the lines print on an empty history under these limits.
pub(crate) fn run_lines(
    alloc: Global,
    limits: Limits,
    lines: Vec<Line>,
) -> Result<Vec<u8>, NoMemory>
    requires { AreWithin limits }
    ensures { IfOk result (λ out. out.items ≡ printed.printed limits lines.items) }
{
    let mut state = State::new(alloc, limits)?;
    let mut out = Vec::new(alloc);
    for line in lines {
        run_line(alloc, &mut state, line, &mut out)?;
    }
    print_summary(&state, &mut out)?;
    Ok(out)
}

fn print_summary(state: &State, out: &mut Vec<u8>) -> Result<(), NoMemory>
    ensures { OnOk result (out.new.items ≡ out.old.items ++ printed.summary state.now) }
{
    print_words(b"version", &[state.version()], out)?;
    print_line(b" events", &[state.events()], out)
}

fn run_line(alloc: Global, state: &mut State, line: Line, out: &mut Vec<u8>) -> Result<(), NoMemory>
    ensures printed { OnOk result (out.new.items ≡ out.old.items ++ (printed.step_of line state.old).printed) }
    ensures grown { OnOk result (state.new ≡ (printed.step_of line state.old).after) }
{
    match line {
        Line::Open { seat } => run_open(alloc, state, seat, out),
        Line::Pin { session } => run_pin(alloc, state, session, out),
        Line::Lack { session, iri } => run_lack(alloc, state, session, iri, out),
        Line::Give {
            flight,
            length,
            mark,
        } => run_give(alloc, state, flight, length, mark, out),
        Line::Fail {
            flight,
            before,
            after,
        } => run_fail(state, flight, before, after, out),
        Line::Lapse { flight } => run_lapse(state, flight, out),
        Line::Evict { session, iri } => run_evict(alloc, state, session, iri, out),
        Line::Revise { session, iri } => run_revise(alloc, state, session, iri, out),
        Line::Answer { session } => run_answer(state, session, out),
        Line::Close { session } => run_close(state, session, out),
    }
}

fn print_not_allowed(out: &mut Vec<u8>) -> Result<(), NoMemory>
    ensures { OnOk result (out.new.items ≡ out.old.items ++ printed.not_allowed) }
{
    print_line(b"not allowed", &[], out)
}

fn print_refused(refusal: StepRefusal, out: &mut Vec<u8>) -> Result<(), NoMemory>
    ensures printed { OnOk result (out.new.items ≡ out.old.items ++ printed.not_allowed) }
    ensures refused { OnOk result (refusal ≡ step_refusal.NotAllowed) }
{
    match refusal {
        StepRefusal::NotAllowed => print_not_allowed(out),
        StepRefusal::NoMemory => Err(NoMemory),
    }
}

fn run_open(alloc: Global, state: &mut State, seat: u32, out: &mut Vec<u8>) -> Result<(), NoMemory>
    ensures printed { OnOk result (out.new.items ≡ out.old.items ++ (printed.step_of (line.Open seat) state.old).printed) }
    ensures grown { OnOk result (state.new ≡ (printed.step_of (line.Open seat) state.old).after) }
{
    match state.open_session(alloc, seat) {
        Ok(answer) => print_opened(answer, out),
        Err(refusal) => print_refused(refusal, out),
    }
}

fn run_pin(
    alloc: Global,
    state: &mut State,
    session: u32,
    out: &mut Vec<u8>,
) -> Result<(), NoMemory>
    ensures printed { OnOk result (out.new.items ≡ out.old.items ++ (printed.step_of (line.Pin session) state.old).printed) }
    ensures grown { OnOk result (state.new ≡ (printed.step_of (line.Pin session) state.old).after) }
{
    match state.pin(alloc, session) {
        Ok(answer) => print_pinned(session, answer, out),
        Err(refusal) => print_refused(refusal, out),
    }
}

fn run_lack(
    alloc: Global,
    state: &mut State,
    session: u32,
    iri: Iri,
    out: &mut Vec<u8>,
) -> Result<(), NoMemory>
    ensures printed { OnOk result (out.new.items ≡ out.old.items ++ (printed.step_of (line.Lack session iri) state.old).printed) }
    ensures grown { OnOk result (state.new ≡ (printed.step_of (line.Lack session iri) state.old).after) }
{
    match state.lack(alloc, session, iri) {
        Ok(answer) => print_lacked(session, &answer, out),
        Err(refusal) => print_refused(refusal, out),
    }
}

fn run_give(
    alloc: Global,
    state: &mut State,
    flight: u32,
    length: u32,
    mark: Raw,
    out: &mut Vec<u8>,
) -> Result<(), NoMemory>
    ensures printed { OnOk result (out.new.items ≡ out.old.items ++ (printed.step_of (line.Give flight length mark) state.old).printed) }
    ensures grown { OnOk result (state.new ≡ (printed.step_of (line.Give flight length mark) state.old).after) }
{
    let Some(iri) = state.flight_iri(flight) else {
        return print_not_allowed(out);
    };
    let url = iri.as_iri().try_copy(alloc)?;
    match state.publish(alloc, flight, Given { url, length, mark }) {
        Ok(answer) => print_published(flight, answer, out),
        Err(refusal) => print_refused(refusal, out),
    }
}

fn run_fail(
    state: &mut State,
    flight: u32,
    before: u64,
    after: u64,
    out: &mut Vec<u8>,
) -> Result<(), NoMemory>
    ensures printed { OnOk result (out.new.items ≡ out.old.items ++ (printed.step_of (line.Fail flight before after) state.old).printed) }
    ensures grown { OnOk result (state.new ≡ (printed.step_of (line.Fail flight before after) state.old).after) }
{
    if !state.may_fail(flight, before, after) {
        return print_not_allowed(out);
    }
    state.fail(flight, before, after);
    print_line(b"failed", &[u64::from(flight)], out)
}

fn run_lapse(state: &mut State, flight: u32, out: &mut Vec<u8>) -> Result<(), NoMemory>
    ensures printed { OnOk result (out.new.items ≡ out.old.items ++ (printed.step_of (line.Lapse flight) state.old).printed) }
    ensures grown { OnOk result (state.new ≡ (printed.step_of (line.Lapse flight) state.old).after) }
{
    if !state.may_lapse(flight) {
        return print_not_allowed(out);
    }
    state.lapse(flight);
    print_line(b"lapsed", &[u64::from(flight)], out)
}

fn run_evict(
    alloc: Global,
    state: &mut State,
    session: u32,
    iri: Iri,
    out: &mut Vec<u8>,
) -> Result<(), NoMemory>
    ensures printed { OnOk result (out.new.items ≡ out.old.items ++ (printed.step_of (line.Evict session iri) state.old).printed) }
    ensures grown { OnOk result (state.new ≡ (printed.step_of (line.Evict session iri) state.old).after) }
{
    let name = iri.try_copy(alloc)?;
    match state.evict(alloc, session, iri) {
        Ok(answer) => print_evicted(&name, answer, out),
        Err(refusal) => print_refused(refusal, out),
    }
}

fn run_revise(
    alloc: Global,
    state: &mut State,
    session: u32,
    iri: Iri,
    out: &mut Vec<u8>,
) -> Result<(), NoMemory>
    ensures printed { OnOk result (out.new.items ≡ out.old.items ++ (printed.step_of (line.Revise session iri) state.old).printed) }
    ensures grown { OnOk result (state.new ≡ (printed.step_of (line.Revise session iri) state.old).after) }
{
    match state.revise(alloc, session, iri) {
        Ok(answer) => print_revised(session, answer, out),
        Err(refusal) => print_refused(refusal, out),
    }
}

fn run_answer(state: &mut State, session: u32, out: &mut Vec<u8>) -> Result<(), NoMemory>
    ensures printed { OnOk result (out.new.items ≡ out.old.items ++ (printed.step_of (line.Answer session) state.old).printed) }
    ensures grown { OnOk result (state.new ≡ (printed.step_of (line.Answer session) state.old).after) }
{
    let Some(how) = state.outcome(session) else {
        return print_not_allowed(out);
    };
    if !state.may_answer(session, &how) {
        return print_not_allowed(out);
    }
    let request = state.answer(session, how);
    print_line(b"answered", &[u64::from(session), u64::from(request)], out)
}

fn run_close(state: &mut State, session: u32, out: &mut Vec<u8>) -> Result<(), NoMemory>
    ensures printed { OnOk result (out.new.items ≡ out.old.items ++ (printed.step_of (line.Close session) state.old).printed) }
    ensures grown { OnOk result (state.new ≡ (printed.step_of (line.Close session) state.old).after) }
{
    if !state.may_close(session) {
        return print_not_allowed(out);
    }
    state.close_session(session);
    print_line(b"closed", &[u64::from(session)], out)
}
