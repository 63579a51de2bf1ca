//! Reading one line.
ghost use Rattle.std.specs.Prelude.{◌≡◌, ◌++◌, ◌∷◌, ℕ, List, IfOk, MatchOption};
ghost use Rattle.ld_history.specs.declared.limits.Limits.{Limits};
ghost use Rattle.ld_history.specs.Legal.{AreWithin};
ghost use Rattle.ld_script.specs.declared.verb.Verb.TheVariants as verb;
ghost use Rattle.ld_script.specs.Lines.{spelled_limits};
ghost use Rattle.ld_script.specs.Scripts.{BeginsWithLimits};
ghost use Rattle.ld_script.specs.Reading.{limits_words, AreArguments, IsGiven, IsLine, IsSessionIri, IsSplitTwice};

use crate::line::Line;
use crate::number::{read_number, read_u32, read_u63};
use crate::verb::Verb;
use crate::word::{copy_bytes, copy_text, is_word, split_once};
use ld_history::Limits;
use ld_tree::{Iri, NoMemory};
use std::alloc::Global;

/// The greatest length of a flight's answer. It stands for a text that is longer than a context may be.
const LENGTH_MOST: u64 = 1_048_577;

/// The good line that the text spells, if there is one.
pub(crate) fn read_line(alloc: Global, text: &[u8]) -> Result<Option<Line>, NoMemory>
    ensures { IfOk result (λ read. IsLine text.now read) }
{
    let Some((word, rest)) = split_once(text, b' ') else {
        return Ok(None);
    };
    match Verb::read(word) {
        Some(verb) => read_arguments(alloc, verb, rest),
        None => Ok(None),
    }
}

fn read_arguments(alloc: Global, verb: Verb, rest: &[u8]) -> Result<Option<Line>, NoMemory>
    ensures { IfOk result (λ read. AreArguments verb rest.now read) }
{
    match verb {
        Verb::Open => Ok(read_u32(rest).map(|seat| Line::Open { seat })),
        Verb::Pin => Ok(read_u32(rest).map(|session| Line::Pin { session })),
        Verb::Lack => {
            Ok(read_session_iri(alloc, rest)?.map(|(session, iri)| Line::Lack { session, iri }))
        }
        Verb::Give => read_give(alloc, rest),
        Verb::Fail => Ok(read_fail(rest)),
        Verb::Lapse => Ok(read_u32(rest).map(|flight| Line::Lapse { flight })),
        Verb::Evict => {
            Ok(read_session_iri(alloc, rest)?.map(|(session, iri)| Line::Evict { session, iri }))
        }
        Verb::Revise => {
            Ok(read_session_iri(alloc, rest)?.map(|(session, iri)| Line::Revise { session, iri }))
        }
        Verb::Answer => Ok(read_u32(rest).map(|session| Line::Answer { session })),
        Verb::Close => Ok(read_u32(rest).map(|session| Line::Close { session })),
    }
}

fn read_session_iri(alloc: Global, rest: &[u8]) -> Result<Option<(u32, Iri)>, NoMemory>
    ensures { IfOk result (λ read. MatchOption read ((session : ℕ) (iri : List ℕ) → IsSessionIri rest.now session iri → ⊥)
        (λ r. IsSessionIri rest.now r.0 r.1)) }
{
    match session_iri(rest) {
        Some((session, iri)) => {
            let iri = copy_text(alloc, iri)?;
            Ok(Some((session, iri)))
        }
        None => Ok(None),
    }
}

fn session_iri(rest: &[u8]) -> Option<(u32, &[u8])>
    ensures { MatchOption result ((session : ℕ) (iri : List ℕ) → IsSessionIri rest.now session iri → ⊥)
        (λ r. IsSessionIri rest.now r.0 r.1.now) }
{
    let (session, iri) = split_once(rest, b' ')?;
    let session = read_u32(session)?;
    if is_word(iri) {
        Some((session, iri))
    } else {
        None
    }
}

fn read_give(alloc: Global, rest: &[u8]) -> Result<Option<Line>, NoMemory>
    ensures { IfOk result (λ read. AreArguments verb.Give rest.now read) }
{
    match given(rest) {
        Some((flight, length, mark)) => {
            let mark = copy_bytes(alloc, mark)?;
            Ok(Some(Line::Give {
                flight,
                length,
                mark,
            }))
        }
        None => Ok(None),
    }
}

fn given(rest: &[u8]) -> Option<(u32, u32, &[u8])>
    ensures { MatchOption result ((flight length : ℕ) (mark : List ℕ) → IsGiven rest.now flight length mark → ⊥)
        (λ r. IsGiven rest.now r.0 r.1 r.2.now) }
{
    let (flight, length, mark) = split_twice(rest)?;
    let flight = read_u32(flight)?;
    let length = read_number(length, LENGTH_MOST)?;
    if is_word(mark) {
        Some((flight, length as u32, mark))
    } else {
        None
    }
}

fn read_fail(rest: &[u8]) -> Option<Line>
    ensures { AreArguments verb.Fail rest.now result }
{
    let (flight, before, after) = split_twice(rest)?;
    let flight = read_u32(flight)?;
    let before = read_u63(before)?;
    let after = read_u63(after)?;
    Some(Line::Fail {
        flight,
        before,
        after,
    })
}

/// The parts around the first two spaces.
fn split_twice(text: &[u8]) -> Option<(&[u8], &[u8], &[u8])>
    ensures { MatchOption result ((a b c : List ℕ) → IsSplitTwice text.now a b c → ⊥)
        (λ parts. IsSplitTwice text.now parts.0.now parts.1.now parts.2.now) }
{
    let (first, rest) = split_once(text, b' ')?;
    let (second, third) = split_once(rest, b' ')?;
    Some((first, second, third))
}

/// What follows the line that sets limits, and these limits, if the text begins with such a line and
/// none of its limits is above the server's.
pub(crate) fn read_limits(text: &[u8]) -> Option<(Limits, &[u8])>
    ensures { MatchOption result (BeginsWithLimits text.now → ⊥) (λ read. AreWithin read.0 × (text.now ≡ spelled_limits read.0 ++ 10 ∷ read.1.now)) }
{
    let (line, rest) = split_once(text, b'\n')?;
    let limits = read_limits_line(line)?;
    Some((limits, rest))
}

fn read_limits_line(line: &[u8]) -> Option<Limits>
    ensures { MatchOption result ((limits : Limits) → AreWithin limits → line.now ≡ spelled_limits limits → ⊥)
        (λ limits. AreWithin limits × (line.now ≡ spelled_limits limits)) }
{
    let (word, rest) = split_once(line, b' ')?;
    if word == b"limits".as_slice() {
        read_limits_words(rest)
    } else {
        None
    }
}

fn read_limits_words(rest: &[u8]) -> Option<Limits>
    ensures { MatchOption result ((limits : Limits) → AreWithin limits → rest.now ≡ limits_words limits → ⊥)
        (λ limits. AreWithin limits × (rest.now ≡ limits_words limits)) }
{
    let (contexts, rest) = split_once(rest, b' ')?;
    let (held, events, bytes) = split_twice(rest)?;
    let server = Limits::server();
    let contexts = read_number(contexts, u64::from(server.contexts))?;
    let held = read_number(held, u64::from(server.held))?;
    let events = read_number(events, server.events)?;
    let bytes = read_number(bytes, server.bytes)?;
    Some(Limits {
        contexts: contexts as u32,
        held: held as u32,
        events,
        bytes,
    })
}
