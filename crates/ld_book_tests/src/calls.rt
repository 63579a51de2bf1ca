//! The book's calls, each asserted to be allowed.
ghost use Rattle.std.specs.Prelude.{◌≡◌, ◌≤◌};
ghost use Rattle.ld_history.specs.Legal.{AreWithin};

use ld_book::{
    Book, EvictAnswer, LackAnswer, LookAnswer, Pin, PublishAnswer, ReviseAnswer, RoomRefusal,
};
use ld_flight::{LONGEST_TEXT, Loaded, Pass, Ready, Refused, Why};
use ld_history::Limits;
use ld_tree::{Iri, Items, Raw, Text};
use std::alloc::Global;
use std::process::Abort;

/// The server's limits, but for so many contexts.
pub fn limits(contexts: u32) -> Limits
    requires { contexts ≤ 256 }
    ensures { AreWithin result }
{
    Limits {
        contexts,
        held: 64,
        events: 16_777_216,
        bytes: 134_217_728,
    }
}

pub fn iri(rt: &impl Abort, alloc: Global, text: &str) -> Iri {
    Text::from_str(alloc, text).expect(rt, "memory")
}

pub fn open(
    rt: &impl Abort,
    alloc: Global,
    book: &mut Book,
    seat: u32,
) -> Result<u32, RoomRefusal> {
    assert!(rt; book.history().may_open(seat));
    book.open_session(alloc, seat)
}

pub fn pin(
    rt: &impl Abort,
    alloc: Global,
    book: &mut Book,
    session: u32,
) -> Result<Pin, RoomRefusal> {
    assert!(rt; book.history().may_pin(session));
    book.pin(alloc, session)
}

pub fn lack(
    rt: &impl Abort,
    alloc: Global,
    book: &mut Book,
    session: u32,
    text: &str,
) -> LackAnswer {
    let name = book
        .history()
        .name(alloc, iri(rt, alloc, text))
        .expect(rt, "memory");
    assert!(rt; book.history().may_lack(session, &name));
    book.lack(alloc, session, name.as_iri())
        .expect(rt, "memory")
}

/// What a lack answers that leads no flight.
#[derive(Debug, Drop, PartialEq, Eq)]
pub enum WithoutFlight {
    TooMany { held: u32 },
    There,
    Joined(u32),
    StoreFull,
    ArchiveFull { bytes: u64 },
}

/// Leads no flight.
pub fn lacked(
    rt: &impl Abort,
    alloc: Global,
    book: &mut Book,
    session: u32,
    text: &str,
) -> WithoutFlight {
    match lack(rt, alloc, book, session, text) {
        LackAnswer::Lead(pass) => {
            pass.end();
            panic!(rt; "a flight")
        }
        LackAnswer::TooMany { held } => WithoutFlight::TooMany { held },
        LackAnswer::There => WithoutFlight::There,
        LackAnswer::Joined(flight) => WithoutFlight::Joined(flight),
        LackAnswer::StoreFull => WithoutFlight::StoreFull,
        LackAnswer::ArchiveFull { bytes } => WithoutFlight::ArchiveFull { bytes },
    }
}

/// Leads a flight.
pub fn lead(rt: &impl Abort, alloc: Global, book: &mut Book, session: u32, text: &str) -> Pass {
    match lack(rt, alloc, book, session, text) {
        LackAnswer::Lead(pass) => pass,
        LackAnswer::TooMany { .. }
        | LackAnswer::There
        | LackAnswer::Joined(_)
        | LackAnswer::StoreFull
        | LackAnswer::ArchiveFull { .. } => panic!(rt; "no flight"),
    }
}

// A number of so many digits.
fn digits(rt: &impl Abort, alloc: Global, digit: u8, length: usize) -> Raw {
    let mut bytes = Vec::new(alloc);
    for _ in 0..length {
        bytes.push(digit).expect(rt, "memory");
    }
    Items::from_vec(bytes)
}

/// Loads a text of this length, from the IRI itself.
pub fn load(rt: &impl Abort, alloc: Global, pass: Pass, digit: u8, length: usize) -> Ready {
    let url = pass.iri().try_copy(alloc).expect(rt, "memory");
    let text = digits(rt, alloc, digit, length);
    assert!(rt; text.as_slice().len() <= LONGEST_TEXT);
    match (Loaded { pass, url, text }).ready(alloc) {
        Ok(ready) => ready,
        Err((loaded, _)) => {
            loaded.pass.end();
            panic!(rt; "memory")
        }
    }
}

pub fn publish(rt: &impl Abort, alloc: Global, book: &mut Book, ready: Ready) -> PublishAnswer {
    let flight = ready.pass().flight();
    assert!(rt; book.history().may_lapse(flight));
    let same = match book.history().flight_iri(flight) {
        Some(iri) => *iri.as_iri() == *ready.pass().iri(),
        None => false,
    };
    assert!(rt; same);
    match book.publish(alloc, ready) {
        Ok(answer) => answer,
        Err((ready, _)) => {
            ready.into_pass().end();
            panic!(rt; "memory")
        }
    }
}

pub fn fail(rt: &impl Abort, book: &mut Book, pass: Pass, before: u64, after: u64) {
    assert!(rt; book.history().may_fail(pass.flight(), before, after));
    book.fail(Refused {
        pass,
        why: Why::Fault,
        before,
        after,
    });
}

pub fn lapse(rt: &impl Abort, book: &mut Book, pass: Pass) {
    assert!(rt; book.history().may_lapse(pass.flight()));
    book.lapse(pass);
}

pub fn look(rt: &impl Abort, book: &Book, flight: u32) -> LookAnswer {
    assert!(rt; book.history().flight_iri(flight).is_some());
    book.look(flight)
}

/// The request is answered by how it ends by itself.
pub fn answer(rt: &impl Abort, book: &mut Book, session: u32) {
    let how = book.history().outcome(session).expect(rt, "an outcome");
    assert!(rt; book.history().may_answer(session, &how));
    book.answered(session, how);
}

pub fn evict(
    rt: &impl Abort,
    alloc: Global,
    book: &mut Book,
    session: u32,
    text: &str,
) -> EvictAnswer {
    let iri = iri(rt, alloc, text);
    assert!(rt; book.history().has_pinned(session));
    book.evict(alloc, session, &iri).expect(rt, "memory")
}

pub fn revise(
    rt: &impl Abort,
    alloc: Global,
    book: &mut Book,
    session: u32,
    text: &str,
) -> ReviseAnswer {
    let iri = iri(rt, alloc, text);
    assert!(rt; book.history().has_pinned(session));
    book.revise(alloc, session, &iri).expect(rt, "memory")
}

/// What a revision answers that leads no flight.
#[derive(Debug, Drop, PartialEq, Eq)]
pub enum Revised {
    NotStored { version: u64 },
    Flying { flight: u32 },
    ArchiveFull { bytes: u64 },
}

/// Leads no flight.
pub fn not_revised(
    rt: &impl Abort,
    alloc: Global,
    book: &mut Book,
    session: u32,
    text: &str,
) -> Revised {
    match revise(rt, alloc, book, session, text) {
        ReviseAnswer::Lead(pass) => {
            pass.end();
            panic!(rt; "a flight")
        }
        ReviseAnswer::NotStored { version } => Revised::NotStored { version },
        ReviseAnswer::Flying { flight } => Revised::Flying { flight },
        ReviseAnswer::ArchiveFull { bytes } => Revised::ArchiveFull { bytes },
    }
}

/// Leads a flight for what is stored.
pub fn lead_again(
    rt: &impl Abort,
    alloc: Global,
    book: &mut Book,
    session: u32,
    text: &str,
) -> Pass {
    match revise(rt, alloc, book, session, text) {
        ReviseAnswer::Lead(pass) => pass,
        ReviseAnswer::NotStored { .. }
        | ReviseAnswer::Flying { .. }
        | ReviseAnswer::ArchiveFull { .. } => panic!(rt; "no flight"),
    }
}

pub fn close(rt: &impl Abort, book: &mut Book, session: u32) {
    assert!(rt; book.history().may_close(session));
    book.close_session(session);
}
