//! Sessions that take turns at one book.
ghost use Rattle.std.specs.Prelude.{◌≤◌};
ghost use Rattle.ld_history.specs.Legal.{AreWithin};

use crate::calls::{
    Revised, WithoutFlight, answer, close, evict, fail, lacked, lapse, lead, lead_again, limits,
    load, look, not_revised, open, pin, publish,
};
use ld_book::{Book, EvictAnswer, LookAnswer, PublishAnswer, RoomRefusal};
use ld_flight::Pass;
use ld_history::Limits;
use std::alloc::Global;
use std::process::Abort;

/// A book under these limits, with sessions 1 and 2.
fn book(rt: &impl Abort, alloc: Global, limits: Limits) -> Book
    requires { AreWithin limits }
{
    let mut book = Book::new(alloc, limits).expect(rt, "memory");
    assert!(rt; open(rt, alloc, &mut book, 0) == Ok(1));
    assert!(rt; open(rt, alloc, &mut book, 1) == Ok(2));
    book
}

/// Pins, and asserts the request, the attempt and the version.
fn pins(rt: &impl Abort, alloc: Global, book: &mut Book, session: u32, at: (u32, u32, u64)) {
    let pin = pin(rt, alloc, book, session).expect(rt, "room");
    assert!(rt; pin.request == at.0);
    assert!(rt; pin.attempt == at.1);
    assert!(rt; pin.snapshot.version() == at.2);
}

/// Publishes a text of three digits, and asserts the version.
fn gives(rt: &impl Abort, alloc: Global, book: &mut Book, pass: Pass, digit: u8, version: u64) {
    let ready = load(rt, alloc, pass, digit, 3);
    assert!(rt; publish(rt, alloc, book, ready) == PublishAnswer::Published(version));
}

/// A book of which session 1 has brought the context x, and was answered.
fn book_with_x(rt: &impl Abort, alloc: Global) -> Book {
    let mut book = book(rt, alloc, limits(256));
    pins(rt, alloc, &mut book, 1, (1, 1, 0));
    let pass = lead(rt, alloc, &mut book, 1, "x");
    gives(rt, alloc, &mut book, pass, b'1', 1);
    pins(rt, alloc, &mut book, 1, (1, 2, 1));
    answer(rt, &mut book, 1);
    book
}

#[test]
fn two_sessions_wait_for_one_flight(rt: HostRuntime) {
    let alloc = rt.alloc();
    let mut book = book(&rt, alloc, limits(256));
    pins(&rt, alloc, &mut book, 1, (1, 1, 0));
    pins(&rt, alloc, &mut book, 2, (1, 1, 0));
    let pass = lead(&rt, alloc, &mut book, 1, "x");
    assert!(rt; pass.flight() == 1);
    assert!(rt; lacked(&rt, alloc, &mut book, 2, "x") == WithoutFlight::Joined(1));
    assert!(rt; look(&rt, &book, 1) == LookAnswer::Flying);
    let ready = load(&rt, alloc, pass, b'1', 10);
    assert!(rt; publish(&rt, alloc, &mut book, ready) == PublishAnswer::Published(1));
    assert!(rt; look(&rt, &book, 1) == LookAnswer::Published(1));
    pins(&rt, alloc, &mut book, 1, (1, 2, 1));
    pins(&rt, alloc, &mut book, 2, (1, 2, 1));
    answer(&rt, &mut book, 1);
    answer(&rt, &mut book, 2);
    close(&rt, &mut book, 1);
    close(&rt, &mut book, 2);
    assert!(rt; book.version() == 1);
    assert!(rt; book.events() == 13);
}

#[test]
fn a_held_context_is_not_evicted(rt: HostRuntime) {
    let alloc = rt.alloc();
    let mut book = book(&rt, alloc, limits(256));
    pins(&rt, alloc, &mut book, 1, (1, 1, 0));
    let pass = lead(&rt, alloc, &mut book, 1, "x");
    gives(&rt, alloc, &mut book, pass, b'1', 1);
    pins(&rt, alloc, &mut book, 1, (1, 2, 1));
    pins(&rt, alloc, &mut book, 2, (1, 1, 1));
    assert!(rt; evict(&rt, alloc, &mut book, 2, "x") == EvictAnswer::Held { session: 1 });
    answer(&rt, &mut book, 1);
    pins(&rt, alloc, &mut book, 2, (2, 1, 1));
    assert!(rt; evict(&rt, alloc, &mut book, 2, "x") == EvictAnswer::Evicted(2));
    pins(&rt, alloc, &mut book, 2, (3, 1, 2));
    assert!(rt; evict(&rt, alloc, &mut book, 2, "x") == EvictAnswer::NotStored { version: 2 });
    assert!(rt; book.version() == 2);
    assert!(rt; book.events() == 14);
}

#[test]
fn a_place_is_made_where_one_may_go(rt: HostRuntime) {
    let alloc = rt.alloc();
    let mut book = book(&rt, alloc, limits(2));
    pins(&rt, alloc, &mut book, 1, (1, 1, 0));
    let pass = lead(&rt, alloc, &mut book, 1, "a");
    gives(&rt, alloc, &mut book, pass, b'1', 1);
    pins(&rt, alloc, &mut book, 1, (1, 2, 1));
    let pass = lead(&rt, alloc, &mut book, 1, "b");
    gives(&rt, alloc, &mut book, pass, b'1', 2);
    pins(&rt, alloc, &mut book, 1, (1, 3, 2));
    pins(&rt, alloc, &mut book, 2, (1, 1, 2));
    assert!(rt; lacked(&rt, alloc, &mut book, 2, "c") == WithoutFlight::StoreFull);
    answer(&rt, &mut book, 1);
    pins(&rt, alloc, &mut book, 2, (2, 1, 2));
    let pass = lead(&rt, alloc, &mut book, 2, "c");
    assert!(rt; pass.flight() == 3);
    gives(&rt, alloc, &mut book, pass, b'1', 4);
    assert!(rt; book.version() == 4);
    assert!(rt; book.events() == 16);
    let pin = pin(&rt, alloc, &mut book, 2).expect(&rt, "room");
    assert!(rt; pin.snapshot.get("a").is_none());
    assert!(rt; pin.snapshot.get("b").is_some());
    assert!(rt; pin.snapshot.get("c").is_some());
}

#[test]
fn a_pin_keeps_what_it_had(rt: HostRuntime) {
    let alloc = rt.alloc();
    let mut book = book_with_x(&rt, alloc);
    let before = pin(&rt, alloc, &mut book, 1).expect(&rt, "room");
    pins(&rt, alloc, &mut book, 2, (1, 1, 1));
    assert!(rt; evict(&rt, alloc, &mut book, 2, "x") == EvictAnswer::Evicted(2));
    let doc = before.snapshot.get("x").expect(&rt, "the document");
    assert!(rt; doc.url.as_str() == "x");
}

#[test]
fn a_context_is_there_by_now(rt: HostRuntime) {
    let alloc = rt.alloc();
    let mut book = book(&rt, alloc, limits(256));
    pins(&rt, alloc, &mut book, 1, (1, 1, 0));
    pins(&rt, alloc, &mut book, 2, (1, 1, 0));
    let pass = lead(&rt, alloc, &mut book, 1, "x");
    gives(&rt, alloc, &mut book, pass, b'1', 1);
    assert!(rt; lacked(&rt, alloc, &mut book, 2, "x") == WithoutFlight::There);
    pins(&rt, alloc, &mut book, 2, (1, 2, 1));
}

#[test]
fn a_revision_is_the_same_or_a_version(rt: HostRuntime) {
    let alloc = rt.alloc();
    let mut book = book_with_x(&rt, alloc);
    pins(&rt, alloc, &mut book, 1, (2, 1, 1));
    let pass = lead_again(&rt, alloc, &mut book, 1, "x");
    pins(&rt, alloc, &mut book, 2, (1, 1, 1));
    assert!(rt; not_revised(&rt, alloc, &mut book, 2, "x") == Revised::Flying { flight: 2 });
    pins(&rt, alloc, &mut book, 2, (2, 1, 1));
    assert!(rt; evict(&rt, alloc, &mut book, 2, "x") == EvictAnswer::Revising { flight: 2 });
    let ready = load(&rt, alloc, pass, b'1', 3);
    assert!(rt; publish(&rt, alloc, &mut book, ready) == PublishAnswer::Same);
    assert!(rt; look(&rt, &book, 2) == LookAnswer::Same);
    answer(&rt, &mut book, 1);
    pins(&rt, alloc, &mut book, 1, (3, 1, 1));
    let pass = lead_again(&rt, alloc, &mut book, 1, "x");
    gives(&rt, alloc, &mut book, pass, b'2', 2);
    answer(&rt, &mut book, 1);
    pins(&rt, alloc, &mut book, 1, (4, 1, 2));
    assert!(rt; not_revised(&rt, alloc, &mut book, 1, "y") == Revised::NotStored { version: 2 });
}

#[test]
fn flights_end_without_an_answer(rt: HostRuntime) {
    let alloc = rt.alloc();
    let mut book = book(&rt, alloc, limits(256));
    pins(&rt, alloc, &mut book, 1, (1, 1, 0));
    let pass = lead(&rt, alloc, &mut book, 1, "x");
    fail(&rt, &mut book, pass, 0, 1);
    let end = LookAnswer::Failed {
        before: 0,
        after: 1,
    };
    assert!(rt; look(&rt, &book, 1) == end);
    answer(&rt, &mut book, 1);
    pins(&rt, alloc, &mut book, 1, (2, 1, 0));
    let pass = lead(&rt, alloc, &mut book, 1, "x");
    assert!(rt; pass.flight() == 2);
    lapse(&rt, &mut book, pass);
    assert!(rt; look(&rt, &book, 2) == LookAnswer::Lapsed);
    answer(&rt, &mut book, 1);
    assert!(rt; book.version() == 0);
}

fn narrow(held: u32, events: u64, bytes: u64) -> Limits
    requires { (held ≤ 64) × (events ≤ 16777216) × (bytes ≤ 134217728) }
    ensures { AreWithin result }
{
    Limits {
        contexts: 2,
        held,
        events,
        bytes,
    }
}

#[test]
fn room_is_told(rt: HostRuntime) {
    let alloc = rt.alloc();
    let mut book = Book::new(alloc, narrow(64, 576, 134_217_728)).expect(&rt, "memory");
    assert!(rt; open(&rt, alloc, &mut book, 0) == Ok(1));
    let pin = pin(&rt, alloc, &mut book, 1);
    assert!(rt; matches!(pin, Err(RoomRefusal::HistoryFull { events: 1 })));
    let full = RoomRefusal::HistoryFull { events: 1 };
    assert!(rt; open(&rt, alloc, &mut book, 1) == Err(full));
}

#[test]
fn the_archive_and_a_request_are_full(rt: HostRuntime) {
    let alloc = rt.alloc();
    let mut first = book(&rt, alloc, narrow(64, 16_777_216, 1_050_624));
    pins(&rt, alloc, &mut first, 1, (1, 1, 0));
    pins(&rt, alloc, &mut first, 2, (1, 1, 0));
    let pass = lead(&rt, alloc, &mut first, 1, "a");
    assert!(rt; lacked(&rt, alloc, &mut first, 2, "b") == WithoutFlight::ArchiveFull { bytes: 1 });
    lapse(&rt, &mut first, pass);
    let mut second = book(&rt, alloc, narrow(1, 16_777_216, 134_217_728));
    pins(&rt, alloc, &mut second, 1, (1, 1, 0));
    let pass = lead(&rt, alloc, &mut second, 1, "a");
    gives(&rt, alloc, &mut second, pass, b'1', 1);
    pins(&rt, alloc, &mut second, 1, (1, 2, 1));
    assert!(rt; lacked(&rt, alloc, &mut second, 1, "b") == WithoutFlight::TooMany { held: 1 });
}
