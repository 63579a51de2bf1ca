//! Halls in memory, and what comes of a connection that has one for itself.
ghost use Rattle.std.specs.Prelude.{◌≡◌, ◌≤◌, [], All, IfOk};
ghost use Rattle.ld_flight.specs.Memory.{IsShort};
ghost use Rattle.ld_history.specs.Legal.{AreWithin};
ghost use Rattle.ld_visit.specs.Visits.{IsFree};

use crate::messages::Exchange;
use ld_book::{Bell, Blank, Book, Hall, Seats};
use ld_edge::{MemLink, MemSink, MemSource};
use ld_flight::{LONGEST_TEXT, MemLoader};
use ld_head::SessionEnd;
use ld_history::Limits;
use ld_session::{Served, serve_session};
use ld_tree::{Iri, Raw, Text, Url};
use ld_turn::{Seat, Told, TurnLock};
use std::alloc::Global;
use std::process::Abort;
use std::sync::Wait;
use std::test::Fail;

/// A hall with an empty book under these limits, and its first seats.
pub(crate) fn opened(alloc: Global, limits: Limits) -> Result<(Hall<Blank>, Seats<Blank>), Fail>
    requires { AreWithin limits }
    ensures book { IfOk result (λ r. r.1.book.lock ≡ r.0.book) }
    ensures library { IfOk result (λ r. r.1.library.lock ≡ r.0.library) }
    ensures free { IfOk result (λ r. IsFree r.1.book) }
    ensures unseen { IfOk result (λ r. r.1.book.front ≡ []) }
{
    let Ok((book, book_seat)) = TurnLock::start(alloc, Book::new(alloc, limits)?) else {
        return Err("no lock for the book".into());
    };
    let Ok((library, library_seat)) = TurnLock::start(alloc, Blank) else {
        return Err("no lock for the library".into());
    };
    let hall = Hall {
        book,
        library,
        bell: Bell::new(),
    };
    let seats = Seats {
        book: book_seat,
        library: library_seat,
    };
    Ok((hall, seats))
}

/// What was behind the lock, of which these are all seats.
pub(crate) fn closed<V: Told + Drop>(lock: TurnLock<V>, seats: Vec<Seat<V>>) -> Result<V, Fail>
    requires { All (λ s. s.lock ≡ lock) seats.items }
{
    match lock.close(seats) {
        Ok(value) => Ok(value),
        Err(_) => Err("a seat is missing".into()),
    }
}

/// A link over which this stream comes, in pieces of so many bytes.
pub(crate) fn link_of(alloc: Global, stream: &str, piece: usize) -> Result<MemLink, Fail>
    requires { 1 ≤ piece }
{
    let bytes = Raw::from_vec(stream.as_bytes().to_vec(alloc)?);
    let source = MemSource::new(bytes, piece, Vec::new(alloc));
    let sink = MemSink::new(alloc, piece, Vec::new(alloc));
    Ok(MemLink::new(source, sink))
}

/// What went out over the link.
pub(crate) fn written(alloc: Global, link: MemLink) -> Result<String, Fail> {
    let (_source, sink) = link.into_parts();
    let text = str::from_utf8(sink.bytes()).map_err(|_| "not utf-8")?;
    Ok(String::from_str(alloc, text)?)
}

/// What a loader has: texts, each with its IRI, and the numbers of the loads that fail, counted from 1.
#[derive(Clone, Copy)]
pub(crate) struct Shelf<'a> {
    pub texts: &'a [(&'a str, &'a str)],
    pub fails: &'a [u64],
}

impl<'a> Shelf<'a> {
    /// Nothing.
    pub(crate) fn empty() -> Shelf<'a> {
        Shelf {
            texts: &[],
            fails: &[],
        }
    }

    // A text that is too long for a loader is left out.
    fn answers(&self, alloc: Global) -> Result<Vec<(Iri, Url, Raw)>, Fail>
        ensures { IfOk result (λ answers. All IsShort answers.items) }
    {
        let mut answers = Vec::new(alloc);
        for (iri, text) in self.texts {
            if text.len() <= LONGEST_TEXT {
                let bytes = Raw::from_vec(text.as_bytes().to_vec(alloc)?);
                answers.push((
                    Text::from_str(alloc, iri)?,
                    Text::from_str(alloc, iri)?,
                    bytes,
                ))?;
            }
        }
        Ok(answers)
    }

    pub(crate) fn loader(&self, alloc: Global) -> Result<MemLoader, Fail> {
        Ok(MemLoader::new(alloc, self.answers(alloc)?, self.fails.to_vec(alloc)?))
    }
}

/// What came of a connection that had a hall for itself.
#[derive(Debug, Drop)]
pub(crate) struct Talked {
    pub session: Option<u32>,
    pub end: SessionEnd,
    pub written: String,
    /// How many events the book has when the hall is closed.
    pub events: u64,
}

/// Serves a connection, over which this stream comes in pieces of so many bytes, in a hall of its own, and closes the hall.
pub(crate) fn serve_alone<R: Wait>(
    rt: &R,
    alloc: Global,
    limits: Limits,
    shelf: Shelf<'_>,
    stream: &str,
    piece: usize,
) -> Result<Talked, Fail>
    requires limits { AreWithin limits }
    requires piece { 1 ≤ piece }
{
    let (hall, seats) = opened(alloc, limits)?;
    let mut link = link_of(alloc, stream, piece)?;
    let mut loader = shelf.loader(alloc)?;
    let Served {
        seats,
        session,
        end,
    } = serve_session(rt, alloc, &hall, seats, &mut link, &mut loader);
    let Seats { book, library } = seats;
    closed(hall.library, vec![in alloc; library]?)?;
    let book = closed(hall.book, vec![in alloc; book]?)?;
    Ok(Talked {
        session,
        end,
        written: written(alloc, link)?,
        events: book.events(),
    })
}

/// Sends these requests over one connection in a hall of its own, asserts that each gets its reply, and tells how many events
/// the book has at the end.
pub(crate) fn exchange_alone<R: Abort + Wait>(
    rt: &R,
    alloc: Global,
    limits: Limits,
    shelf: Shelf<'_>,
    exchanges: &[Exchange<'_>],
) -> Result<u64, Fail>
    requires { AreWithin limits }
{
    let mut stream = String::new(alloc);
    let mut replies = String::new(alloc);
    for (before, exchange) in exchanges.iter().enumerate() {
        stream.push_str(exchange.request(alloc)?.as_str())?;
        replies.push_str(exchange.reply(alloc, before + 1)?.as_str())?;
    }
    let talked = serve_alone(rt, alloc, limits, shelf, stream.as_str(), 4096)?;
    assert_eq!(rt; talked.written.as_str(), replies.as_str());
    assert_eq!(rt; talked.end, SessionEnd::Closed);
    assert_eq!(rt; talked.session, Some(1));
    Ok(talked.events)
}
