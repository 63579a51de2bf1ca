//! The requests of one session in one book.
ghost use Rattle.std.specs.Prelude.{◌≡◌, true, OnOk};

use ld_book::{Book, LackAnswer, RoomRefusal};
use ld_flight::{LONGEST_TEXT, Loaded, Pass, Ready};
use ld_history::{Limits, Name};
use ld_tree::{Iri, Items, NoMemory, Raw, Text, Url};
use std::alloc::{AllocError, Global};

const CONTEXTS: u64 = 512;

const TEXT: &[u8] = b"{\"@context\":{}}";

/// What the requests lack.
#[derive(Clone, Copy)]
pub enum Wanted {
    /// Nothing: each is pinned and answered.
    Nothing,
    /// A context each, of twice as many as the store has places for.
    Contexts,
}

/// Why no more requests were made.
#[derive(Clone, Copy)]
pub enum Stopped {
    /// A step wasn't allowed, or answered otherwise than it should.
    NotAllowed,
    /// The history has no room left.
    Full,
    NoMemory,
}

impl From<NoMemory> for Stopped {
    fn from(_: NoMemory) -> Stopped {
        Stopped::NoMemory
    }
}

impl From<AllocError> for Stopped {
    fn from(_: AllocError) -> Stopped {
        Stopped::NoMemory
    }
}

impl From<RoomRefusal> for Stopped {
    fn from(refusal: RoomRefusal) -> Stopped {
        match refusal {
            RoomRefusal::HistoryFull { .. } => Stopped::Full,
            RoomRefusal::NoMemory => Stopped::NoMemory,
        }
    }
}

/// A book, under the server's limits, in which one session made so many requests.
pub fn drive(alloc: Global, requests: u64, wanted: Wanted) -> Result<Book, Stopped> {
    let mut book = Book::new(alloc, Limits::server())?;
    allowed(book.history().may_open(0))?;
    let session = book.open_session(alloc, 0)?;
    for request in 0..requests {
        pin(alloc, &mut book, session)?;
        match wanted {
            Wanted::Nothing => {}
            Wanted::Contexts => {
                // Each context went out by the time that it is wanted again.
                lack(alloc, &mut book, session, request % CONTEXTS)?;
                pin(alloc, &mut book, session)?;
            }
        }
        answer(&mut book, session)?;
    }
    Ok(book)
}

fn allowed(step: bool) -> Result<(), Stopped>
    ensures { OnOk result (step ≡ true) }
{
    if step {
        Ok(())
    } else {
        Err(Stopped::NotAllowed)
    }
}

fn pin(alloc: Global, book: &mut Book, session: u32) -> Result<(), Stopped> {
    allowed(book.history().may_pin(session))?;
    let _pin = book.pin(alloc, session)?;
    Ok(())
}

fn answer(book: &mut Book, session: u32) -> Result<(), Stopped> {
    let Some(how) = book.history().outcome(session) else {
        return Err(Stopped::NotAllowed);
    };
    allowed(book.history().may_answer(session, &how))?;
    book.answered(session, how);
    Ok(())
}

/// Leads a flight for the context, whose answer comes into the store.
fn lack(alloc: Global, book: &mut Book, session: u32, context: u64) -> Result<(), Stopped> {
    let name: Name = book.history().name(alloc, iri(alloc, context)?)?;
    allowed(book.history().may_lack(session, &name))?;
    let answer = book.lack(alloc, session, name.as_iri())?;
    match answer {
        LackAnswer::Lead(pass) => land(alloc, book, pass),
        LackAnswer::TooMany { held: _ } => Err(Stopped::NotAllowed),
        LackAnswer::There => Err(Stopped::NotAllowed),
        LackAnswer::Joined(_) => Err(Stopped::NotAllowed),
        LackAnswer::StoreFull => Err(Stopped::NotAllowed),
        LackAnswer::ArchiveFull { bytes: _ } => Err(Stopped::NotAllowed),
    }
}

fn land(alloc: Global, book: &mut Book, pass: Pass) -> Result<(), Stopped> {
    let ready = load(alloc, pass)?;
    let flight = ready.pass().flight();
    let same = match book.history().flight_iri(flight) {
        Some(iri) => *iri.as_iri() == *ready.pass().iri(),
        None => false,
    };
    if !same || !book.history().may_lapse(flight) {
        ready.into_pass().end();
        return Err(Stopped::NotAllowed);
    }
    match book.publish(alloc, ready) {
        Ok(_) => Ok(()),
        Err((ready, _)) => {
            ready.into_pass().end();
            Err(Stopped::NoMemory)
        }
    }
}

/// Loads the one text, as if from the place of the IRI.
fn load(alloc: Global, pass: Pass) -> Result<Ready, Stopped> {
    match fetched(alloc, &pass) {
        Ok((url, text)) if text.as_slice().len() <= LONGEST_TEXT => {
            match (Loaded { pass, url, text }).ready(alloc) {
                Ok(ready) => Ok(ready),
                Err((loaded, _)) => {
                    let Loaded {
                        pass,
                        url: _,
                        text: _,
                    } = loaded;
                    pass.end();
                    Err(Stopped::NoMemory)
                }
            }
        }
        _ => {
            pass.end();
            Err(Stopped::NoMemory)
        }
    }
}

fn fetched(alloc: Global, pass: &Pass) -> Result<(Url, Raw), NoMemory> {
    let url = pass.iri().try_copy(alloc)?;
    let text = Vec::from_slice(alloc, TEXT)?;
    Ok((url, Items::from_vec(text)))
}

fn iri(alloc: Global, context: u64) -> Result<Iri, NoMemory> {
    let text = format!(in alloc; "http://contexts.example/{context}")?;
    Text::from_str(alloc, text.as_str())
}
