//! Rounds of revisions, after a connection that had its contexts loaded.
use crate::hosting::{Shelf, closed, link_of, opened};
use ld_book::Seats;
use ld_history::Limits;
use ld_revise::{Round, RoundEnd, Tally, revise_round};
use ld_session::serve_session;
use std::alloc::Global;
use std::sync::Wait;
use std::test::Fail;

/// What a round came to, and how many events the book has when the hall is closed.
#[derive(Debug, Drop)]
struct Rounded {
    session: Option<u32>,
    end: RoundEnd,
    tally: Tally,
    events: u64,
}

// Serves a connection over which this stream comes, and then runs a round with the same loader.
fn round_after<R: Wait>(
    rt: &R,
    alloc: Global,
    shelf: Shelf<'_>,
    stream: &str,
) -> Result<Rounded, Fail> {
    let (hall, seats) = opened(alloc, Limits::server())?;
    let mut link = link_of(alloc, stream, 4096)?;
    let mut loader = shelf.loader(alloc)?;
    let served = serve_session(rt, alloc, &hall, seats, &mut link, &mut loader);
    let round = revise_round(rt, alloc, &hall, served.seats, &mut loader);
    let Round {
        seats,
        session,
        end,
        revised,
        same,
        failed,
        refused,
    } = round;
    let Seats { book, library } = seats;
    closed(hall.library, vec![in alloc; library]?)?;
    let book = closed(hall.book, vec![in alloc; book]?)?;
    let tally = Tally {
        revised,
        same,
        failed,
        refused,
    };
    Ok(Rounded {
        session,
        end,
        tally,
        events: book.events(),
    })
}

#[test]
fn a_round_over_an_empty_store_makes_one_request(rt: HostRuntime) -> Result<(), Fail> {
    let rounded = round_after(&rt, rt.alloc(), Shelf::empty(), "")?;
    assert_eq!(&rt; rounded.session, Some(2));
    assert_eq!(&rt; rounded.end, RoundEnd::Done);
    assert_eq!(&rt;
        rounded.tally,
        Tally {
            revised: 0,
            same: 0,
            failed: 0,
            refused: 0
        }
    );
    assert_eq!(&rt; rounded.events, 6);
    Ok(())
}

// The first of these contexts is another one at its second load. Three loads are the connection's; the fifth fails.
const THREE: Shelf<'static> = Shelf {
    texts: &[
        ("http://c/1", r#"{"@context":{}}"#),
        ("http://c/2", r#"{"@context":{}}"#),
        ("http://c/3", r#"{"@context":{}}"#),
        ("http://c/1", r#"{"@context":{"n":"http://e/n"}}"#),
    ],
    fails: &[5],
};

#[test]
fn a_round_goes_on_after_a_failed_load(rt: HostRuntime) -> Result<(), Fail> {
    let body = r#"{"document":{"@context":["http://c/1","http://c/2","http://c/3"]}}"#;
    let request = format!(in rt.alloc();
        "POST /expand HTTP/1.1\r\nHost: a\r\nContent-Length: {}\r\n\r\n{body}",
        body.len()
    )?;
    let rounded = round_after(&rt, rt.alloc(), THREE, request.as_str())?;
    assert_eq!(&rt; rounded.session, Some(2));
    assert_eq!(&rt; rounded.end, RoundEnd::Done);
    assert_eq!(&rt;
        rounded.tally,
        Tally {
            revised: 1,
            same: 1,
            failed: 1,
            refused: 0
        }
    );
    Ok(())
}
