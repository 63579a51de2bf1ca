//! Connections in halls with small limits.
use crate::hosting::{Shelf, exchange_alone, serve_alone};
use crate::messages::{ANN, Exchange, JSON};
use ld_head::SessionEnd;
use ld_history::Limits;
use std::test::Fail;

// The first text has 15 bytes, and each IRI has 10.
const TWO: Shelf<'static> = Shelf {
    texts: &[
        ("http://c/1", r#"{"@context":{}}"#),
        ("http://c/2", r#"{"@context":{}}"#),
    ],
    fails: &[],
};

#[test]
fn two_contexts_have_no_room(rt: HostRuntime) -> Result<(), Fail> {
    let one_context = Limits {
        contexts: 1,
        ..Limits::server()
    };
    let one_text = Limits {
        bytes: 1_050_624,
        ..Limits::server()
    };
    for (limits, answered) in [
        (one_context, r#"{"own":"store full"}"#),
        (one_text, r#"{"bytes":25,"own":"archive full"}"#),
    ] {
        let exchange = Exchange {
            path: "/expand",
            asked: r#"{"document":{"@context":["http://c/1","http://c/2"]}}"#,
            status: "503 Service Unavailable",
            media: JSON,
            version: 1,
            answered,
        };
        let events = exchange_alone(&rt, rt.alloc(), limits, TWO, &[exchange])?;
        assert_eq!(&rt; events, 7, "{answered}");
    }
    Ok(())
}

#[test]
fn a_history_has_no_room(rt: HostRuntime) -> Result<(), Fail> {
    for (events, session, at, total, body) in [
        (575, None, 0, 0, r#"{"events":0,"own":"history full"}"#),
        (576, Some(1), 1, 2, r#"{"events":1,"own":"history full"}"#),
    ] {
        let limits = Limits {
            events,
            ..Limits::server()
        };
        let wanted = format!(in rt.alloc();
            "HTTP/1.1 503 Service Unavailable\r\nContent-Type: application/json\r\nContent-Length: 33\r\nConnection: close\r\n\r\n{body}"
        )?;
        let talked = serve_alone(&rt, rt.alloc(), limits, Shelf::empty(), ANN, 4096)?;
        assert_eq!(&rt; talked.written.as_str(), wanted.as_str(), "{events}");
        assert_eq!(&rt;
            talked.end,
            SessionEnd::HistoryFull { events: at },
            "{events}"
        );
        assert_eq!(&rt; talked.session, session, "{events}");
        assert_eq!(&rt; talked.events, total, "{events}");
    }
    Ok(())
}
