//! Connections whose requests need no context from elsewhere.
use crate::hosting::{Shelf, serve_alone};
use crate::messages::{ANN, ANN_REPLY};
use ld_head::SessionEnd;
use ld_history::Limits;
use std::test::Fail;

const PIECES: [usize; 2] = [1, 4096];

#[test]
fn a_request_gets_its_reply(rt: HostRuntime) -> Result<(), Fail> {
    let alloc = rt.alloc();
    let talked = serve_alone(&rt, alloc, Limits::server(), Shelf::empty(), ANN, 4096)?;
    assert_eq!(&rt; talked.written.as_str(), ANN_REPLY);
    assert_eq!(&rt; talked.end, SessionEnd::Closed);
    assert_eq!(&rt; talked.session, Some(1));
    assert_eq!(&rt; talked.events, 4);
    Ok(())
}

#[test]
fn a_request_that_is_cut_gets_none(rt: HostRuntime) -> Result<(), Fail> {
    let alloc = rt.alloc();
    let twice = format!(in alloc; "{ANN}{ANN}")?;
    let stream = twice.as_str().get(..2 * ANN.len() - 1).ok_or("no front")?;
    for piece in PIECES {
        let talked = serve_alone(&rt, alloc, Limits::server(), Shelf::empty(), stream, piece)?;
        assert_eq!(&rt; talked.written.as_str(), ANN_REPLY, "{piece}");
        assert_eq!(&rt; talked.end, SessionEnd::Truncated, "{piece}");
        assert_eq!(&rt; talked.events, 4, "{piece}");
    }
    Ok(())
}

const REFUSED: [(&str, &str, SessionEnd); 2] = [
    (
        "GET /expand HTTP/1.1\r\nHost: h\r\n\r\n",
        "HTTP/1.1 405 Method Not Allowed\r\nContent-Type: application/json\r\nContent-Length: 16\r\nAllow: POST\r\n\r\n{\"own\":\"method\"}",
        SessionEnd::Closed,
    ),
    (
        "GET /expand HTTP/1.1\r\n\r\n",
        "HTTP/1.1 400 Bad Request\r\nContent-Type: application/json\r\nContent-Length: 18\r\nConnection: close\r\n\r\n{\"own\":\"bad head\"}",
        SessionEnd::BadHead(400),
    ),
];

#[test]
fn refused_heads_stand_in_no_history(rt: HostRuntime) -> Result<(), Fail> {
    let alloc = rt.alloc();
    for (stream, reply, end) in REFUSED {
        let talked = serve_alone(&rt, alloc, Limits::server(), Shelf::empty(), stream, 4096)?;
        assert_eq!(&rt; talked.written.as_str(), reply, "{stream}");
        assert_eq!(&rt; talked.end, end, "{stream}");
        assert_eq!(&rt; talked.events, 2, "{stream}");
    }
    Ok(())
}

#[test]
fn a_request_may_ask_before_its_body(rt: HostRuntime) -> Result<(), Fail> {
    let alloc = rt.alloc();
    let (head, body) = ANN.split_once("\r\n\r\n").ok_or("no body")?;
    let stream = format!(in alloc; "{head}\r\nExpect: 100-continue\r\n\r\n{body}")?;
    let wanted = format!(in alloc; "HTTP/1.1 100 Continue\r\n\r\n{ANN_REPLY}")?;
    let talked = serve_alone(
        &rt,
        alloc,
        Limits::server(),
        Shelf::empty(),
        stream.as_str(),
        4096,
    )?;
    assert_eq!(&rt; talked.written.as_str(), wanted.as_str());
    assert_eq!(&rt; talked.end, SessionEnd::Closed);
    assert_eq!(&rt; talked.events, 4);
    Ok(())
}
