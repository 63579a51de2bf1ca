//! Talks over memory: what goes out for a stream of requests, and how each ends.

ghost use Rattle.std.specs.Prelude.{◌≤◌};

use crate::fake::Echo;
use ld_edge::{MemLink, MemSink, MemSource};
use ld_head::SessionEnd;
use ld_talk::talk;
use ld_tree::Raw;
use std::alloc::Global;
use std::process::Abort;
use std::test::Fail;

const FIRST: &str =
    "POST /expand HTTP/1.1\r\nHost: h\r\nContent-Length: 14\r\n\r\n{\"document\":1}";

const FIRST_REPLY: &str =
    "HTTP/1.1 200 OK\r\nContent-Type: application/ld+json\r\nContent-Length: 1\r\nLD-Request: 1\r\nLD-Version: 7\r\n\r\n1";

const SECOND: &str =
    "POST /flatten HTTP/1.1\r\nHost: h\r\nExpect: 100-continue\r\nContent-Length: 14\r\n\r\n{\"document\":2}";

const SECOND_REPLY: &str =
    "HTTP/1.1 100 Continue\r\n\r\nHTTP/1.1 200 OK\r\nContent-Type: application/ld+json\r\nContent-Length: 1\r\nLD-Request: 2\r\nLD-Version: 7\r\n\r\n2";

const UNREAD: &str =
    "POST /compact HTTP/1.1\r\nHost: h\r\nContent-Length: 2\r\nConnection: close\r\n\r\n{}";

const UNREAD_REPLY: &str =
    "HTTP/1.1 400 Bad Request\r\nContent-Type: application/json\r\nContent-Length: 25\r\nConnection: close\r\n\r\n{\"own\":\"not an envelope\"}";

fn link_of(
    alloc: Global,
    stream: &str,
    piece: usize,
    read_fails: &[u64],
    write_fails: &[u64],
) -> Result<MemLink, Fail>
    requires { 1 ≤ piece }
{
    let bytes = Raw::from_vec(Vec::from_slice(alloc, stream.as_bytes())?);
    let source = MemSource::new(bytes, piece, read_fails.to_vec(alloc)?);
    let sink = MemSink::new(alloc, 4096, write_fails.to_vec(alloc)?);
    Ok(MemLink::new(source, sink))
}

// How a talk ends, and what went out.
fn talked(alloc: Global, link: MemLink) -> Result<(SessionEnd, String), Fail> {
    let mut link = link;
    let (_echo, end) = talk(alloc, &mut link, &mut (), Echo { number: 0 });
    let (_, sink) = link.into_parts();
    let mut text = String::new(alloc);
    text.push_str(str::from_utf8(sink.bytes()).map_err(|_| "not utf-8")?)?;
    Ok((end, text))
}

#[test]
fn requests_are_answered_in_order(rt: HostRuntime) -> Result<(), Fail> {
    let alloc = rt.alloc();
    let stream = format!(in alloc; "{FIRST}{SECOND}{UNREAD}{FIRST}")?;
    let wanted = format!(in alloc; "{FIRST_REPLY}{SECOND_REPLY}{UNREAD_REPLY}")?;
    for piece in [1, 7, 4096] {
        let (end, text) = talked(alloc, link_of(alloc, stream.as_str(), piece, &[], &[])?)?;
        assert_eq!(&rt; end, SessionEnd::Closed, "{piece}");
        assert_eq!(&rt; text.as_str(), wanted.as_str(), "{piece}");
    }
    Ok(())
}

#[test]
fn heads_are_refused(rt: HostRuntime) -> Result<(), Fail> {
    let alloc = rt.alloc();
    let (end, text) = talked(
        alloc,
        link_of(
            alloc,
            "GET /expand HTTP/1.1\r\nHost: h\r\n\r\n",
            4096,
            &[],
            &[],
        )?,
    )?;
    assert_eq!(&rt; end, SessionEnd::Closed);
    assert_eq!(&rt;
        text.as_str(),
        "HTTP/1.1 405 Method Not Allowed\r\nContent-Type: application/json\r\nContent-Length: 16\r\nAllow: POST\r\n\r\n{\"own\":\"method\"}"
    );
    let (end, text) = talked(
        alloc,
        link_of(alloc, "GET /expand HTTP/1.1\r\n\r\n", 4096, &[], &[])?,
    )?;
    assert_eq!(&rt; end, SessionEnd::BadHead(400));
    assert_eq!(&rt;
        text.as_str(),
        "HTTP/1.1 400 Bad Request\r\nContent-Type: application/json\r\nContent-Length: 18\r\nConnection: close\r\n\r\n{\"own\":\"bad head\"}"
    );
    Ok(())
}

#[test]
fn each_beginning_ends_so(rt: HostRuntime) -> Result<(), Fail> {
    let alloc = rt.alloc();
    for length in 0..FIRST.len() {
        let front = FIRST.get(..length).ok_or("no front")?;
        let (end, text) = talked(alloc, link_of(alloc, front, 5, &[], &[])?)?;
        let wanted = if length == 0 {
            SessionEnd::Closed
        } else {
            SessionEnd::Truncated
        };
        assert_eq!(&rt; end, wanted, "{length}");
        assert_eq!(&rt; text.as_str(), "", "{length}");
    }
    Ok(())
}

#[test]
fn faults_end_it(rt: HostRuntime) -> Result<(), Fail> {
    let alloc = rt.alloc();
    let stream = format!(in alloc; "{FIRST}{SECOND}")?;
    let (end, text) = talked(alloc, link_of(alloc, stream.as_str(), 4096, &[2], &[])?)?;
    assert_eq!(&rt; end, SessionEnd::ReadFault);
    let wanted = format!(in alloc; "{FIRST_REPLY}{SECOND_REPLY}")?;
    assert_eq!(&rt; text.as_str(), wanted.as_str());
    let (end, text) = talked(alloc, link_of(alloc, stream.as_str(), 4096, &[], &[2])?)?;
    assert_eq!(&rt; end, SessionEnd::WriteFault);
    assert_eq!(&rt; text.as_str(), FIRST_REPLY);
    Ok(())
}

#[test]
fn a_full_history_ends_it(rt: HostRuntime) -> Result<(), Fail> {
    let alloc = rt.alloc();
    let evict = "POST /evict HTTP/1.1\r\nHost: h\r\nContent-Length: 14\r\n\r\n{\"iri\":\"x:/a\"}";
    let revise = "POST /revise HTTP/1.1\r\nHost: h\r\nContent-Length: 14\r\n\r\n{\"iri\":\"x:/a\"}";
    let stream = format!(in alloc; "{evict}{revise}{FIRST}")?;
    let (end, text) = talked(alloc, link_of(alloc, stream.as_str(), 4096, &[], &[])?)?;
    assert_eq!(&rt; end, SessionEnd::HistoryFull { events: 9 });
    assert_eq!(&rt;
        text.as_str(),
        "HTTP/1.1 500 Internal Server Error\r\nContent-Type: application/json\r\nContent-Length: 19\r\n\r\n{\"own\":\"no memory\"}HTTP/1.1 503 Service Unavailable\r\nContent-Type: application/json\r\nContent-Length: 33\r\nConnection: close\r\n\r\n{\"events\":9,\"own\":\"history full\"}"
    );
    Ok(())
}
