//! Replies, byte for byte.

use crate::told::PLAIN;
use bytes::BytesMut;
use ld_head::{
    Item, Marks, Next, Outcome, Path, Reply, interim_text, next_item, no_memory_reply, write_reply,
};
use ld_tree::Tree;
use ld_tree_read::read_tree;
use std::alloc::Global;
use std::process::Abort;
use std::test::Fail;

const CLOSING: Marks = Marks {
    interim: false,
    closes: true,
    head_alone: false,
};

// Asserts the reply's bytes, behind what was there.
fn replies(
    rt: &impl Abort,
    alloc: Global,
    fields: Option<(u32, u64)>,
    outcome: &Outcome,
    marks: Marks,
    expected: &[u8],
) -> Result<(), Fail> {
    let reply = Reply::new(alloc, fields, outcome, marks)?;
    let mut out = BytesMut::copy_from_slice(alloc, b">")?;
    write_reply(&reply, &mut out)?;
    let text = format!(in alloc; "{outcome:?}")?;
    assert_eq!(rt; &out.as_slice()[..1], b">" as &[u8]);
    assert_eq!(rt; &out.as_slice()[1..], expected, "{text}");
    Ok(())
}

const REQUEST: &[u8] = b"POST /expand HTTP/1.1\r\nHost: h\r\nContent-Length: 107\r\n\r\n\
{\"document\":{\"@context\":{\"name\":\"http://xmlns.com/foaf/0.1/name\"},\"@id\":\"http://a.example/1\",\"name\":\"Ann\"}}";

const RESULT: &[u8] =
    b"[{\"@id\":\"http://a.example/1\",\"http://xmlns.com/foaf/0.1/name\":[{\"@value\":\"Ann\"}]}]";

#[test]
fn a_document_and_its_result(rt: HostRuntime) -> Result<(), Fail> {
    let alloc = rt.alloc();
    match next_item(0, REQUEST) {
        Next::Item(Item::Ask { path, body }, marks, rest) => {
            assert_eq!(&rt; (path, marks), (Path::Expand, PLAIN));
            assert_eq!(&rt; (body.len(), rest.len()), (107, 0));
        }
        _ => rt.panic("no request"),
    }
    replies(
        &rt,
        alloc,
        Some((1, 0)),
        &Outcome::Result(read_tree(alloc, RESULT)?),
        PLAIN,
        b"HTTP/1.1 200 OK\r\nContent-Type: application/ld+json\r\nContent-Length: 82\r\nLD-Request: 1\r\nLD-Version: 0\r\n\r\n\
[{\"@id\":\"http://a.example/1\",\"http://xmlns.com/foaf/0.1/name\":[{\"@value\":\"Ann\"}]}]",
    )?;
    assert_eq!(&rt; interim_text(), b"HTTP/1.1 100 Continue\r\n\r\n" as &[u8]);
    Ok(())
}

#[test]
fn refused_requests(rt: HostRuntime) -> Result<(), Fail> {
    let alloc = rt.alloc();
    replies(
        &rt,
        alloc,
        None,
        &Outcome::Bad { status: 405 },
        PLAIN,
        b"HTTP/1.1 405 Method Not Allowed\r\nContent-Type: application/json\r\nContent-Length: 16\r\nAllow: POST\r\n\r\n{\"own\":\"method\"}",
    )?;
    replies(
        &rt,
        alloc,
        Some((1, 1)),
        &Outcome::Bad { status: 400 },
        CLOSING,
        b"HTTP/1.1 400 Bad Request\r\nContent-Type: application/json\r\nContent-Length: 18\r\nConnection: close\r\n\r\n{\"own\":\"bad head\"}",
    )?;
    let head = Marks {
        head_alone: true,
        ..CLOSING
    };
    replies(
        &rt,
        alloc,
        None,
        &Outcome::Bad { status: 405 },
        head,
        b"HTTP/1.1 405 Method Not Allowed\r\nContent-Type: application/json\r\nContent-Length: 16\r\nAllow: POST\r\nConnection: close\r\n\r\n",
    )
}

fn body(alloc: Global) -> Result<Tree, Fail> {
    Ok(read_tree(alloc, b"{\"x\":1}")?)
}

// Asserts the status with its phrase, and the body, of a reply that closes and has a number and a version, or none.
fn comes_to(
    rt: &impl Abort,
    alloc: Global,
    outcome: Outcome,
    status: &str,
    is_recorded: bool,
    body: &str,
) -> Result<(), Fail> {
    let length = body.len();
    let fields = if is_recorded {
        "LD-Request: 4294967295\r\nLD-Version: 18446744073709551615\r\n"
    } else {
        ""
    };
    let expected = format!(in alloc;
        "HTTP/1.1 {status}\r\nContent-Type: application/json\r\nContent-Length: {length}\r\n{fields}Connection: close\r\n\r\n{body}"
    )?;
    replies(
        rt,
        alloc,
        Some((u32::MAX, u64::MAX)),
        &outcome,
        CLOSING,
        expected.as_bytes(),
    )
}

#[test]
fn outcomes_of_what_was_recorded(rt: HostRuntime) -> Result<(), Fail> {
    let alloc = rt.alloc();
    let unavailable = "503 Service Unavailable";
    let own = "422 Unprocessable Content";
    let rows = [
        (Outcome::Evicted { version: 3 }, "200 OK", "{\"version\":3}"),
        (Outcome::Revised { version: 2 }, "200 OK", "{\"version\":2}"),
        (
            Outcome::Same { version: 2 },
            "200 OK",
            "{\"own\":\"same\",\"version\":2}",
        ),
        (Outcome::Code(body(alloc)?), own, "{\"x\":1}"),
        (Outcome::Own(body(alloc)?), own, "{\"x\":1}"),
        (
            Outcome::LoadFault(body(alloc)?),
            "502 Bad Gateway",
            "{\"x\":1}",
        ),
        (Outcome::TooMany(body(alloc)?), unavailable, "{\"x\":1}"),
        (Outcome::StoreFull, unavailable, "{\"own\":\"store full\"}"),
        (
            Outcome::ArchiveFull { bytes: 9 },
            unavailable,
            "{\"bytes\":9,\"own\":\"archive full\"}",
        ),
        (
            Outcome::Held { session: 1 },
            "409 Conflict",
            "{\"own\":\"held\",\"session\":1}",
        ),
        (
            Outcome::Revising { flight: 7 },
            "409 Conflict",
            "{\"flight\":7,\"own\":\"revising\"}",
        ),
        (
            Outcome::Flying { flight: 7 },
            "409 Conflict",
            "{\"flight\":7,\"own\":\"flying\"}",
        ),
        (
            Outcome::NotStored { version: 5 },
            "404 Not Found",
            "{\"own\":\"not stored\",\"version\":5}",
        ),
        (
            Outcome::NoMemory,
            "500 Internal Server Error",
            "{\"own\":\"no memory\"}",
        ),
    ];
    for (outcome, status, body) in rows {
        comes_to(&rt, alloc, outcome, status, true, body)?;
    }
    Ok(())
}

#[test]
fn outcomes_of_what_was_not_recorded(rt: HostRuntime) -> Result<(), Fail> {
    let alloc = rt.alloc();
    let rows = [
        (
            Outcome::BadBody(body(alloc)?),
            "400 Bad Request",
            "{\"x\":1}",
        ),
        (
            Outcome::HistoryFull { events: 8 },
            "503 Service Unavailable",
            "{\"events\":8,\"own\":\"history full\"}",
        ),
        (
            Outcome::Bad { status: 400 },
            "400 Bad Request",
            "{\"own\":\"bad head\"}",
        ),
        (
            Outcome::Bad { status: 404 },
            "404 Not Found",
            "{\"own\":\"no such path\"}",
        ),
        (
            Outcome::Bad { status: 411 },
            "411 Length Required",
            "{\"own\":\"length required\"}",
        ),
        (
            Outcome::Bad { status: 413 },
            "413 Content Too Large",
            "{\"own\":\"body too long\"}",
        ),
        (
            Outcome::Bad { status: 417 },
            "417 Expectation Failed",
            "{\"own\":\"expectation\"}",
        ),
        (
            Outcome::Bad { status: 431 },
            "431 Request Header Fields Too Large",
            "{\"own\":\"head too long\"}",
        ),
    ];
    for (outcome, status, body) in rows {
        comes_to(&rt, alloc, outcome, status, false, body)?;
    }
    replies(
        &rt,
        alloc,
        None,
        &Outcome::HistoryFull { events: 0 },
        PLAIN,
        b"HTTP/1.1 503 Service Unavailable\r\nContent-Type: application/json\r\nContent-Length: 33\r\nConnection: close\r\n\r\n{\"events\":0,\"own\":\"history full\"}",
    )
}

#[test]
fn want_of_memory_has_fixed_replies(rt: HostRuntime) -> Result<(), Fail> {
    let alloc = rt.alloc();
    for closes in [false, true] {
        for head_alone in [false, true] {
            let marks = Marks {
                closes,
                head_alone,
                ..PLAIN
            };
            replies(
                &rt,
                alloc,
                None,
                &Outcome::NoMemory,
                marks,
                no_memory_reply(marks),
            )?;
        }
    }
    Ok(())
}
