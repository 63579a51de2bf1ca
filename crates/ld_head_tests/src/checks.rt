//! The checks of a head, of its path and its method, in their order.
ghost use Rattle.std.specs.Prelude.{◌<◌};

use crate::told::{PLAIN, first_of};
use ld_head::{HeadRefusal, Marks, read_head};
use std::alloc::Global;
use std::process::Abort;
use std::test::Fail;

/// What is wrong with a head, in the order of the checks: the line that makes it so, where it is one, and the status.
const FAULTS: [(&str, u16); 8] = [
    ("no colon\r\n", 400),
    ("Host: b\r\n", 400),
    ("Content-Length: +1\r\n", 400),
    ("Transfer-Encoding: chunked\r\n", 411),
    ("Content-Length: 4194305\r\n", 413),
    ("Expect: 200-ok\r\n", 417),
    ("", 404),
    ("", 405),
];

const PATH: usize = 6;

const METHOD: usize = 7;

fn has_length(fault: usize) -> bool {
    fault == 2 || fault == 4
}

// A request with these two faults, which may be one.
fn request_with(alloc: Global, first: usize, second: usize) -> Result<String, Fail>
    requires first { first < 8 }
    requires second { second < 8 }
{
    let method = if first == METHOD || second == METHOD {
        "PUT"
    } else {
        "POST"
    };
    let target = if first == PATH || second == PATH {
        "/expand/"
    } else {
        "/expand"
    };
    let length = if has_length(first) || has_length(second) {
        ""
    } else {
        "Content-Length: 0\r\n"
    };
    let line = FAULTS[first].0;
    let other = if first == second {
        ""
    } else {
        FAULTS[second].0
    };
    Ok(format!(in alloc; "{method} {target} HTTP/1.1\r\nHost: a\r\n{length}{line}{other}\r\n")?)
}

#[test]
fn the_first_check_that_fails_decides(rt: HostRuntime) -> Result<(), Fail> {
    let alloc = rt.alloc();
    for first in 0..8 {
        for second in first..8 {
            let request = request_with(alloc, first, second)?;
            let status = first_of(request.as_bytes()).map(|found| found.0);
            assert_eq!(&rt; status, Some(FAULTS[first].1), "{request}");
        }
    }
    Ok(())
}

// A request, the status of its item (200 where it asks), and whether the interim text is due, it closes and it is a HEAD.
const REQUESTS: [(&str, u16, (bool, bool, bool)); 35] = [
    // the host
    ("GET /expand HTTP/1.1\n\n", 400, (false, true, false)),
    (
        "GET /expand HTTP/1.1\nHost: h\n\n",
        405,
        (false, false, false),
    ),
    (
        "GET /expand HTTP/1.1\nhOST:\n\n",
        405,
        (false, false, false),
    ),
    (
        "GET /expand HTTP/1.1\nHost: a\nHost: a\n\n",
        400,
        (false, true, false),
    ),
    (
        "GET /expand HTTP/1.0\nHost: a\nHost: b\n\n",
        405,
        (false, true, false),
    ),
    ("GET /expand HTTP/1.0\n\n", 405, (false, true, false)),
    // the method and the path
    (
        "HEAD /expand HTTP/1.1\nHost: h\n\n",
        405,
        (false, false, true),
    ),
    ("HEAD /expand HTTP/1.1\n\n", 400, (false, true, true)),
    ("HEAD /expand HTTP/1.1 \n\n", 400, (false, true, false)),
    (
        "post /expand HTTP/1.1\nHost: h\n\n",
        405,
        (false, false, false),
    ),
    (
        "POST /expand HTTP/1.1\nHost: h\n\n",
        411,
        (false, true, false),
    ),
    (
        "GET /expand? HTTP/1.1\nHost: h\n\n",
        404,
        (false, false, false),
    ),
    (
        "GET http://h/expand HTTP/1.1\nHost: h\n\n",
        404,
        (false, false, false),
    ),
    (
        "GET /revise HTTP/1.1\nHost: h\n\n",
        405,
        (false, false, false),
    ),
    (
        "POST /evict/ HTTP/1.1\nHost: h\nContent-Length: 0\n\n",
        404,
        (false, false, false),
    ),
    (
        "POST /revise HTTP/1.1\nHost: h\nContent-Length: 20\n\n{\"iri\":\"http://c/x\"}",
        200,
        (false, false, false),
    ),
    (
        "POST /evict HTTP/1.0\nContent-Length: 20\n\n{\"iri\":\"http://c/x\"}",
        200,
        (false, true, false),
    ),
    (
        "\r\n\nPOST /flatten HTTP/1.1\r\nHost: h\r\nContent-Length: 0\r\n\r\n",
        200,
        (false, false, false),
    ),
    (
        "POST /compact HTTP/1.0\r\nContent-Length: 0\n\r\n",
        200,
        (false, true, false),
    ),
    // the length
    (
        "POST /expand HTTP/1.1\nHost: h\nContent-Length: \t0003 \n\nabc",
        200,
        (false, false, false),
    ),
    (
        "POST /expand HTTP/1.1\nHost: h\nContent-Length:\n\n",
        400,
        (false, true, false),
    ),
    (
        "POST /expand HTTP/1.1\nHost: h\nContent-Length: 0, 0\n\n",
        400,
        (false, true, false),
    ),
    (
        "POST /expand HTTP/1.1\nHost: h\nContent-Length: 0\ncontent-length: 0\n\n",
        400,
        (false, true, false),
    ),
    (
        "GET /expand HTTP/1.0\nContent-Length: -0\n\n",
        400,
        (false, true, false),
    ),
    (
        "GET /expand HTTP/1.0\nTransfer-Encoding:\n\n",
        411,
        (false, true, false),
    ),
    // the interim text
    (
        "GET /expand HTTP/1.1\nHost: h\nExpect: 100-CONTINUE\n\n",
        405,
        (true, false, false),
    ),
    (
        "GET / HTTP/1.1\nHost: h\nexpect: 100-continue \nExpect:\t100-Continue\n\n",
        404,
        (true, false, false),
    ),
    (
        "GET / HTTP/1.1\nHost: h\nExpect:\n\n",
        417,
        (false, true, false),
    ),
    (
        "GET / HTTP/1.1\nHost: h\nExpect: 100-continue, 100-continue\n\n",
        417,
        (false, true, false),
    ),
    (
        "HEAD / HTTP/1.1\nHost: h\nExpect: 100-continue;q=1\n\n",
        417,
        (false, true, true),
    ),
    ("GET / HTTP/1.0\nExpect: x\n\n", 404, (false, true, false)),
    // the connection
    (
        "GET / HTTP/1.1\nHost: h\nConnection: keep-alive\nConnection: x ,\tClose\n\n",
        404,
        (false, true, false),
    ),
    (
        "GET / HTTP/1.1\nHost: h\nConnection: closed, keep-alive\n\n",
        404,
        (false, false, false),
    ),
    (
        "GET / HTTP/1.0\nConnection: keep-alive\n\n",
        404,
        (false, true, false),
    ),
    // what is no head
    (
        "GET / HTTP/1.1\nHost: h\nTwo Words: x\n\n",
        400,
        (false, true, false),
    ),
];

#[test]
fn requests_have_their_status_and_marks(rt: HostRuntime) {
    for (request, status, (interim, closes, head_alone)) in REQUESTS {
        let marks = Marks {
            interim,
            closes,
            head_alone,
        };
        assert_eq!(&rt;
            first_of(request.as_bytes()),
            Some((status, marks)),
            "{request}"
        );
    }
}

#[test]
fn any_number_of_digits_is_a_length(rt: HostRuntime) -> Result<(), Fail> {
    let alloc = rt.alloc();
    let mut digits = String::new(alloc);
    for _ in 0..400 {
        digits.push('9')?;
    }
    let request = format!(in alloc; "GET / HTTP/1.1\nHost: h\nContent-Length: {digits}\n\n")?;
    let closing = Marks {
        closes: true,
        ..PLAIN
    };
    assert_eq!(&rt; first_of(request.as_bytes()), Some((413, closing)));
    Ok(())
}

#[test]
fn a_head_has_at_most_64_fields(rt: HostRuntime) -> Result<(), Fail> {
    let alloc = rt.alloc();
    let mut head = String::from_str(alloc, "GET / HTTP/1.1\nHost: h\n")?;
    for count in 1..66 {
        let request = format!(in alloc; "{head}\n")?;
        let status = if count <= 64 { 404 } else { 400 };
        assert_eq!(&rt;
            first_of(request.as_bytes()).map(|found| found.0),
            Some(status),
            "{count}"
        );
        head.push_str("x:\n")?;
    }
    Ok(())
}

#[test]
fn a_head_is_read(rt: HostRuntime) {
    let alloc = rt.alloc();
    let block =
        b"\nPOST /x?y HTTP/1.1\r\nHost: h\r\nContent-Length: 4194304\r\nExpect: 100-continue\r\n\r\n";
    match read_head(alloc, block) {
        Ok(head) => {
            assert_eq!(&rt; head.method.as_str(), "POST");
            assert_eq!(&rt; head.path.as_str(), "/x?y");
            assert_eq!(&rt; head.length, 4_194_304);
            assert!(&rt; head.interim && !head.closes);
            assert!(&rt; head.marks(65_535).closes && !head.marks(65_534).closes);
        }
        Err(_) => rt.panic("refused"),
    }
    match read_head(
        alloc,
        b"HEAD / HTTP/1.1\nHost: h\nContent-Length: 4194305\n\n",
    ) {
        Err(HeadRefusal::Status { status, was_head }) => {
            assert!(&rt; status == 413 && was_head);
        }
        _ => rt.panic("not refused"),
    }
}
