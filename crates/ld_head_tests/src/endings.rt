//! Where heads and inputs end, however the bytes are cut.
ghost use Rattle.std.specs.Prelude.{◌<◌};

use crate::told::first_of;
use ld_head::{Begun, Came, Ending, Next, Summary, next_item, outline};
use ld_tree::Raw;
use std::alloc::Global;
use std::process::Abort;
use std::test::Fail;

const REQUEST: &[u8] =
    b"POST /expand HTTP/1.1\r\nHost: h\r\nContent-Length: 15\r\nExpect: 100-continue\r\n\r\n{\"document\":{}}";

// How many bytes of it the head has.
const HEAD: usize = 76;

#[test]
fn each_beginning_of_a_request_is_inside_it(rt: HostRuntime) {
    for len in 0..REQUEST.len() {
        let ending = if len == 0 {
            Ending::Between
        } else {
            Ending::Inside {
                interim: len >= HEAD,
            }
        };
        assert_eq!(&rt;
            outline(&REQUEST[..len]),
            Summary { items: 0, ending },
            "{len}"
        );
    }
    assert_eq!(&rt;
        outline(REQUEST),
        Summary {
            items: 1,
            ending: Ending::Between
        }
    );
}

#[test]
fn inputs_end(rt: HostRuntime) {
    let between = |items| Summary {
        items,
        ending: Ending::Between,
    };
    let inside = |items| Summary {
        items,
        ending: Ending::Inside { interim: false },
    };
    let shut = |items| Summary {
        items,
        ending: Ending::Shut,
    };
    let inputs: [(&[u8], Summary); 9] = [
        (b"\n\r\n\n", between(0)),
        (b"\n\r", inside(0)),
        (b"\r\r\n", inside(0)),
        (b"x\r\n\r", inside(0)),
        (b"x\n\r\nGET / HTTP/1.1\nHost: h\n\n", shut(1)),
        (
            b"GET / HTTP/1.1\nHost: h\n\n\r\nGET / HTTP/1.1\nHost: h\n\n\n",
            between(2),
        ),
        (
            b"GET / HTTP/1.1\nHost: h\nContent-Length: 2\n\nG",
            inside(0),
        ),
        (
            b"GET / HTTP/1.1\nHost: h\nContent-Length: 2\n\nGET / HTTP/1.0\n\n",
            shut(2),
        ),
        (b"GET / HTTP/1.0\n\nGET / HTTP/1.1\nHost: h\n\n", shut(1)),
    ];
    for (bytes, summary) in inputs {
        assert_eq!(&rt; outline(bytes), summary, "{bytes:?}");
    }
}

// The first head, of bytes that come in pieces of so many.
fn first_head(alloc: Global, bytes: &[u8], piece: usize) -> Option<Raw>
    requires { 0 < piece }
{
    let mut begun = Begun::new(alloc);
    for part in bytes.chunks(piece) {
        begun = match begun.take(part) {
            Came::Whole { block, .. } => return Some(block),
            Came::More { begun } => begun,
            _ => return None,
        };
    }
    None
}

#[test]
fn a_head_is_the_same_in_any_pieces(rt: HostRuntime) {
    for piece in 1..REQUEST.len() {
        match first_head(rt.alloc(), REQUEST, piece) {
            Some(block) => assert_eq!(&rt; block.as_slice(), &REQUEST[..HEAD], "{piece}"),
            None => rt.panic("no head"),
        }
    }
}

// How many bytes of the head below aren't its long field's value.
const BESIDE_FILLER: usize = 34;

// A head of so many bytes, with one long field.
fn long_head(alloc: Global, len: usize) -> Result<String, Fail> {
    let mut head = String::from_str(alloc, "\r\nGET / HTTP/1.1\r\nHost: h\r\nx: ")?;
    for _ in BESIDE_FILLER..len {
        head.push('a')?;
    }
    head.push_str("\r\n\r\n")?;
    Ok(head)
}

// Whether the bytes are too long for a head, at once and in pieces.
fn is_too_long(rt: &impl Abort, alloc: Global, bytes: &[u8]) -> bool {
    let is_refused = first_of(bytes).map(|found| found.0) == Some(431);
    let mut begun = Begun::new(alloc);
    for part in bytes.chunks(1000) {
        begun = match begun.take(part) {
            Came::More { begun } => begun,
            Came::TooLong => {
                assert!(rt; is_refused);
                return true;
            }
            _ => break,
        };
    }
    assert!(rt; !is_refused);
    false
}

#[test]
fn a_head_has_at_most_16384_bytes(rt: HostRuntime) -> Result<(), Fail> {
    let alloc = rt.alloc();
    assert!(&rt; !is_too_long(&rt, alloc, long_head(alloc, 16_384)?.as_bytes()));
    assert!(&rt; is_too_long(&rt, alloc, long_head(alloc, 16_385)?.as_bytes()));
    let mut lines = Vec::new(alloc);
    lines.resize(16_384, b'\n')?;
    assert!(&rt; is_too_long(&rt, alloc, &lines));
    lines.truncate(16_383);
    assert!(&rt; !is_too_long(&rt, alloc, &lines));
    assert_eq!(&rt; outline(&lines).ending, Ending::Between);
    Ok(())
}

#[test]
fn the_last_request_closes(rt: HostRuntime) -> Result<(), Fail> {
    let mut bytes = Vec::new(rt.alloc());
    for _ in 0..65_537 {
        bytes.extend_from_slice(b"GET / HTTP/1.1\nHost:\n\n")?;
    }
    assert_eq!(&rt;
        outline(&bytes),
        Summary {
            items: 65_536,
            ending: Ending::Shut
        }
    );
    let Next::Item(_, _, rest) = next_item(65_534, &bytes) else {
        rt.panic("no item");
    };
    assert!(&rt; matches!(next_item(65_535, rest), Next::Last(_, _)));
    Ok(())
}
