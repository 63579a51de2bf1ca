//! Streams of requests over memory: what comes of each, and what is written before it.

ghost use Rattle.std.specs.Prelude.{◌≤◌};

use ld_edge::{MemLink, MemSink, MemSource};
use ld_head::Ending;
use ld_items::{Arrivals, Next, Received};
use ld_tree::Raw;
use std::alloc::Global;
use std::process::Abort;
use std::test::Fail;

const ASKING: &str =
    "POST /expand HTTP/1.1\r\nHost: h\r\nExpect: 100-continue\r\nContent-Length: 3\r\n\r\nabc";

const PLAIN: &str = "\r\nPOST /evict HTTP/1.1\r\nHost: h\r\nContent-Length: 2\r\n\r\n{}";

const CLOSING: &str = "GET /none HTTP/1.0\r\n\r\n";

const INTERIM: &str = "HTTP/1.1 100 Continue\r\n\r\n";

fn link_of(
    alloc: Global,
    stream: &str,
    piece: usize,
    read_fails: &[u64],
    write_fails: &[u64],
) -> Result<MemLink, Fail>
    requires { 1 ≤ piece }
{
    let bytes = Raw::from_vec(Vec::from_slice(alloc, stream.as_bytes())?);
    let source = MemSource::new(bytes, piece, read_fails.to_vec(alloc)?);
    let sink = MemSink::new(alloc, 4096, write_fails.to_vec(alloc)?);
    Ok(MemLink::new(source, sink))
}

// What comes next, in short.
fn short(alloc: Global, next: &Next) -> Result<String, Fail> {
    let text = match next {
        Next::Item(arrived) => {
            let closes = if arrived.marks.closes { " closes" } else { "" };
            match &arrived.item {
                Received::Ask { path, body } => {
                    let length = body.as_slice().len();
                    format!(in alloc; "{path:?} {length}{closes};")?
                }
                Received::Bad { status } => format!(in alloc; "{status}{closes};")?,
            }
        }
        Next::Ended(Ending::Between) => format!(in alloc; "between")?,
        Next::Ended(Ending::Inside { interim }) => format!(in alloc; "inside {interim}")?,
        Next::Ended(Ending::Shut) => format!(in alloc; "shut")?,
        Next::ReadFault(_) => format!(in alloc; "read fault")?,
        Next::WriteFault => format!(in alloc; "write fault")?,
        Next::NoMemory => format!(in alloc; "no memory")?,
    };
    Ok(text)
}

// What comes of a stream up to an item that closes, or to the end.
fn told(alloc: Global, link: &mut MemLink) -> Result<String, Fail> {
    let mut arrivals = Arrivals::new(alloc)?;
    let mut told = String::new(alloc);
    for _ in 0..4_u32 {
        let next = arrivals.next(alloc, link);
        told.push_str(short(alloc, &next)?.as_str())?;
        match next {
            Next::Item(arrived) if !arrived.marks.closes => {}
            _ => return Ok(told),
        }
    }
    Ok(told)
}

#[test]
fn items_come_in_pieces(rt: HostRuntime) -> Result<(), Fail> {
    let alloc = rt.alloc();
    let stream = format!(in alloc; "{ASKING}{PLAIN}{CLOSING}{PLAIN}")?;
    for piece in [1, 2, 7, 64, 4096] {
        let mut link = link_of(alloc, stream.as_str(), piece, &[], &[])?;
        let told = told(alloc, &mut link)?;
        assert_eq!(&rt; told.as_str(), "Expand 3;Evict 2;404 closes;", "{piece}");
        let (_, sink) = link.into_parts();
        assert_eq!(&rt; sink.bytes(), INTERIM.as_bytes(), "{piece}");
    }
    Ok(())
}

#[test]
fn each_beginning_ends_so(rt: HostRuntime) -> Result<(), Fail> {
    let alloc = rt.alloc();
    let head = ASKING.len() - 3;
    for length in 0..ASKING.len() {
        let mut bytes = String::new(alloc);
        bytes.push_str(ASKING.get(..length).ok_or("no front")?)?;
        let mut link = link_of(alloc, bytes.as_str(), 5, &[], &[])?;
        let told = told(alloc, &mut link)?;
        let wanted = if length == 0 {
            "between"
        } else if length < head {
            "inside false"
        } else {
            "inside true"
        };
        assert_eq!(&rt; told.as_str(), wanted, "{length}");
        let (_, sink) = link.into_parts();
        let written = if length < head { "" } else { INTERIM };
        assert_eq!(&rt; sink.bytes(), written.as_bytes(), "{length}");
    }
    Ok(())
}

#[test]
fn faults_end_it(rt: HostRuntime) -> Result<(), Fail> {
    let alloc = rt.alloc();
    let mut link = link_of(alloc, ASKING, 20, &[2], &[])?;
    assert_eq!(&rt; told(alloc, &mut link)?.as_str(), "read fault");
    let mut link = link_of(alloc, ASKING, 4096, &[], &[1])?;
    assert_eq!(&rt; told(alloc, &mut link)?.as_str(), "write fault");
    let (_, sink) = link.into_parts();
    assert_eq!(&rt; sink.bytes(), "".as_bytes());
    let mut link = link_of(alloc, PLAIN, 4096, &[], &[1])?;
    assert_eq!(&rt; told(alloc, &mut link)?.as_str(), "Evict 2;between");
    Ok(())
}
