//! Sources, sinks and links, called through their traits.
ghost use Rattle.std.specs.Prelude.{◌≡◌, ◌<◌, ℕ, length, take, IfOk};
ghost use Rattle.std.specs.Io.KnownBytes.{prepend_known, append_known};

use ld_edge::{
    Door, Failed, FaultPlan, Link, ListenDoor, MemDoor, MemLink, MemSink, MemSource, Sink, Source,
    Status, StdSink, StdSource,
};
use ld_tree::Raw;
use std::alloc::Global;
use std::io;
use std::io::{ErrorKind, Read, Write};
use std::net::{TcpListener, TcpStream};
use std::process::Abort;
use std::test::Fail;

type Answer = Result<usize, Failed>;

// Reads into four bytes, once for each answer that is wanted, and gives what was read.
fn read_bytes<S: Source>(
    rt: &impl Abort,
    alloc: Global,
    source: &mut S,
    wanted: &[Answer],
) -> Result<Vec<u8>, Fail> {
    let mut all = Vec::new(alloc);
    let mut failures: u64 = 0;
    for answer in wanted {
        let mut piece = [0; 4];
        let read = source.read(&mut piece);
        assert_eq!(rt; read, *answer);
        match read {
            Ok(count) => all.extend_from_slice(&piece[..count])?,
            Err(Failed) => failures = failures.saturating_add(1),
        }
        assert_eq!(rt; source.faults(), failures);
    }
    Ok(all)
}

// Writes what is left of the bytes, once for each answer that is wanted.
fn write_bytes<K: Sink>(rt: &impl Abort, sink: &mut K, bytes: &[u8], wanted: &[Answer]) {
    let mut rest = bytes;
    let mut failures: u64 = 0;
    for answer in wanted {
        assert!(rt; !rest.is_empty());
        let written = sink.write(rest);
        assert_eq!(rt; written, *answer);
        match written {
            Ok(count) => rest = &rest[count..],
            Err(Failed) => failures = failures.saturating_add(1),
        }
        assert_eq!(rt; sink.faults(), failures);
    }
    assert!(rt; rest.is_empty());
}

// The greatest piece, the calls that fail, and the answers.
type Case = (usize, &'static [u64], &'static [Answer]);

#[test]
fn memory_gives_its_bytes(rt: HostRuntime) -> Result<(), Fail> {
    let cases: [Case; 3] = [
        (1, &[], &[Ok(1), Ok(1), Ok(1), Ok(1), Ok(1), Ok(0), Ok(0)]),
        (3, &[2], &[Ok(3), Err(Failed), Ok(2), Ok(0), Ok(0)]),
        (
            9,
            &[3, 1, 4],
            &[Err(Failed), Ok(4), Err(Failed), Err(Failed), Ok(1), Ok(0)],
        ),
    ];
    for (piece, fail_at, wanted) in &cases {
        assert!(rt; *piece >= 1);
        let bytes = Raw::from_vec(b"abcde".to_vec(rt.alloc())?);
        let mut source = MemSource::new(bytes, *piece, fail_at.to_vec(rt.alloc())?);
        let read = read_bytes(&rt, rt.alloc(), &mut source, wanted)?;
        assert_eq!(rt; read.as_slice(), b"abcde".as_slice());
    }
    Ok(())
}

#[test]
fn memory_takes_bytes(rt: HostRuntime) -> Result<(), Fail> {
    let cases: [Case; 3] = [
        (1, &[], &[Ok(1), Ok(1), Ok(1), Ok(1), Ok(1)]),
        (3, &[2], &[Ok(3), Err(Failed), Ok(2)]),
        (9, &[2, 1], &[Err(Failed), Err(Failed), Ok(5)]),
    ];
    for (piece, fail_at, wanted) in &cases {
        assert!(rt; *piece >= 1);
        let mut sink = MemSink::new(rt.alloc(), *piece, fail_at.to_vec(rt.alloc())?);
        write_bytes(&rt, &mut sink, b"abcde", wanted);
        assert_eq!(rt; sink.bytes(), b"abcde".as_slice());
    }
    Ok(())
}

// Reads once, and writes once of what was read. That a write leaves what is left, and a read what is
// held, is what ties the bytes of the two sides.
fn echo<L: Link>(link: &mut L, into: &mut [u8]) -> Result<usize, Failed>
    requires { 0 < length into.old }
    ensures held { IfOk result (λ n. (L.outgoing link.new).held ≡ append_known (L.outgoing link.old).held (take n into.new)) }
    ensures left { IfOk result (λ n. (m : ℕ) × ((L.incoming link.old).left ≡ prepend_known (take m into.new) (L.incoming link.new).left)) }
{
    let count = link.read(into)?;
    if count == 0 {
        return Ok(0);
    }
    link.write(&into[..count])
}

#[test]
fn a_link_counts_the_failures_of_both_sides(rt: HostRuntime) -> Result<(), Fail> {
    let bytes = Raw::from_vec(b"abcde".to_vec(rt.alloc())?);
    let source = MemSource::new(bytes, 3, [2].to_vec(rt.alloc())?);
    let sink = MemSink::new(rt.alloc(), 1, [1].to_vec(rt.alloc())?);
    let mut link = MemLink::new(source, sink);
    let mut into = [0; 4];
    assert_eq!(rt; echo(&mut link, &mut into), Err(Failed));
    assert_eq!(rt; echo(&mut link, &mut into), Err(Failed));
    assert_eq!(rt; link.link_faults(), 2);
    assert_eq!(rt; Source::faults(&link), 1);
    assert_eq!(rt; Sink::faults(&link), 1);
    assert_eq!(rt; echo(&mut link, &mut into), Ok(1));
    assert_eq!(rt; echo(&mut link, &mut into), Ok(0));
    let (source, sink) = link.into_parts();
    assert_eq!(rt; sink.bytes(), b"d".as_slice());
    assert_eq!(rt; source.faults(), 1);
    Ok(())
}

// What a call of a fake meets.
#[derive(Clone, Copy)]
enum Weather {
    Fair,
    Signal,
    Broken,
    Full,
}

// Gives or takes one byte a call.
#[derive(Drop)]
struct Fake {
    weather: &'static [Weather],
    bytes: Vec<u8>,
}

impl Fake {
    fn next_weather(&mut self) -> Weather {
        match self.weather {
            [] => Weather::Fair,
            [first, rest @ ..] => {
                self.weather = rest;
                *first
            }
        }
    }
}

impl Read for Fake {
    fn read(&mut self, into: &mut [u8]) -> io::Result<usize> {
        match self.next_weather() {
            Weather::Signal => Err(ErrorKind::Interrupted.into()),
            Weather::Broken => Err(ErrorKind::Other.into()),
            Weather::Full => Ok(0),
            Weather::Fair => {
                if into.is_empty() || self.bytes.is_empty() {
                    return Ok(0);
                }
                into[0] = self.bytes.remove(0);
                Ok(1)
            }
        }
    }
}

impl Write for Fake {
    fn write(&mut self, bytes: &[u8]) -> io::Result<usize> {
        match self.next_weather() {
            Weather::Signal => Err(ErrorKind::Interrupted.into()),
            Weather::Broken => Err(ErrorKind::Other.into()),
            Weather::Full => Ok(0),
            Weather::Fair => {
                let taken = &bytes[..bytes.len().min(1)];
                self.bytes.extend_from_slice(taken)?;
                Ok(taken.len())
            }
        }
    }

    fn flush(&mut self) -> io::Result<()> {
        Ok(())
    }
}

#[test]
fn a_reader_fails_once(rt: HostRuntime) -> Result<(), Fail> {
    let fake = Fake {
        weather: &[
            Weather::Fair,
            Weather::Broken,
            Weather::Signal,
            Weather::Signal,
        ],
        bytes: b"abc".to_vec(rt.alloc())?,
    };
    let mut source = StdSource::new(fake);
    let wanted = [Ok(1), Err(Failed), Ok(1), Ok(1), Ok(0), Ok(0)];
    let read = read_bytes(&rt, rt.alloc(), &mut source, &wanted)?;
    assert_eq!(rt; read.as_slice(), b"abc".as_slice());
    assert!(rt; source.into_inner().bytes.is_empty());
    Ok(())
}

#[test]
fn a_writer_fails_once_and_takes_nothing_once(rt: HostRuntime) {
    let fake = Fake {
        weather: &[
            Weather::Signal,
            Weather::Fair,
            Weather::Broken,
            Weather::Full,
        ],
        bytes: Vec::new(rt.alloc()),
    };
    let mut sink = StdSink::new(fake);
    let wanted = [Ok(1), Err(Failed), Err(Failed), Ok(1), Ok(1)];
    write_bytes(&rt, &mut sink, b"abc", &wanted);
    assert_eq!(rt; sink.into_inner().bytes.as_slice(), b"abc".as_slice());
}

#[test]
fn a_plan_counts_failures(rt: HostRuntime) -> Result<(), Fail> {
    let mut plan = FaultPlan::new([2].to_vec(rt.alloc())?);
    assert_eq!(rt;
        [plan.next_fails(), plan.next_fails(), plan.next_fails()],
        [false, true, false]
    );
    plan.count_fault();
    assert_eq!(rt; plan.faults(), 2);
    Ok(())
}

#[test]
fn a_status_has_its_number(rt: HostRuntime) {
    assert_eq!(rt; Status::Done.code(), 0);
    assert_eq!(rt; Status::InputTooLong.code(), 8);
}

#[test]
fn a_door_without_links_gives_none(rt: HostRuntime) -> Result<(), Fail> {
    let alloc = rt.alloc();
    let mut door = MemDoor::new(alloc, Vec::new(alloc), [1].to_vec(alloc)?)?;
    assert!(rt; door.next().is_err());
    assert_eq!(rt; door.faults(), 1);
    assert!(rt; matches!(door.next(), Ok(None)));
    assert_eq!(rt; door.returned().len(), 0);
    Ok(())
}

/// A connection over the loopback interface: what one side writes, the other reads.
#[test]
fn a_door_over_a_listener_accepts_connections(rt: HostRuntime) -> Result<(), Fail> {
    let listener = TcpListener::bind(&rt, "127.0.0.1:0")?;
    let mut client = TcpStream::connect(&rt, listener.local_addr()?)?;
    client.write_all(b"ask")?;
    let mut door = ListenDoor::new(&listener, 1);
    let Ok(Some(mut link)) = door.next() else {
        return Err("no link".into());
    };
    let mut into = [0; 8];
    assert_eq!(rt; link.read(&mut into), Ok(3));
    assert_eq!(rt; &into[..3], b"ask".as_slice());
    assert_eq!(rt; link.write(b"reply"), Ok(5));
    door.back(link);
    assert!(rt; matches!(door.next(), Ok(None)));
    let mut reply = Vec::new(rt.alloc());
    client.read_to_end(&mut reply)?;
    assert_eq!(rt; reply.as_slice(), b"reply".as_slice());
    Ok(())
}
