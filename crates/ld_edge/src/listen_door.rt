ghost use Rattle.std.specs.Prelude.{◌≡◌, ◌≤◌, ◌<◌, ◌+◌, ◌^◌, None};

use crate::door::Door;
use crate::faults::FaultCount;
use crate::outside::{Failed, Sink, Source};
use crate::stream_link::StreamLink;
use std::io::{self, ErrorKind, Read, Write};
use std::net::{OpenListener, OpenStream};

// Signals are rare, so a call that meets as many is taken for a failure.
const TRIES: u32 = 64;

/// A door over a listener, which others may share, that accepts so many connections and then has none left. It tells
/// nothing of its links.
///
/// A connection sends its bytes without delay, where the system does so. A call that a signal interrupts is tried anew,
/// 64 times in all. An error of the listener, and the last interruption, answers `Failed`, and may be followed by a
/// connection.
#[derive(Drop)]
pub struct ListenDoor<'a, T: OpenListener> {
    listener: &'a T,
    left: u64,
    given: u64,
    back: u64,
    faults: FaultCount,
    ghost at_most_given: { back ≤ given },
    ghost fits: { given + left < 2 ^ 64 },
}

impl<'a, T: OpenListener> ListenDoor<'a, T> {
    /// Accepts so many connections.
    pub fn new(listener: &'a T, connections: u64) -> ListenDoor<'a, T>
        ensures left { result.left ≡ connections }
        ensures given { result.given ≡ 0 }
        ensures back { result.back ≡ 0 }
        ensures faults { result.faults.number ≡ 0 }
    {
        ListenDoor {
            listener,
            left: connections,
            given: 0,
            back: 0,
            faults: FaultCount::new(),
        }
    }
}

fn accept<S: OpenStream + Drop, T: OpenListener<Stream = S>>(listener: &T) -> io::Result<S> {
    for _ in 0..TRIES {
        match listener.accept() {
            Ok((stream, _)) => {
                let _is_set = stream.set_nodelay(true);
                return Ok(stream);
            }
            Err(error) if error.kind() == ErrorKind::Interrupted => {}
            Err(error) => return Err(error),
        }
    }
    Err(ErrorKind::Interrupted.into())
}

impl<'a, S: Read + Write + OpenStream + Drop, T: OpenListener<Stream = S>> Door
    for ListenDoor<'a, T> {
    type L = StreamLink<S>;

    ghost sides = { λ l. (⟦<StreamLink<S> as Source>⟧.incoming l, ⟦<StreamLink<S> as Sink>⟧.outgoing l) };

    ghost doorway = { λ d. record { given = d.given; back = d.back; left = None; returned = None; faults = d.faults.number } };

    ghost at_most_given = { λ d. d.at_most_given };

    ghost at_most_last = { λ d. d.faults.in_range };

    fn next(&mut self) -> Result<Option<StreamLink<S>>, Failed> {
        if self.left == 0 {
            return Ok(None);
        }
        let Ok(stream) = accept(self.listener) else {
            self.faults.rise();
            return Err(Failed);
        };
        self.left -= 1;
        self.given += 1;
        Ok(Some(StreamLink::new(stream)))
    }

    fn back(&mut self, link: StreamLink<S>) {
        drop(link);
        self.back += 1;
    }

    fn faults(&self) -> u64 {
        self.faults.number()
    }
}
