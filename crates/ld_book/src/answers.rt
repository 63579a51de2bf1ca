//! What the calls of a book answer.
use ld_flight::Pass;
use ld_store::Snapshot;
use ld_tree::NoMemory;
use std::sync::Arc;

/// Why a session or a request doesn't begin.
#[derive(Clone, Copy, Debug, PartialEq, Eq)]
pub enum RoomRefusal {
    /// The history has no room for it. It has this many entries.
    HistoryFull { events: u64 },
    NoMemory,
}

impl From<NoMemory> for RoomRefusal {
    ghost use Rattle.std.specs.Prelude.{◌≡◌};
    ghost use Rattle.ld_book.specs.declared.answers.RoomRefusal.TheVariants as refusal;

    ghost from_gives = { λ e r. r ≡ refusal.NoMemory };

    fn from(_e: NoMemory) -> RoomRefusal {
        RoomRefusal::NoMemory
    }
}

/// An attempt of a request, with what the store has at the version that it stands over.
#[derive(Debug, Drop)]
pub struct Pin {
    pub request: u32,
    pub attempt: u32,
    pub snapshot: Arc<Snapshot>,
}

/// What a request is answered that lacks a context.
pub enum LackAnswer {
    /// The request holds as many contexts as it may, and is answered so.
    TooMany { held: u32 },
    /// The context is stored by now.
    There,
    /// Another session's flight is under way for it.
    Joined(u32),
    /// The store has no place and nothing in it may go out; the request is answered so.
    StoreFull,
    /// There is no room for another text; the request is answered so. `bytes` are kept.
    ArchiveFull { bytes: u64 },
    /// The request leads a flight for it, whose pass this is.
    Lead(Pass),
}

/// What comes of a flight's answer.
#[derive(Clone, Copy, Debug, PartialEq, Eq)]
pub enum PublishAnswer {
    /// It stands in the store, which made this version.
    Published(u64),
    /// It is what was stored.
    Same,
}

/// How a flight stands.
#[derive(Clone, Copy, Debug, PartialEq, Eq)]
pub enum LookAnswer {
    /// It is under way.
    Flying,
    /// Its answer came into the store, which made this version.
    Published(u64),
    /// It was a revision, and its answer is what was stored.
    Same,
    /// Its load failed: the loader's count of faults rose from `before` to `after`.
    Failed { before: u64, after: u64 },
    /// It was given up for want of memory.
    Lapsed,
}

/// What a request is answered that wants a context out of the store.
#[derive(Clone, Copy, Debug, PartialEq, Eq)]
pub enum EvictAnswer {
    /// The context went out, which made this version.
    Evicted(u64),
    /// The context isn't stored at this version.
    NotStored { version: u64 },
    /// The context is held, by this session and none of a lesser number.
    Held { session: u32 },
    /// The context is under revision by this flight.
    Revising { flight: u32 },
}

/// What a request is answered that wants a context loaded anew.
pub enum ReviseAnswer {
    /// The request leads a flight for it, whose pass this is.
    Lead(Pass),
    /// The context isn't stored at this version.
    NotStored { version: u64 },
    /// The context is under revision by this flight already.
    Flying { flight: u32 },
    /// There is no room for another text. `bytes` are kept.
    ArchiveFull { bytes: u64 },
}
