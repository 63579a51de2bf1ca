use crate::name::{Answer, Name};
use ld_tree::Items;

/// What is known of an open session.
#[derive(Debug, Drop)]
pub(crate) struct Session {
    pub seat: u32,
    /// Its last request, or 0, and that request's last attempt.
    pub request: u32,
    pub attempt: u32,
    /// The version that it pinned last.
    pub version: u64,
    /// What the request under way has found, led or joined, in order.
    pub held: Items<Name>,
    pub last: Last,
}

/// A session's last own event. A request is under way where it isn't `Idle`.
#[derive(Clone, Copy, Debug, PartialEq, Eq)]
pub(crate) enum Last {
    /// None as yet, or Answered.
    Idle,
    Pinned,
    Found,
    Led { flight: u32 },
    Joined { flight: u32 },
    Evicted { version: u64 },
    ReviseLed { flight: u32 },
}

/// A load, under way or ended.
#[derive(Debug, Drop)]
pub(crate) struct Flight {
    pub iri: Name,
    pub kind: Kind,
    /// The session that led it.
    pub session: u32,
    pub end: End,
}

/// What a flight is for: a context that isn't stored, or one that is.
#[derive(Clone, Copy, Debug, PartialEq, Eq)]
pub(crate) enum Kind {
    Lead,
    Revise,
}

/// How a flight has ended, if it has.
#[derive(Clone, Copy, Debug, PartialEq, Eq)]
pub enum End {
    UnderWay,
    /// Its answer came into the store, which made this version.
    Published { version: u64 },
    /// It was a revision, and its answer is the one that was stored.
    Same,
    /// Its load failed: the loader's count of faults rose from `before` to `after`.
    Failed { before: u64, after: u64 },
    /// It was given up for want of memory.
    Lapsed,
}

/// A flight under way, and the session that led it.
#[derive(Clone, Copy, Debug, PartialEq, Eq)]
pub(crate) struct Flying {
    pub flight: u32,
    pub session: u32,
}

/// What stands in the store for an IRI: the flight that brought it, its answer, and the version that
/// published it.
#[derive(Debug, Drop)]
pub(crate) struct Stored {
    pub flight: u32,
    pub version: u64,
    pub answer: Answer,
}

/// The eviction that is the history's last entry.
#[derive(Debug, Drop)]
pub(crate) struct Eviction {
    pub session: u32,
    pub iri: Name,
    /// Stored IRIs and Lead flights under way, just before it.
    pub places: u64,
    /// Whether the IRI was the next in the order of eviction.
    pub next: bool,
}
