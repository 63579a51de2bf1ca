//! What the steps of a session answer.
use crate::name::Name;

/// What asking for a session answers.
#[derive(Clone, Copy, Debug, PartialEq, Eq)]
pub enum OpenAnswer {
    /// The session of this number is open.
    Opened { session: u32 },
    /// The history has no room for another session. It has this many entries.
    HistoryFull { events: u64 },
}

/// What a pin answers.
#[derive(Clone, Copy, Debug, PartialEq, Eq)]
pub enum PinAnswer {
    /// The request's attempt stands over this version.
    Pinned {
        request: u32,
        attempt: u32,
        version: u64,
    },
    /// The history has no room for another request. It has this many entries.
    HistoryFull {
        events: u64,
    },
}

/// What a request is answered that lacks a context.
#[derive(Debug, Drop)]
pub enum LackAnswer {
    /// The request holds as many contexts as it may, and is answered so.
    TooMany { held: u32 },
    /// The context is stored by now.
    There,
    /// Another session's flight is under way for it.
    Joined { flight: u32 },
    /// The store has no place and nothing in it may go out; the request is answered so.
    StoreFull,
    /// There is no room for another text; the request is answered so. `bytes` are kept.
    ArchiveFull { bytes: u64 },
    /// The request leads this flight for it, for which a context may have gone out.
    Led { flight: u32, out: Option<Out> },
}

/// A context that went out of the store, and the version that this made.
#[derive(Debug, Drop)]
pub struct Out {
    pub iri: Name,
    pub version: u64,
}

/// What comes of a flight's answer.
#[derive(Clone, Copy, Debug, PartialEq, Eq)]
pub enum PublishAnswer {
    /// It stands in the store, which made this version.
    Published { version: u64 },
    /// It is what was stored.
    Same,
}

/// What a request is answered that wants a context out of the store.
#[derive(Clone, Copy, Debug, PartialEq, Eq)]
pub enum EvictAnswer {
    /// The context went out, which made this version.
    Evicted { version: u64 },
    /// The context isn't stored at this version.
    NotStored { version: u64 },
    /// The context is held, by this session and none of a lesser number.
    Held { session: u32 },
    /// The context is under revision by this flight.
    Revising { flight: u32 },
}

/// What a request is answered that wants a context loaded anew.
#[derive(Clone, Copy, Debug, PartialEq, Eq)]
pub enum ReviseAnswer {
    /// The request leads this flight for it.
    Led { flight: u32 },
    /// The context isn't stored at this version.
    NotStored { version: u64 },
    /// The context is under revision by this flight already.
    Flying { flight: u32 },
    /// There is no room for another text. `bytes` are kept.
    ArchiveFull { bytes: u64 },
}
