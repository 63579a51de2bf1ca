use ld_tree::{Iri, Raw, Url};

/// One event of the history. `I` is the type of its IRIs.
#[derive(Debug, Drop)]
pub enum Event<I = Iri> {
    /// A session begins in a seat.
    Opened {
        session: u32,
        seat: u32,
    },
    /// A request begins an attempt, over the version that is the current one.
    Pinned {
        session: u32,
        request: u32,
        attempt: u32,
        version: u64,
    },
    /// A request lacked a context that is stored by now.
    Found {
        session: u32,
        iri: I,
    },
    /// A request lacked a context, and leads a flight for it.
    Led {
        session: u32,
        iri: I,
        flight: u32,
    },
    /// A request lacked a context, and waits for a flight that another leads.
    Joined {
        session: u32,
        iri: I,
        flight: u32,
    },
    /// A flight's answer comes into the store, and makes a version.
    Published {
        flight: u32,
        version: u64,
    },
    /// A flight's load failed: the loader's count of faults rose from `before` to `after`.
    Failed {
        flight: u32,
        before: u64,
        after: u64,
    },
    /// A flight was given up for want of memory.
    Lapsed {
        flight: u32,
    },
    /// A context goes out of the store, which makes a version.
    Evicted {
        session: u32,
        iri: I,
        version: u64,
    },
    /// A request leads a flight for a context that is stored.
    ReviseLed {
        session: u32,
        iri: I,
        flight: u32,
    },
    /// A revision's answer is the one that is stored.
    Same {
        flight: u32,
    },
    /// A request has its answer.
    Answered {
        session: u32,
        request: u32,
        how: How<I>,
    },
    /// A session ends.
    Closed {
        session: u32,
    },
}

/// How a request was answered.
#[derive(Debug, Drop)]
pub enum How<I = Iri> {
    /// With a result or a code over the pinned version.
    Done,
    /// Memory was lacking.
    NoMemory,
    /// The flight that it waited for failed.
    LoadFault { flight: u32 },
    /// It holds as many contexts as it may, and lacks this one.
    TooMany { iri: I },
    /// The store has no place, and nothing in it may go out.
    StoreFull,
    /// There is no room for another text. `bytes` are kept.
    ArchiveFull { bytes: u64 },
    /// The context isn't stored at this version.
    NotStored { version: u64 },
    /// The context is held, by this session and none of a lesser number.
    Held { session: u32 },
    /// The context is under revision by this flight.
    Revising { flight: u32 },
    /// The context is under revision by this flight already.
    Flying { flight: u32 },
    /// The context went out, which made this version.
    Evicted { version: u64 },
    /// The context was revised, which made this version.
    Revised { version: u64 },
    /// The revision found the same answer.
    Same,
}

/// A flight's answer: where it came from, its length in bytes, and a mark that tells texts apart. The
/// length 1,048,577 stands for a text that is longer than a context may be, and isn't kept.
#[derive(Debug, Drop, PartialEq, Eq)]
pub struct Given {
    pub url: Url,
    pub length: u32,
    pub mark: Raw,
}

/// An event, with the flight's answer exactly where it is Published or Same.
#[derive(Debug, Drop)]
pub struct Entry<I = Iri, G = Given> {
    pub event: Event<I>,
    pub given: Option<G>,
}
