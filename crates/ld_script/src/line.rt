use ld_tree::{Iri, Raw};

/// A line of a script: a step on the history.
#[derive(Debug, Drop)]
pub enum Line {
    /// Opens a session in the seat.
    Open {
        seat: u32,
    },
    /// Begins an attempt of the session's request.
    Pin {
        session: u32,
    },
    /// The session's request lacks the context of this IRI.
    Lack {
        session: u32,
        iri: Iri,
    },
    /// The flight's answer comes: a document at the flight's IRI, of this length and mark.
    Give {
        flight: u32,
        length: u32,
        mark: Raw,
    },
    /// The flight's load failed: the loader's count of faults rose from `before` to `after`.
    Fail {
        flight: u32,
        before: u64,
        after: u64,
    },
    /// The flight is given up for want of memory.
    Lapse {
        flight: u32,
    },
    /// The session's request wants the context out of the store.
    Evict {
        session: u32,
        iri: Iri,
    },
    /// The session's request wants the context loaded anew.
    Revise {
        session: u32,
        iri: Iri,
    },
    /// The session's request is answered as it ends by itself.
    Answer {
        session: u32,
    },
    /// Closes the session.
    Close {
        session: u32,
    },
}
