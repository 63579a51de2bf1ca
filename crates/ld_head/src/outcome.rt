//! What a request comes to.
ghost use Rattle.std.specs.Prelude.{◌≡◌};

use crate::reply::Media;
use ld_tree::Tree;

/// What a request comes to. A variant that holds a tree is answered with that body, which is made where its cause is
/// known: by an evaluation, or as the body of its refusal.
#[derive(Debug, Drop)]
pub enum Outcome {
    /// 200: the document in the form that was asked for.
    Result(Tree),
    /// 200: the context went out, which made this version.
    Evicted { version: u64 },
    /// 200: the context was loaded anew and differs, which made this version.
    Revised { version: u64 },
    /// 200: the context was loaded anew and is the same, at this version.
    Same { version: u64 },
    /// 422: the algorithm's code.
    Code(Tree),
    /// 422: a refusal of this profile's own.
    Own(Tree),
    /// 400: the request's body is no JSON text, or not what its path takes.
    BadBody(Tree),
    /// 502: a context's load failed.
    LoadFault(Tree),
    /// 503: the request needs more contexts than it may hold.
    TooMany(Tree),
    /// 503: the store has no place for a context that is needed.
    StoreFull,
    /// 503: there is no room for one more text, after so many bytes.
    ArchiveFull { bytes: u64 },
    /// 503, and the connection closes: there is no room for one more request, after so many events.
    HistoryFull { events: u64 },
    /// 409: this session holds the context that is to go out.
    Held { session: u32 },
    /// 409: the context that is to go out is being loaded anew, by this flight.
    Revising { flight: u32 },
    /// 409: the context that is to be loaded anew is so already, by this flight.
    Flying { flight: u32 },
    /// 404: the context isn't stored at this version.
    NotStored { version: u64 },
    /// 500: an allocation failed.
    NoMemory,
    /// The request is refused with this status before its body is looked at.
    Bad { status: u16 },
}

impl Outcome {
    ghost use Rattle.ld_head.specs.Outcomes.{always_closes, is_recorded, media_of, names_allowed, status_of};

    /// The status of the reply.
    pub fn status(&self) -> u16
        ensures { result ≡ status_of self.now }
    {
        match self {
            Outcome::Result(_)
            | Outcome::Evicted { .. }
            | Outcome::Revised { .. }
            | Outcome::Same { .. } => 200,
            Outcome::Code(_) | Outcome::Own(_) => 422,
            Outcome::BadBody(_) => 400,
            Outcome::LoadFault(_) => 502,
            Outcome::TooMany(_)
            | Outcome::StoreFull
            | Outcome::ArchiveFull { .. }
            | Outcome::HistoryFull { .. } => 503,
            Outcome::Held { .. } | Outcome::Revising { .. } | Outcome::Flying { .. } => 409,
            Outcome::NotStored { .. } => 404,
            Outcome::NoMemory => 500,
            Outcome::Bad { status } => *status,
        }
    }

    pub(crate) fn media(&self) -> Media
        ensures { result ≡ media_of self.now }
    {
        match self {
            Outcome::Result(_) => Media::LdJson,
            _ => Media::Json,
        }
    }

    // Whether the request stands in a history, and so has a number and a version.
    pub(crate) fn is_recorded(&self) -> bool
        ensures { result ≡ is_recorded self.now }
    {
        !matches!(
            self,
            Outcome::BadBody(_) | Outcome::HistoryFull { .. } | Outcome::Bad { .. }
        )
    }

    // Whether the reply says which methods are allowed.
    pub(crate) fn names_allowed(&self) -> bool
        ensures { result ≡ names_allowed self.now }
    {
        matches!(self, Outcome::Bad { status: 405 })
    }

    pub(crate) fn always_closes(&self) -> bool
        ensures { result ≡ always_closes self.now }
    {
        matches!(self, Outcome::HistoryFull { .. })
    }
}
