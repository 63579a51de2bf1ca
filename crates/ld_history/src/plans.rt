//! What a step comes to, before anything is appended.
use crate::answers::{EvictAnswer, LackAnswer};
use crate::event::Event;
use crate::name::Name;

/// What comes of a context that a request lacks.
#[derive(Debug, Drop)]
pub(crate) enum LackPlan {
    /// One event is appended.
    One {
        answer: LackAnswer,
        event: Event<Name>,
    },
    /// A place is made, and the flight is led.
    Replace(Replacement),
}

/// A stored IRI goes out, for which the session leads a flight for another one.
#[derive(Debug, Drop)]
pub(crate) struct Replacement {
    pub session: u32,
    pub out: Name,
    pub version: u64,
    pub iri: Name,
    pub flight: u32,
}

/// What comes of a request that wants a context out of the store.
#[derive(Debug, Drop)]
pub(crate) enum EvictPlan {
    /// The request is answered why not.
    One {
        answer: EvictAnswer,
        event: Event<Name>,
    },
    /// The context goes out, and the request is answered.
    Evict {
        request: u32,
        version: u64,
    },
}
