use crate::def::Containers;
use ld_tree::{Iri, Text};

/// What a wish is for (JSON-LD 1.1 API, 4.3): any value, a language, or a type.
#[derive(Clone, Copy, Debug, PartialEq, Eq, PartialOrd, Ord)]
pub enum Kind {
    Any,
    Tag,
    Typed,
}

/// A place of the inverse context (JSON-LD 1.1 API, 4.3): what a term offers, and what a question asks for.
#[derive(Debug, Drop)]
pub struct Slot {
    /// What the term maps to: an IRI, a keyword or a blank node identifier.
    pub iri: Iri,
    pub containers: Containers,
    pub kind: Kind,
    /// A language, a type, or one of the keywords that stand for what has none, null, or any.
    pub value: Text,
}
