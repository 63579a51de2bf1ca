//! What contexts are and what they mean, what documents expand to, and what IRIs and values compact to, as
//! definitions: term definitions, IRI expansion, Create Term Definition, context processing, expansion, inverse
//! contexts, IRI compaction and value compaction of JSON-LD 1.1 Processing Algorithms and API (sections 4, 5, 6.2
//! and 6.3), over a stock of documents.
//!
//! There is no code here but the plain data that the definitions speak of: [`Def`] (a term definition) and its
//! [`Containers`], [`Doc`] (a document of the stock), [`Slot`] (what a term offers in an inverse context), [`Stop`] (why there is no answer) and [`Way`] (how an element
//! is expanded). The crates that compute are proved against the definitions, in this order:
//!
//! - `specs/Outcome.antt`: an answer is a question to the stock. It tells which documents were asked for, and it
//!   carries the proof that it rests on these alone.
//! - `specs/Records.antt`: contexts, as a context's own fields and those of its previous contexts.
//! - `specs/Iris.antt`: IRI expansion without a local context.
//! - `specs/Terms.antt`: Create Term Definition, and IRI expansion with a local context.
//! - `specs/Processing.antt`: context processing; `specs/Documents.antt`: what is kept of a document's text.
//! - `specs/Promises.antt`: what a context promises: its bases are IRIs, and its previous contexts are within the
//!   limit.
//! - `specs/Kinds.antt`: the kinds of value that JSON-LD tells apart, and values made from parts.
//! - `specs/Places.antt`: where expansion takes an element, and how it asks for contexts.
//! - `specs/Values.antt`: Value Expansion, language maps, and the items of index, id, type and graph maps.
//! - `specs/Expansion.antt`: the Expansion Algorithm.
//! - `specs/Form.antt`: the expanded form, the shape of its results.
//! - `specs/Slots.antt`: what the terms of a context offer, shortest first; `specs/Selection.antt`: which of them is
//!   chosen.
//! - `specs/Prefixes.antt`: compact IRIs; `specs/Wishes.antt`: what is asked for a value; `specs/Compacting.antt`:
//!   IRI Compaction and Value Compaction.
//!
//! A reader who compares these with the Recommendation has all there is to believe. Each word of theirs is a
//! step of it, named beside the word; what is this project's own is marked so.
//!
//! The laws of these definitions are the functions of [`laws`] and [`expansion_laws`].
#![tactic(auto)]

mod def;
mod doc;
pub mod expansion_laws;
pub mod laws;
mod slot;
mod stop;
mod stored;
mod way;

pub use def::{Containers, Def};
pub use doc::Doc;
pub use slot::{Kind, Slot};
pub use stop::Stop;
pub use stored::Stored;
pub use way::Way;
