//! Inverse contexts, term selection, and the compaction of IRIs and values (JSON-LD 1.1 Processing Algorithms and
//! API, sections 4.3, 4.4, 6.2 and 6.3).
//!
//! - [`build`] makes the inverse of a context, and spends a [`BuildTicket`] for it. [`Inverses`] stands for
//!   whatever gives contexts and their inverses; compaction is to be written over this trait alone.
//! - [`Inverse::select`] tells the term that a context chooses for an IRI, by a few look-ups and without memory.
//! - [`compact_iri`] and [`compact_value`] are IRI Compaction and Value Compaction, over any view of a context and
//!   its inverse.
//!
//! To be believed are ld_rec's `specs/Slots.antt` (what terms offer), `Selection.antt` (which is chosen),
//! `Prefixes.antt` (compact IRIs), `Wishes.antt` (what is asked for a value) and `Compacting.antt`. None of these
//! knows of a table. All of `specs/` here is the code's own: how the tables are sorted (`Orders`, `Groups`), that
//! they hold what a context's terms offer (`Inverses`), what a ticket is for (`Tickets`), and how the code's
//! questions and lists stand for those of the definitions (`Questions`, `Gathering`).
//!
//! An inverse is two sorted lists: the offers by slot, and the prefixes by mapping. Both come from the terms,
//! shortest first, by a sort that keeps the order of what has one key, so that the first of its key is the
//! shortest term. For an IRI that no term maps to, the fronts of the IRI are looked up among the prefixes, one for
//! each length at which some prefix's mapping ends: the terms are never walked.
#![tactic(auto)]

mod building;
mod compact_form;
mod inverse;
mod inverses;
mod iri;
mod lengths;
mod offers;
mod prefixes;
mod question;
mod reading;
mod slots;
mod table;
mod tags;
mod terms;
mod ticket;
mod value;

pub use building::build;
pub use inverse::Inverse;
pub use inverses::Inverses;
pub use iri::compact_iri;
pub use ld_rec::Kind;
pub use ticket::BuildTicket;
pub use value::compact_value;
