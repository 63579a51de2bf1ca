//! The parts of expansion that look at one value and a context (JSON-LD 1.1 Processing Algorithms and API,
//! sections 5.1.2 and 5.3.2).
//!
//! - [`expand_value`] is Value Expansion: what a scalar comes to under a property.
//! - [`language_map`] gives the items of a language map.
//! - [`index_item`] finishes one item of an index, id, type or graph map, and [`as_graph`] makes one a graph object.
//! - [`making`] makes maps of one or two entries, and puts entries.
//!
//! Each gives its word of ld_rec's `specs/Values.antt`, over any [`View`](ld_ctx::View) of a context: that file is
//! to be believed. `specs/Adding.antt` is the code's own.
#![tactic(auto)]

mod index;
mod language;
pub mod making;
mod value;

pub use index::{as_graph, index_item};
pub use language::language_map;
pub use value::expand_value;
