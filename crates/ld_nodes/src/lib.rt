//! Flattening of expanded documents (JSON-LD 1.1 Processing Algorithms and API: 7.2 Node Map Generation, 7.1 the
//! Flattening Algorithm, and `flatten` of 9.3): one object for each node.
//!
//! Call [`flatten`]. Its contract says that it gives what `flattened` of `specs/Flat.antt` gives, or that one's code,
//! for any tree. To be believed, in this order: `specs/Names.antt` (graphs, nodes and properties by their names),
//! `specs/Told.antt` (what a walk over a document has told, and what single things that it meets add to that),
//! `specs/Tellings.antt` (the walk, step by step as in 7.2), `specs/NodeMap.antt` (the node map that the facts make) and
//! `specs/Flat.antt` (its node objects), with the small words of ld_rec's `Words` and `Kinds`.
//!
//! The other files of `specs/` are the code's own. The code speaks of graphs, nodes and properties of nodes by numbers:
//! a number tells how many were met before. `Walks`, `Visits`, `Maps` and `Numbers` say what it does so, over the words of
//! `Places` and `Tables` and of ld_group's `Firsts` and `Groups`, and the contract of `flatten` rests on the proof that
//! this comes to the same. That a number stands for one thing, and that a thing keeps its number, are also the laws
//! [`numbers_tell_keys_apart`] and [`keys_keep_their_numbers`].
//!
//! The modules: `visit` is the walk, a call for each of its stages; `meet` and `types` do the single things; `walk` is
//! what was gathered, in maps that are the definition's tables entry for entry; `gathering` makes the node map, and
//! `flat` its objects. Names are looked up once where they stand in the document, and values carry numbers alone, so
//! long names cost no more than their bytes. Which values are the same is settled once, at the end, in the order of
//! trees.
#![tactic(auto)]

mod flat;
mod gathering;
mod laws;
mod make;
mod meet;
mod node;
mod place;
mod types;
mod visit;
mod walk;

pub use flat::flatten;
pub use laws::{keys_keep_their_numbers, numbers_tell_keys_apart};
pub use node::Node;
