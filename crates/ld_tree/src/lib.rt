//! JSON values as the project knows them: texts, numbers, lists, and maps whose names are distinct
//! and in order. Contracts see them as values without pointers: a `Text` as its bytes, `Items` as a list,
//! `Entries` as the list of its entries beside the proof that the names are in order.
//!
//! What to call: `Tree` is a JSON value, made and matched as an enum. `Items::push` and `Entries::put` make lists
//! and small maps; a map of many names that come in any order is made as a `NameMap`, which ends as `Entries`.
//! `Tree::get`, `Entries::get` look a name up, `Tree::try_copy` copies, `==` and `Tree::is_same` compare.
//!
//! To be believed, since the contracts here and above speak by them: `specs/Names.antt` (the order of names, and
//! maps as values), `specs/Maps.antt` (find, put, take out), `specs/Trees.antt` (depth, members), `specs/Reading.antt`
//! and `specs/CompactText.antt` (RFC 8259, both ways), `specs/Bounds.antt` (what holds of each tree that is read).
//! The code's own: `specs/InOrder.antt`, `specs/Texts.antt` and `specs/formers`, which are proofs and readings that
//! the types need, and `specs/Recursion.antt`, recursion in which a step sees the children too.
#![tactic(auto)]

mod copy;
mod depth;
mod entries;
mod items;
mod name_map;
mod no_memory;
mod number;
mod plain;
mod reading;
mod text;
mod tree;

pub use entries::Entries;
pub use items::{Items, Raw};
pub use name_map::NameMap;
pub use no_memory::NoMemory;
pub use number::NumFault;
pub use plain::plain_len;
pub use reading::{reads_once, reads_utf8, reads_within};
pub use text::{Iri, Text, Url};
pub use tree::{Num, Tree};
