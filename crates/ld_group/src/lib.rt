//! Numbered values: those that are the first of their kind, and the list of each number.
//!
//! Call [`firsts`] for the values without those that are the same as an earlier one of their number, [`group`] for the
//! list of each number, and a [`Shelf`] where such lists are taken out again, each once. To be believed:
//! `specs/Firsts.antt`, `specs/Groups.antt` and `specs/Shelves.antt`. [`firsts_of_one_more`] is a law of the first:
//! a further value is added at the end, exactly where it isn't there.
#![tactic(auto)]

mod first;
mod laws;
mod listed;
mod numbers;
mod shelf;

pub use first::firsts;
pub use laws::firsts_of_one_more;
pub use listed::entries_of;
pub use numbers::group;
pub use shelf::Shelf;
