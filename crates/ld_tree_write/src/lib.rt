//! Printing trees as JSON texts (RFC 8259).
//!
//! What to call: `write_tree` appends the compact text of a tree, `write_text` that of a text. Where memory is
//! wanting, what was there before stays.
//!
//! To be believed: `specs/CompactText.antt` of `ld_tree`, which says what the compact text is.
#![tactic(auto)]

mod print;
mod write;

pub use write::{write_text, write_tree};
