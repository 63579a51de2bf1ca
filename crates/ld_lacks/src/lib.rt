//! What it says of a stock that an evaluation over it lacks a document. There is no code here: the crate is two laws.
//!
//! An answer that names a missing document names one that the stock doesn't have: `missing_is_lacked`. And it names it by an IRI of
//! no more than 2048 bytes: `missing_is_short`.
#![tactic(auto)]

mod laws;

pub use laws::{missing_is_lacked, missing_is_short};
