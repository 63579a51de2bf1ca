//! A soak: a trial of expansion, compaction and flattening on many small documents that all name one context.
//!
//! Call [`soak`] with the number of documents. It loads the context once, from a loader of its own over memory, and gives
//! the [`Sums`] of the lengths of what the documents are answered. [`Sums::print`] appends the line that tells of them.
//!
//! To be believed: `specs/Soaks.antt`, which says what the documents are, what is summed and what is printed. How many
//! times contexts were processed is told too, and no contract says how many. `specs/Steps.antt` is the code's own.
#![tactic(auto)]

mod context;
mod document;
mod run;
mod sums;
#[cfg(test)]
mod tests;

pub use run::soak;
pub use sums::Sums;
