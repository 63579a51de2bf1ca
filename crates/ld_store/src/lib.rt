//! What the context store has at a version.
//!
//! What to call: `Snapshot::new` is version 0, `published` and `evicted` make the snapshot of the next version, and `get`
//! and `stock` give what a version has. A snapshot never changes, so those who hold one share it behind an `Arc`.
//!
//! To be believed: `specs/Snapshots.antt`.
#![tactic(auto)]

mod placed;
mod snapshot;
#[cfg(test)]
mod tests;

pub use placed::Placed;
pub use snapshot::Snapshot;
