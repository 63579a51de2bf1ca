//! A session's own entries in the history of a context store, as the history grows. There is no code here: the crate is
//! definitions, and laws.
//!
//! Whoever takes turns at a history for a session knows it up to a front. What is added between two fronts is told by `Adds`:
//! the later front, and which of the entries that came since are the session's. None of what came while its seat had no turn
//! is, so that the session and the flights that it led stand as they stood. `Gained` and `Spans` tie the loader that it loads
//! with to its entries.
//!
//! To be believed: `specs/Own.antt` (the entries, each in the state before it), `specs/Adding.antt` and `specs/Loads.antt` (what
//! the loader gave, and how it failed). Laws: `own_entries_are_placed`, `additions_add_up`, `sessions_are_kept`, `loads_add_up`.
#![tactic(auto)]

mod laws;

pub use laws::{additions_add_up, loads_add_up, own_entries_are_placed, sessions_are_kept};
