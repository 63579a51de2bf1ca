//! A round of revisions: each stored context is loaded anew, by a session that nobody speaks with.
//!
//! [`revise_round`] opens a session in a worker's seats, pins a version, and has each context loaded anew that the version
//! has, in the order of the IRIs, as one request each. What went meanwhile is answered as the book answers it, and counted.
//! Then the session is closed, and the seats come back. A version of an empty store makes one request, which is answered
//! at once.
//!
//! A round stops where memory is wanting, and where the history has no room for one more request. A load that fails doesn't
//! stop it.
//!
//! To be believed: `specs/Rounds.antt`, beside the definitions that it cites. The code's own: `specs/Walking.antt`, what a
//! round has done between two of its turns.
#![tactic(auto)]

mod round;
mod tally;
mod walk;

pub use round::{Round, RoundEnd, revise_round};
pub use tally::Tally;
