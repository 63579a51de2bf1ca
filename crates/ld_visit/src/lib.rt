//! A session's turns at the book that workers share.
//!
//! A `Visit` is a seat at the book's turn lock with a session under way in it. Each function here takes one turn: it waits
//! for it, calls one call of the book, and gives the turn on. Its contract tells, by what the visit has seen of the book,
//! what it asks, and then which book it found and which step it took there (`Took`). `pin` begins a request or its next
//! attempt, and `answer` ends it. In between `lack` is for a context that it lacks, and `evict` and `revise` are for a
//! context that is to go out of the store or to be loaded anew. `publish`, `fail` and `lapse` end a flight that the session
//! leads, and `look` tells how a flight stands.
//!
//! `open` makes a seat that has no session a visit (`Opened`), and `close` gives the seat back (`Closed`), for another
//! session.
//!
//! To be believed: `specs/Visits.antt` (what a visit is to contracts, what a turn comes to, and how a visit begins and
//! ends), `specs/Taking.antt` (the step that each answer tells) and `specs/Ending.antt` (when a session may pin, and how its
//! request may be answered). The code's own: `specs/Turns.antt`, a visit as it takes its turn and as it leaves it.
#![tactic(auto)]

mod entry;
mod flights;
mod turns;
mod visit;

pub use entry::{close, open};
pub use flights::{fail, lapse, look, publish};
pub use turns::{answer, evict, lack, pin, revise};
pub use visit::Visit;
