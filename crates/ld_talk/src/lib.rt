//! A connection's talk: what its items ask for, and how they are answered on its link.
//!
//! What to call: [`talk`] answers the items of a connection one after another, from the first to the end, by an object of the
//! trait [`Requests`]. Its parts, for one item: [`hear`] reads the body of an item, and says what it asks for: an evaluation, a revision or an eviction of
//! a context, or nothing that stands in a history, and how it is answered then. [`judge`] makes an outcome of what an
//! evaluation gave, or names the context that it lacks. [`send`] writes a reply, built in one buffer and written at once;
//! [`give_up`] writes the one that needs no memory.
//!
//! To be believed: `specs/Talking.antt` (what a talk has done when it ends), `specs/Hearing.antt`, `specs/Judging.antt` and
//! `specs/Sending.antt`, beside the definitions of what items ask (`ld_fits/specs/Asks.antt`), of outcomes and of replies
//! (`ld_head/specs/Outcomes.antt`). The code's own: `specs/Concluding.antt`, `specs/Putting.antt` and `specs/Underway.antt`,
//! which say what one item does to a talk.
#![tactic(auto)]

mod answering;
mod concluding;
mod hearing;
mod judging;
mod requests;
mod sending;
mod talking;

pub use hearing::{Asking, Request, hear};
pub use judging::{Judged, judge};
pub use requests::{Replied, Requests};
pub use sending::{SendRefusal, give_up, last_marks, send};
pub use talking::talk;
