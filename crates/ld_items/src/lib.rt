//! The items of a connection, as they come over a link in pieces.
//!
//! What to call: [`Arrivals::new`] once for a connection, and [`Arrivals::next`] for each item. It reads what an item needs
//! and no more, writes the interim text between the head and the body where that is due (RFC 9110, section 10.1.1), and
//! answers the item with its marks, or how the input ends. An item's request is answered by the caller, on the link.
//!
//! To be believed: `specs/Taking.antt` (what a call took and wrote, in the words of ld_head's dialogues) and
//! `specs/Saying.antt` (what all calls of a connection took). The code's own: `specs/Parts.antt` (heads and bodies). Laws:
//! `items_are_said`, `endings_are_said`, `first_items_are_said`.
#![tactic(auto)]

mod arrivals;
mod body;
mod heading;
mod laws;
mod pending;
mod sides;

pub use arrivals::{Arrivals, Arrived, Next, Received};
pub use laws::{endings_are_said, first_items_are_said, items_are_said};
