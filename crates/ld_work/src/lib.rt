//! Workers that serve connections over one book, each from a door of its own, and the book's close.
//!
//! Call [`serve_all`] with the words of the command line, and a [`Post`] for each worker: its door and its loader. It makes the
//! book, has each worker serve the links of its door until none is left, with a round of revisions after each so many, and
//! closes the book. [`serve_form`] reads the words, and [`told_line`] is the line that tells of it all.
//!
//! What is ensured holds for every interleaving of the workers, of the one book that is there at the end: it is sound, and each
//! link that a door gave was served by a session of it, or turned away, and came back to its door.
//!
//! To be believed: `specs/Working.antt` (what the workers have done), `specs/Forms.antt` (the words) and `specs/Ends.antt` (how it
//! ends, and the line). The code's own: `specs/Shifts.antt`.
#![tactic(auto)]

mod form;
mod hall;
mod line;
mod post;
mod report;
mod serving;
mod worker;

pub use form::{Form, serve_form};
pub use line::told_line;
pub use post::Post;
pub use report::RoundReport;
pub use serving::{Ended, serve_all};
