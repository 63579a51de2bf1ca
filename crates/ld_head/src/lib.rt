//! Heads of HTTP requests, what the bytes of a connection say, and the texts of replies (RFC 9110, RFC 9112).
//!
//! What to call, for a connection whose bytes come in pieces: `Begun::take` with each piece, until the head is whole;
//! `read_head` of its block, which answers a `Head` or the status of the first check that fails; once the body has come,
//! `Head::item` and `Head::marks`. For bytes that are all at hand `next_item` gives one item after another, and
//! `outline` how many there are and how the input ends. What a request came to is an `Outcome`; `Reply::new` makes its
//! reply, and `write_reply` appends the bytes. `interim_text` and `no_memory_reply` are texts that take no memory.
//!
//! To be believed, since the contracts here and above speak by them: `specs/Heads.antt` (what a head says, over the
//! grammar of `httparse`), `specs/Paths.antt`, `specs/Dialogues.antt` (where a head ends, items, the dialogue),
//! `specs/Outcomes.antt` (the table of outcomes) and `specs/Replies.antt` (a reply's bytes). The code's own:
//! `specs/Searching.antt` and `specs/Pieces.antt` (what a search and a piece found), `specs/Reading.antt` (what the code
//! answers, seen as the definitions have it). Laws: `one_dialogue`, `first_item_is_said`, `item_stays`, `body_is_cut`.
#![tactic(auto)]

mod begun;
mod body;
mod coming;
mod dialogue;
mod field;
mod finding;
mod fixed;
mod front;
mod head;
mod laws;
mod outcome;
mod path;
mod print;
mod reply;
mod seen;
mod session_end;
mod told;
mod whole;

pub use begun::Begun;
pub use coming::Came;
pub use dialogue::{Ending, Item, Marks};
pub use finding::{Place, Searched, find_end};
pub use fixed::{interim_text, no_memory_reply};
pub use front::{Next, next_item};
pub use head::{Head, HeadRefusal, read_head};
pub use laws::{body_is_cut, first_item_is_said, item_stays, one_dialogue};
pub use outcome::Outcome;
pub use path::Path;
pub use reply::{Media, Reply, write_reply};
pub use session_end::SessionEnd;
pub use whole::{Summary, outline};
