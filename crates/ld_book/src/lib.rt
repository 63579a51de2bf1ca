//! The book of a context store: its history, the documents that came into the store, what is stored now, and the passes
//! for its loads, all of which move together. Nothing here is a thread, but for the bell.
//!
//! [`Book::new`] makes a book. A session is opened ([`Book::open_session`]) and closed ([`Book::close_session`]). Each of
//! its requests begins with [`Book::pin`], which hands out what the store has at the version that is pinned. Where that
//! lacks a context, [`Book::lack`] says what is to be done: pin again, wait for another's flight, or load the context with
//! the [`Pass`](ld_flight::Pass) that comes with the answer. [`Book::revise`] and [`Book::evict`] are for contexts that are
//! stored. A flight ends by [`Book::publish`], [`Book::fail`] or [`Book::lapse`], and [`Book::look`] tells how it stands. A
//! request ends by [`Book::answered`], or by a refusal of `lack`, `evict` or `revise`. Each call appends the entries of one
//! step of the history, and is allowed where its `requires` says; [`Book::history`] tells so ahead, by `may_pin` and the
//! like. `fail`, `lapse`, `answered`, `close_session` and `look` take no memory: what ends something never lacks room.
//!
//! A book is [`Told`](ld_turn::Told): behind a turn lock many sessions append to one history. [`Hall`] has the locks that
//! workers share, [`Seats`] a worker's seats, and [`Bell`] wakes those who wait for a flight.
//!
//! To be believed, beside the definitions of the history: `specs/Pages.antt` (what a book stands for, how it grows, and
//! the stock of a version with its documents), `specs/Documents.antt` (whose a document is), `specs/Said.antt` (what is
//! answered) and `specs/Seats.antt` (whose an entry is). The code's own: `specs/Kept.antt` and `specs/Passes.antt`, what a
//! book keeps beside its history.
#![tactic(auto)]

mod allowed;
mod answers;
mod bell;
mod book;
mod contexts;
mod flights;
mod hall;
mod page;
mod sessions;
mod told;

pub use answers::{
    EvictAnswer, LackAnswer, LookAnswer, Pin, PublishAnswer, ReviseAnswer, RoomRefusal,
};
pub use bell::Bell;
pub use book::Book;
pub use hall::{Blank, Hall, Seats};
pub use page::{Line, Page};
