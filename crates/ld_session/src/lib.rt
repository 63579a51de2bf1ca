//! The session of a connection: its requests over HTTP, answered from the context store that many connections share.
//!
//! [`serve_session`] serves one connection from a worker's seats in a hall. It opens a session, reads the requests that come
//! over the link, and answers them in their order, each as the algorithms say over the version of the store that it pinned. A
//! context that an evaluation lacks is brought into the store, by a flight that this session or another leads, and the
//! evaluation begins anew over a version that has it. A turn at the book does no evaluation, reading, writing or loading.
//! Then the session is closed, and the seats come back. A [`Desk`] is where it works; who speaks with nobody, as a round
//! of revisions does, works at one too.
//!
//! What is ensured holds for every interleaving with other sessions, and of every book that goes on from what the seat has
//! seen at the end: the session's requests stand in its history once each, in order, and the history fits what was asked and
//! written (`Fits` of `ld_fits`).
//!
//! To be believed: `specs/Serving.antt`, beside the definitions that it cites. The code's own: `specs/Landing.antt` and
//! `specs/Requesting.antt` (what flights and requests come to between turns), and `specs/Adding.antt`.
#![tactic(auto)]

mod attempts;
mod changing;
mod desk;
mod evaluating;
mod fetching;
mod landing;
mod serving;
mod session;

pub use desk::Desk;
pub use serving::{Served, serve_session};
