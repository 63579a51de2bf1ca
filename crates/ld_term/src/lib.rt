//! Create Term Definition (JSON-LD 1.1 Processing Algorithms and API, section 4.2.2), with scoped contexts left to
//! the caller.
//!
//! - [`define`] defines a term of a local context in the context that is being made. It ends with the term defined,
//!   with the algorithm's error, or with a [`Waiting`]: a definition whose scoped context ([`Waiting::scoped`]) is to
//!   be processed over the context as it is then.
//! - [`resume`] takes the Waiting and what came of its scoped context, and goes on. Each `resume` leaves less to do
//!   (`next_size`), so a caller's loop over it ends.
//! - [`Defined`] is the table of defined terms, [`Rest`] what context processing hands on.
//!
//! Terms that call for others first, as a compact IRI for its prefix, are half-made definitions ([`Half`]) on a list
//! of the crate's own: a long chain of prefixes takes no call stack. A map of a term is copied only where its
//! definition waits.
//!
//! Together the two give ld_rec's `defined`, for whatever scoped contexts give: the clauses hold for every `check`
//! that gives for a Waiting's scoped context what the caller tells of it. To be believed, since they speak by them:
//! `specs/Comes.antt` (a call beside an answer over each stock), `specs/Waits.antt` and `specs/Runs.antt` (what is left
//! of a definition that waits; what a caller tells), and for the measure `specs/Sizes.antt` and `specs/NextSizes.antt`.
//! The modules, from below: half, rest and table, ending (steps 20 to 28), words, containers (19), first (what is
//! defined before a value is expanded), mapping (15 to 18), named (14), reverse (13), kinds (7 to 12), begin (1 to 6),
//! run.
#![tactic(auto)]

mod begin;
mod containers;
mod ending;
mod first;
mod half;
mod kinds;
mod mapping;
mod named;
mod rest;
mod reverse;
mod run;
mod table;
mod words;

pub use half::{Aim, Before, Half, Ready, Step, Task, Wait};
pub use rest::Rest;
pub use run::{Next, Waiting, define, resume, scoped_stop};
pub use table::Defined;
