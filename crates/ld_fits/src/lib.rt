//! What it is for a history to fit what a connection asked and what was written to it. There is no code here: the crate is
//! definitions, and laws that show them sane.
//!
//! A session's entries in the history are its requests: the items of its connection whose bodies are what their paths take,
//! in order. `Fits` says that they are, that each result, code and refusal is what the algorithms of JSON-LD 1.1 give over
//! the version of the request's last pin or what the state of that moment says, and that the text written is the reply of
//! each item after another.
//!
//! To be believed: `specs/Asks.antt` (what an item asks for, from its bytes), `specs/Play.antt` (where each entry of a session
//! leads) and `specs/Fits.antt`. `specs/Leading.antt` says where the steps of the history lead a session, by what they answer,
//! and `specs/Examples.antt` has two short histories. Laws: `stages_go_on`, `steps_lead`, `fits_stay`, `short_sessions_fit`.
#![tactic(auto)]

mod laws;

pub use laws::{fits_stay, short_sessions_fit, stages_go_on, steps_lead};
