//! What a session has moved between two places in a book, over several turns at it. There is no code here: the crate is
//! definitions, and laws.
//!
//! A session takes turns at a book. In each it finds the book's pages, which begin with its front, and nothing that came since
//! is its own (`Finds`). It takes one step, and the pages after it are its next front. `Moves` says what it has done between
//! two places: which entries of its own came, that they lead from the one stage to the other, however the history goes on,
//! what its loader gave and how that failed. Moves add up; and each step of a book is a move to the stage that its answer
//! tells.
//!
//! To be believed: `specs/Stocks.antt` (what a version of a book has, and when a book is sound), `specs/Moving.antt` (places and
//! moves) and `specs/Standing.antt` (what the history tells of a session and of a flight). Laws of places: `stocks_stay`,
//! `moves_add_up`, `facts_are_kept`. Of steps: `pins_move`, `lacks_move`, `answers_move`, `publishes_move`, `fails_move`,
//! `lapses_move`, `revisions_move`, `evictions_move`, `closes_move`.
#![tactic(auto)]

mod laws;
mod steps;

pub use laws::{facts_are_kept, moves_add_up, stocks_stay};
pub use steps::{
    answers_move, closes_move, evictions_move, fails_move, lacks_move, lapses_move, pins_move,
    publishes_move, revisions_move,
};
