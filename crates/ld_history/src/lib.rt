//! The history of the context store: its events, the state after a list of them, and which event
//! may come next. Nothing here is a thread or a lock.
//!
//! Make a `State`, and call its steps (`open_session`, `pin`, `lack`, `publish`, `fail`, `lapse`, `answer`,
//! `evict`, `revise`, `close_session`), each of which finds its case and appends an entry or two, or `step`,
//! which appends an entry that is given. `fail`, `lapse`, `answer` and `close_session` take no memory and refuse
//! nothing: ask `may_fail` and the like first. The others say themselves where they aren't allowed, which `may_open`,
//! `may_pin`, `may_lack` and `has_pinned` tell ahead; `out_of_lack` tells ahead what goes out for a lack.
//! `State::entry` and `State::limits` show all that a state is seen as.
//! The laws of every legal history are `versions_rise`, `stocks_are_told` and the others beside them.
//!
//! Of `specs/`, to be believed are Store, Words, Rules, After and Legal (which histories are legal, and what
//! a version's stock is), Steps (what a step answers and appends), Seats (whose an entry is), and Counts, Ahead and
//! Laws (what the laws say). The code's own are Turns and ByTurns (how it tells what a version had), Seen,
//! Ready, Holders, Index, Leading and Order (its tables), Choices and Plans (what it plans). SeatsStay is a lemma
//! for crates above.
#![tactic(auto)]

mod ahead;
mod answers;
mod changes;
mod choices;
mod event;
mod evicting;
mod flights;
mod holders;
mod index;
mod keep;
mod lacking;
mod laws;
mod limits;
mod make_place;
mod may;
mod name;
mod next_out;
mod order;
mod outcome;
mod plans;
mod refusal;
mod rules;
mod seat_laws;
mod session;
mod state;
mod step_laws;
mod steps;
mod stock_laws;
mod tables;

pub use ahead::room_is_promised;
pub use answers::{
    EvictAnswer, LackAnswer, OpenAnswer, Out, PinAnswer, PublishAnswer, ReviseAnswer,
};
pub use event::{Entry, Event, Given, How};
pub use laws::{
    ends_are_allowed, flights_are_single, flights_fit, fronts_are_legal, held_stays,
    holders_are_least, lacks_differ, places_suffice, requests_are_short, room_is_kept,
    too_many_is_new, versions_rise,
};
pub use limits::Limits;
pub use name::{Answer, Name};
pub use refusal::StepRefusal;
pub use seat_laws::seats_stay;
pub use session::End;
pub use state::{State, step};
pub use step_laws::steps_are_found;
pub use stock_laws::stocks_are_told;
