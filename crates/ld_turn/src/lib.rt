//! A lock that gives turns in the order of tickets, over a value that stands for a list of entries which
//! only grows. What it is for: many threads append to one history, and each knows that the history it finds
//! at its turn begins with all that it has seen before, and that none of what came since is its own.
//!
//! A value is [`Told`]: it says what its entries are, and to which seat an entry belongs.
//! [`TurnLock::start`] puts it behind a lock and gives the first [`Seat`], and [`TurnLock::split`] makes
//! further seats, one for each thread, up to 256. [`TurnLock::take`] waits for a seat's [`Turn`], at which
//! [`Turn::value`] lends the value, and [`TurnLock::leave`] ends it. By a [`Note`], which
//! [`TurnLock::note`] writes, one seat comes to know that the history begins with what another has seen:
//! [`TurnLock::meet`]. [`TurnLock::close`] takes all seats back and gives the value. Only `start` takes
//! memory.
//!
//! Nothing is said of waiting: not that a turn comes, nor who is first. A turn has no `Drop`, so a thread
//! can't lose the value, but a thread that never leaves keeps all others waiting. A seat that is dropped is
//! missing at the close.
//!
//! To be believed: `specs/Known.antt` (what a seat, a note and a turn are to contracts) and
//! `specs/History.antt` (whose the entries are). The code's own: `specs/Rule.antt`, which holds of the
//! lock's words between any two atomic steps, `specs/Steps.antt`, what each step tells its seat,
//! `specs/Views.antt` and `specs/Lending.antt`.
#![tactic(auto)]

mod close;
mod lock;
mod note;
mod rule;
mod seat;
mod steps;
mod told;
mod turn;
mod wait;

pub use close::CloseRefusal;
pub use lock::{SplitRefusal, TurnLock};
pub use note::Note;
pub use seat::Seat;
pub use told::Told;
pub use turn::Turn;
