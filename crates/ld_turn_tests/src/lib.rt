//! The tests of the turn lock, over a log of marks. They stand in a crate of their own, since a crate with tests
//! is proved twice: here only the log and the tests are.
#![tactic(auto)]

pub mod log;
#[cfg(test)]
mod seats;
#[cfg(test)]
mod threads;
