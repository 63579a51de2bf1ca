//! The tests of expansion and of what it stands on: codes, keywords and IRIs. They stand in a crate of
//! their own, since a crate with tests is proved twice: here only the tests are.
#![tactic(auto)]

#[cfg(test)]
mod codes;
#[cfg(test)]
mod contexts;
#[cfg(test)]
mod expansion;
#[cfg(test)]
mod iris;
#[cfg(test)]
mod refusals;
