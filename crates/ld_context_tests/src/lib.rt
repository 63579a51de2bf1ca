//! The tests of context processing. They stand in a crate of their own, since a crate with tests is proved twice:
//! here only the tests are.
#![tactic(auto)]

#[cfg(test)]
mod codes;
#[cfg(test)]
mod contexts;
#[cfg(test)]
mod helpers;
#[cfg(test)]
mod runs;
