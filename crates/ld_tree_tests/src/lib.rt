//! The tests of trees, of reading and printing them, and of sources, sinks and links. They stand in a crate of their own, since a
//! crate with tests is proved twice: here only the tests are.
#![tactic(auto)]

#[cfg(test)]
mod edges;
#[cfg(test)]
mod printing;
#[cfg(test)]
mod reading;
#[cfg(test)]
mod refusals;
#[cfg(test)]
mod trees;
