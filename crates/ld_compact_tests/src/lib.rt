//! The tests of compaction. They stand in a crate of their own, since a crate with tests is proved twice: here only
//! the tests are.
#![tactic(auto)]

#[cfg(test)]
mod compaction;
#[cfg(test)]
mod graphs;
#[cfg(test)]
mod helpers;
#[cfg(test)]
mod maps;
