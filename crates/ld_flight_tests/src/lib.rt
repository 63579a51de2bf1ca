//! The tests of loads. They stand in a crate of their own, since a crate with tests is proved twice: here only the tests
//! are.
#![tactic(auto)]

#[cfg(test)]
mod loads;
