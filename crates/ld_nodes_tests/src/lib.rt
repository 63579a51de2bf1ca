//! The tests of flattening. They stand in a crate of their own, since a crate with tests is proved twice: here only
//! the tests are.
#![tactic(auto)]

#[cfg(test)]
mod flattening;
#[cfg(test)]
mod naming;
