//! The tests of contexts as values. They stand in a crate of their own, since a crate with tests is proved
//! twice: here only the tests are.
#![tactic(auto)]

#[cfg(test)]
mod contexts;
#[cfg(test)]
mod documents;
#[cfg(test)]
mod iris;
#[cfg(test)]
mod stocks;
