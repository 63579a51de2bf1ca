//! The tests of the store's history and of scripts. They stand in a crate of their own, since a crate with
//! tests is proved twice: here only the tests are.
#![tactic(auto)]

#[cfg(test)]
mod history;
#[cfg(test)]
mod scripts;
#[cfg(test)]
mod slow;
#[cfg(test)]
mod steps;
