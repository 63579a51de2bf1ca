//! The tests of the book. They stand in a crate of their own, since a crate with tests is proved twice: here only the
//! tests are.
#![tactic(auto)]

#[cfg(test)]
mod calls;
#[cfg(test)]
mod scripts;
