//! The tests of term definitions: for each code and refusal of the algorithm a smallest local context that gives it,
//! a chain of prefixes, and a scoped context that is tried. They stand in a crate of their own, since a crate with
//! tests is proved twice.
#![tactic(auto)]

#[cfg(test)]
mod chains;
#[cfg(test)]
mod definitions;
#[cfg(test)]
mod locals;
#[cfg(test)]
mod refusals;
