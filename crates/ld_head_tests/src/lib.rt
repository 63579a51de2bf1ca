//! The tests of heads, dialogues and replies. They stand in a crate of their own, since a crate with tests is proved twice:
//! here only the tests are.
#![tactic(auto)]

#[cfg(test)]
mod checks;
#[cfg(test)]
mod endings;
#[cfg(test)]
mod replies;
#[cfg(test)]
mod told;
