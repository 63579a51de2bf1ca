//! The tests of a connection's session, and of a round of revisions. They stand in a crate of their own, since a crate with
//! tests is proved twice: here only the tests are.
#![tactic(auto)]

#[cfg(test)]
mod contexts;
#[cfg(test)]
mod hosting;
#[cfg(test)]
mod limits;
#[cfg(test)]
mod messages;
#[cfg(test)]
mod rounds;
#[cfg(test)]
mod talks;
