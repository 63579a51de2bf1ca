//! The tests of a connection's talk.
#![tactic(auto)]

#[cfg(test)]
mod fake;
#[cfg(test)]
mod talks;
