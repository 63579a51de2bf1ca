//! The tests of items that come over a link.
#![tactic(auto)]

#[cfg(test)]
mod streams;
