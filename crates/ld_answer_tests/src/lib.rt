//! The tests of answers: what is compacted expands to what it was compacted from; and of what is to be revised or evicted.
#![tactic(auto)]

#[cfg(test)]
mod round_trips;
#[cfg(test)]
mod targets;
