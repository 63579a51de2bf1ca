//! Tests of ld_inverse: tables of expected values, and selection beside a plain slow program.
#![tactic(auto)]

#[cfg(test)]
mod iris;
#[cfg(test)]
mod making;
#[cfg(test)]
mod selection;
#[cfg(test)]
mod slow;
#[cfg(test)]
mod tickets;
#[cfg(test)]
mod values;
