//! The tests of Value Expansion, language maps and the items of index maps. They stand in a crate of their own,
//! since a crate with tests is proved twice: here only the tests are.
#![tactic(auto)]

#[cfg(test)]
mod items;
#[cfg(test)]
mod languages;
#[cfg(test)]
mod making;
#[cfg(test)]
mod values;
