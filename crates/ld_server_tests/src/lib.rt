//! The tests of a server: of its workers over memory, and over real connections on the loopback interface. They stand in a
//! crate of their own, since a crate with tests is proved twice: here only the tests are.
#![tactic(auto)]

#[cfg(test)]
mod gate;
#[cfg(test)]
mod hosting;
#[cfg(test)]
mod memory;
#[cfg(test)]
mod messages;
#[cfg(test)]
mod rounds;
#[cfg(test)]
mod sockets;
