//! The outside as the program meets it: where bytes come from, where they go, what a failure is,
//! and the status that the program ends with.
//!
//! Code above is written for any [`Source`], [`Sink`] or [`Link`], and its contracts say by their meanings
//! `incoming` and `outgoing` what it reads and writes. [`MemSource`], [`MemSink`] and [`MemLink`] tell all
//! their bytes, and fail at the calls that they are told. [`StdSource`] and [`StdSink`] stand over files,
//! pipes and streams, and tell no bytes.
//!
//! To be believed: `specs/Sides.antt` (what is told of a side), `specs/Passing.antt` (what passes through an
//! object), `specs/Faults.antt` (counts of failures) and `specs/Status.antt` (the numbers of the exit status).
//! The rest of `specs/` is how the objects here are seen: over memory, and over a reader or writer.
#![tactic(auto)]

mod counted;
mod door;
mod faults;
mod interrupted;
mod listen_door;
mod mem_door;
mod mem_link;
mod mem_sink;
mod mem_source;
mod outside;
mod plan;
mod status;
mod std_sink;
mod std_source;
mod stream_link;
mod writing;

pub use door::Door;
pub use faults::FaultCount;
pub use listen_door::ListenDoor;
pub use mem_door::MemDoor;
pub use mem_link::MemLink;
pub use mem_sink::MemSink;
pub use mem_source::MemSource;
pub use outside::{Failed, Link, Sink, Source};
pub use plan::FaultPlan;
pub use status::Status;
pub use std_sink::StdSink;
pub use std_source::StdSource;
pub use stream_link::StreamLink;
pub use writing::write_all;
