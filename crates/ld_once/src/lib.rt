//! One run of the program for one input: from the words and the bytes read to the bytes written.
//!
//! Call [`run_once`]: it is the whole of a run, for any source, sink and loader. The program (`ld_server`) makes a source of
//! standard input, a sink of standard output and a loader of the folder `contexts`, and ends with its status.
//!
//! To be believed: `specs/Runs.antt`, which says what is due for which words and input, and the four ways a
//! run may end; `specs/Outcomes.antt` (what an envelope is answered) and `specs/Loading.antt` (which contexts are loaded
//! for it). `specs/Replies.antt`, `specs/Underway.antt` and `specs/Inputs.antt` are of inner steps alone.
#![tactic(auto)]

mod command;
mod input;
mod loading;
#[cfg(test)]
mod loads;
mod output;
mod reply;
#[cfg(test)]
mod rows;
mod run;
mod soak;
#[cfg(test)]
mod tests;

pub use run::run_once;
