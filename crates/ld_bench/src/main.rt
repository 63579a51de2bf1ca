//! Drives a history of the context store, for the benchmark that bench/history.py times. The first word
//! is how many events to make; 64 sessions make them, over 512 contexts. With the second word `distinct`
//! they lack another context each time.
#![tactic(auto)]

mod drive;

use drive::{Wanted, drive};
use ld_history::StepRefusal;
use std::env::Env;
use std::process::ExitCode;
use std::{env, io};

// The number of events that the words ask for, and over which contexts.
fn asked<R: Env + AllocGlobal>(rt: &R) -> Option<(u64, Wanted)> {
    let mut words = env::args(rt).ok()?;
    let _program = words.next()?;
    let word = words.next()?;
    let events = word.as_str().parse::<u64>().ok()?;
    match words.next() {
        None => Some((events, Wanted::Few)),
        Some(word) => (word.as_str() == "distinct").then_some((events, Wanted::Distinct)),
    }
}

fn main(rt: HostRuntime) -> io::Result<ExitCode> {
    let Some((events, wanted)) = asked(&rt) else {
        println!(rt; "usage: ld_bench <events> [distinct]")?;
        return Ok(ExitCode::from(2));
    };
    match drive(rt.alloc(), events, wanted) {
        Ok(state) => {
            println!(rt; "version {} events {}", state.version(), state.events())?;
            Ok(ExitCode::SUCCESS)
        }
        Err(StepRefusal::NotAllowed) => {
            println!(rt; "not allowed")?;
            Ok(ExitCode::from(1))
        }
        Err(StepRefusal::NoMemory) => {
            println!(rt; "no memory")?;
            Ok(ExitCode::from(7))
        }
    }
}
