//! Makes the requests of one session in one book, for the benchmark that bench/book.py times. The first word is how many
//! requests. With the second word `contexts` each of them lacks a context, which is loaded, and a place is made for it.
#![tactic(auto)]

mod drive;

use drive::{Stopped, Wanted, drive};
use std::env::Env;
use std::process::ExitCode;
use std::{env, io};

// The number of requests that the words ask for, and what they lack.
fn asked<R: Env + AllocGlobal>(rt: &R) -> Option<(u64, Wanted)> {
    let mut words = env::args(rt).ok()?;
    let _program = words.next()?;
    let word = words.next()?;
    let requests = word.as_str().parse::<u64>().ok()?;
    match words.next() {
        None => Some((requests, Wanted::Nothing)),
        Some(word) => (word.as_str() == "contexts").then_some((requests, Wanted::Contexts)),
    }
}

fn main(rt: HostRuntime) -> io::Result<ExitCode> {
    let Some((requests, wanted)) = asked(&rt) else {
        println!(rt; "usage: ld_book_bench <requests> [contexts]")?;
        return Ok(ExitCode::from(2));
    };
    match drive(rt.alloc(), requests, wanted) {
        Ok(book) => {
            println!(rt; "version {} events {}", book.version(), book.events())?;
            Ok(ExitCode::SUCCESS)
        }
        Err(Stopped::NotAllowed) => {
            println!(rt; "not allowed")?;
            Ok(ExitCode::from(1))
        }
        Err(Stopped::Full) => {
            println!(rt; "the history is full")?;
            Ok(ExitCode::from(1))
        }
        Err(Stopped::NoMemory) => {
            println!(rt; "no memory")?;
            Ok(ExitCode::from(7))
        }
    }
}
