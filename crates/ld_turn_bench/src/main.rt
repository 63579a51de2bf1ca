//! Takes turns, for the benchmark that bench/turns.py times. The words are `lock` or `mutex`, the number of
//! threads, and the turns of each.
#![tactic(auto)]

mod by_lock;
mod by_mutex;
mod tally;

use by_lock::by_lock;
use by_mutex::by_mutex;
use std::env::Env;
use std::process::ExitCode;
use std::sync::Wait;
use std::thread::Threads;
use std::{env, io};
use tally::Tally;

#[derive(Clone, Copy)]
enum Kind {
    Lock,
    Mutex,
}

#[derive(Clone, Copy)]
struct Wanted {
    kind: Kind,
    threads: u32,
    turns: u64,
}

// What the words ask for.
fn read_words<R: Env + AllocGlobal>(rt: &R) -> Option<Wanted> {
    let mut words = env::args(rt).ok()?;
    let _program = words.next()?;
    let kind = words.next()?;
    let threads = words.next()?;
    let turns = words.next()?;
    Some(Wanted {
        kind: match kind.as_str() {
            "lock" => Kind::Lock,
            "mutex" => Kind::Mutex,
            _ => return None,
        },
        threads: threads.as_str().parse::<u32>().ok()?,
        turns: turns.as_str().parse::<u64>().ok()?,
    })
}

fn run<R: Threads + Wait + Sync + AllocGlobal>(rt: &R, wanted: &Wanted) -> Option<Tally> {
    match wanted.kind {
        Kind::Lock => by_lock(rt, rt.alloc(), wanted.threads, wanted.turns),
        Kind::Mutex => by_mutex(rt, rt.alloc(), wanted.threads, wanted.turns),
    }
}

fn main(rt: HostRuntime) -> io::Result<ExitCode> {
    let Some(wanted) = read_words(&rt) else {
        println!(rt; "usage: ld_turn_bench lock|mutex <threads> <turns>")?;
        return Ok(ExitCode::from(2));
    };
    let Some(tally) = run(&rt, &wanted) else {
        println!(rt; "no memory, or too many seats")?;
        return Ok(ExitCode::from(7));
    };
    println!(rt; "turns {} state {}", tally.turns, tally.state)?;
    Ok(ExitCode::SUCCESS)
}
