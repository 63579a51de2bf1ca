//! Reads JSON texts from standard input, for bench/reading.py, which times that, and bench/texts.py, which compares it
//! with another reader. The words are `read` and how often the whole input is read as one text, or `lines`: then each
//! line is a text, and a line is printed for it: its tree's compact text, or `refused`.
#![tactic(auto)]

mod work;

use std::env::Env;
use std::io::{Read, Write};
use std::process::ExitCode;
use std::{env, io};
use work::{BenchRefusal, print_lines, read_often};

#[derive(Clone, Copy)]
enum Wanted {
    Read { rounds: u32 },
    Lines,
}

// What the words ask for.
fn read_words<R: Env + AllocGlobal>(rt: &R) -> Option<Wanted> {
    let mut words = env::args(rt).ok()?;
    let _program = words.next()?;
    let kind = words.next()?;
    match kind.as_str() {
        "read" => {
            let rounds = words.next()?;
            let rounds = rounds.as_str().parse::<u32>().ok()?;
            Some(Wanted::Read { rounds })
        }
        "lines" => Some(Wanted::Lines),
        _ => None,
    }
}

fn main(rt: HostRuntime) -> io::Result<ExitCode> {
    let Some(wanted) = read_words(&rt) else {
        println!(rt; "usage: ld_tree_bench read <rounds> | lines")?;
        return Ok(ExitCode::from(2));
    };
    let mut bytes = Vec::new(rt.alloc());
    rt.stdin().read_to_end(&mut bytes)?;
    let done = match wanted {
        Wanted::Read { rounds } => read_often(rt.alloc(), bytes.as_slice(), rounds),
        Wanted::Lines => print_lines(rt.alloc(), bytes.as_slice()).map_err(BenchRefusal::from),
    };
    match done {
        Ok(text) => {
            rt.stdout().write_all(text.as_slice())?;
            Ok(ExitCode::SUCCESS)
        }
        Err(BenchRefusal::NoMemory) => Ok(ExitCode::from(7)),
        Err(BenchRefusal::Refused) => Ok(ExitCode::from(1)),
    }
}
