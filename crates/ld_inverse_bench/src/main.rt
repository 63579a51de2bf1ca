//! Builds inverses and compacts IRIs, for the benchmark that bench/inverse.py times. The words are `build`, `terms`
//! (IRIs that terms map to) or `others` (IRIs that no term maps to), the number of terms, and how often.
#![tactic(auto)]

mod work;

use ld_ctx::Stop;
use std::env::Env;
use std::process::ExitCode;
use std::{env, io};
use work::{Kind, Wanted, run};

// What the words ask for.
fn read_words<R: Env + AllocGlobal>(rt: &R) -> Option<Wanted> {
    let mut words = env::args(rt).ok()?;
    let _program = words.next()?;
    let kind = words.next()?;
    let terms = words.next()?;
    let rounds = words.next()?;
    Some(Wanted {
        kind: match kind.as_str() {
            "build" => Kind::Build,
            "terms" => Kind::Terms,
            "others" => Kind::Others,
            _ => return None,
        },
        terms: terms.as_str().parse::<u32>().ok()?,
        rounds: rounds.as_str().parse::<u32>().ok()?,
    })
}

fn main(rt: HostRuntime) -> io::Result<ExitCode> {
    let Some(wanted) = read_words(&rt) else {
        println!(rt; "usage: ld_inverse_bench build|terms|others <terms> <rounds>")?;
        return Ok(ExitCode::from(2));
    };
    match run(rt.alloc(), &wanted) {
        Ok(bytes) => {
            println!(rt; "bytes {bytes}")?;
            Ok(ExitCode::SUCCESS)
        }
        Err(Stop::NoMemory) => {
            println!(rt; "no memory")?;
            Ok(ExitCode::from(7))
        }
        Err(_) => {
            println!(rt; "no answer")?;
            Ok(ExitCode::from(1))
        }
    }
}
