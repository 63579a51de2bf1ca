//! Reads heads and writes replies, for the benchmark that bench/heads.py times. The words are `whole` (a head at once),
//! `bytes` (a head that comes byte by byte) or `replies`, the number of the head's fields, the bytes of each one's value,
//! and how often.
#![tactic(auto)]

mod work;

use std::env::Env;
use std::process::ExitCode;
use std::{env, io};
use work::{Kind, Wanted, run};

// What the words ask for.
fn read_words<R: Env + AllocGlobal>(rt: &R) -> Option<Wanted> {
    let mut words = env::args(rt).ok()?;
    let _program = words.next()?;
    let kind = words.next()?;
    let fields = words.next()?;
    let value = words.next()?;
    let rounds = words.next()?;
    Some(Wanted {
        kind: match kind.as_str() {
            "whole" => Kind::Whole,
            "bytes" => Kind::Bytes,
            "replies" => Kind::Replies,
            _ => return None,
        },
        fields: fields.as_str().parse::<u32>().ok()?,
        value: value.as_str().parse::<u32>().ok()?,
        rounds: rounds.as_str().parse::<u32>().ok()?,
    })
}

fn main(rt: HostRuntime) -> io::Result<ExitCode> {
    let Some(wanted) = read_words(&rt) else {
        println!(rt; "usage: ld_head_bench whole|bytes|replies <fields> <value> <rounds>")?;
        return Ok(ExitCode::from(2));
    };
    let Some(sum) = run(rt.alloc(), &wanted) else {
        println!(rt; "no head, or no memory")?;
        return Ok(ExitCode::from(7));
    };
    println!(rt; "sum {sum}")?;
    Ok(ExitCode::SUCCESS)
}
