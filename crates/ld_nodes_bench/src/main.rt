//! Flattens a document of a hostile kind, for the benchmark that bench/flatten.py times. The words are `values` (one
//! property of one node with so many values), `meetings` (one node that is met so often), `types` (one node with so
//! many types), `blanks` (so many nodes without an identifier) or `long` (one property with so many values, its name
//! and that of its node a kilobyte long), and how many.
#![tactic(auto)]

mod documents;

use documents::{Kind, document};
use ld_nodes::flatten;
use ld_rec::Stop;
use ld_tree::Tree;
use std::alloc::Global;
use std::env::Env;
use std::process::ExitCode;
use std::{env, io};

#[derive(Clone, Copy)]
struct Wanted {
    kind: Kind,
    count: u32,
}

// What the words ask for.
fn read_words<R: Env + AllocGlobal>(rt: &R) -> Option<Wanted> {
    let mut words = env::args(rt).ok()?;
    let _program = words.next()?;
    let kind = words.next()?;
    let count = words.next()?;
    Some(Wanted {
        kind: match kind.as_str() {
            "values" => Kind::Values,
            "meetings" => Kind::Meetings,
            "types" => Kind::Types,
            "blanks" => Kind::Blanks,
            "long" => Kind::Long,
            _ => return None,
        },
        count: count.as_str().parse::<u32>().ok()?,
    })
}

fn objects(alloc: Global, wanted: &Wanted) -> Result<usize, Stop> {
    let expanded = document(alloc, wanted.kind, wanted.count)?;
    match flatten(alloc, &expanded)? {
        Tree::List(items) => Ok(items.as_slice().len()),
        _ => Ok(0),
    }
}

fn main(rt: HostRuntime) -> io::Result<ExitCode> {
    let Some(wanted) = read_words(&rt) else {
        println!(rt; "usage: ld_nodes_bench values|meetings|types|blanks|long <count>")?;
        return Ok(ExitCode::from(2));
    };
    match objects(rt.alloc(), &wanted) {
        Ok(objects) => {
            println!(rt; "objects {objects}")?;
            Ok(ExitCode::SUCCESS)
        }
        Err(Stop::NoMemory) => {
            println!(rt; "no memory")?;
            Ok(ExitCode::from(7))
        }
        Err(_) => {
            println!(rt; "no answer")?;
            Ok(ExitCode::from(1))
        }
    }
}
