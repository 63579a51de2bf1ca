ghost use Rattle.std.specs.Prelude.{◌≡◌, ◌++◌, ◌∷◌, [], min, ◌+◌, ◌-◌, ◌^◌, OnOk};

use ld_ctx::Names;
use ld_tree::{Items, NoMemory, Text};
use std::alloc::Global;

/// What context processing took.
#[derive(Debug, Drop)]
pub struct Runs {
    /// How many invocations of the Context Processing Algorithm (JSON-LD 1.1 API, 4.1.2), those within others too.
    /// At 2^64 - 1 it stands still.
    pub count: u64,
    /// The IRIs of the documents that were asked for, in order; each asking counts.
    pub read: Names,
}

impl Runs {
    /// Nothing yet.
    pub fn new(alloc: Global) -> Runs
        ensures count { result.count ≡ 0 }
        ensures read { result.read ≡ [] }
    {
        Runs {
            count: 0,
            read: Items::new(alloc),
        }
    }
}

/// Counts an invocation.
pub fn count_one(runs: &mut Runs)
    ensures { runs.new ≡ record runs.old { count = min (runs.old.count + 1) (2 ^ 64 - 1) } }
{
    runs.count = runs.count.saturating_add(1);
}

/// Notes that the document of the IRI was asked for.
pub fn note(runs: &mut Runs, iri: Text) -> Result<(), NoMemory>
    ensures { OnOk result (runs.new ≡ record runs.old { read = runs.old.read ++ iri ∷ [] }) }
{
    match runs.read.push(iri) {
        Ok(()) => Ok(()),
        Err((_, e)) => Err(e),
    }
}
