//! Loaders: the objects that fetch the texts of contexts.
ghost use Rattle.std.specs.Prelude.{◌≡◌, ◌≤◌, ◌++◌, ◌∷◌, [], ℕ, List, Option, length, IfOk, IfErr, OnOk, OnErr};
ghost use Rattle.ld_edge.specs.Faults.{last_count, NeverFalls};
ghost use Rattle.ld_flight.specs.Loads.{Loading, entry_of, left_of, longest_text, IsNext};
ghost use Rattle.ld_flight.specs.Refusals.{IsCountedAs};

use crate::pass::Pass;
use ld_tree::{Raw, Url};
use std::alloc::Global;

/// The longest text that a loader hands on, in bytes: one more than the longest that is kept. A text of this length
/// stands for each that is longer.
pub const LONGEST_TEXT: usize = 1_048_577;

/// A text that was loaded, with the pass that it was loaded for. It has at most [`LONGEST_TEXT`] bytes.
pub struct Loaded {
    pub pass: Pass,
    /// The place that the text came from.
    pub url: Url,
    pub text: Raw,
}

/// Why nothing was loaded.
#[derive(Clone, Copy, Debug, PartialEq, Eq)]
pub enum Why {
    /// The loader failed, and counted it.
    Fault,
    /// An allocation failed.
    NoMemory,
}

/// The pass of a load that came to nothing, with the loader's count of failures before and after it.
pub struct Refused {
    pub pass: Pass,
    pub why: Why,
    pub before: u64,
    pub after: u64,
}

/// Fetches the texts of contexts.
pub trait Loader {
    /// What is told of the answers that it gave, of those that are to come for each IRI, and how many loads failed. That
    /// count never falls, and stands still at 2^63 - 1.
    ghost loading: { Self → Loading };

    /// Fetches the text of the context that the pass is for.
    fn load(&mut self, alloc: Global, pass: Pass) -> Result<Loaded, Refused>
        ensures pass { IfOk result (λ loaded. loaded.pass ≡ pass) }
        ensures length { IfOk result (λ loaded. length loaded.text ≤ longest_text) }

        // What was given gains the answer.
        ensures given { IfOk result (λ loaded. (loading self.new).given ≡ (loading self.old).given ++ entry_of pass loaded.url loaded.text ∷ []) }
        ensures keeps_given { OnErr result ((loading self.new).given ≡ (loading self.old).given) }

        // Where the answers to come are told, it is the first, and goes unless it is the only one.
        ensures next { IfOk result (λ loaded. IsNext ((loading self.old).held pass.iri) (loaded.url, loaded.text)) }
        ensures held { OnOk result ((iri : List ℕ) → (loading self.new).held iri ≡ left_of iri pass.iri ((loading self.old).held iri)) }
        ensures keeps_held { OnErr result ((iri : List ℕ) → (loading self.new).held iri ≡ (loading self.old).held iri) }

        // The pass of a refused load comes back, with both counts. It is a fault only where the count rose.
        ensures pass_back { IfErr result (λ refused. refused.pass ≡ pass) }
        ensures before { IfErr result (λ refused. refused.before ≡ (loading self.old).faults) }
        ensures after { IfErr result (λ refused. refused.after ≡ (loading self.new).faults) }
        ensures why { IfErr result (λ refused. IsCountedAs refused.why (loading self.old).faults (loading self.new).faults) }
        ensures keeps_count { OnOk result ((loading self.new).faults ≡ (loading self.old).faults) }
        ensures never_falls { NeverFalls (loading self.old).faults (loading self.new).faults };

    /// How many loads failed.
    fn faults(&self) -> u64
        ensures { result ≡ (loading self.now).faults };

    ghost at_most_last: { (loader : Self) → (loading loader).faults ≤ last_count };
}

impl Refused {
    ghost use Rattle.ld_edge.specs.Faults.{Rose};
    ghost use Rattle.ld_flight.specs.declared.loader.Refused.{Refused};
    ghost use Rattle.ld_flight.specs.declared.loader.Why.TheVariants as whys;

    pub(crate) fn fault(pass: Pass, before: u64, after: u64) -> Refused
        ensures { result ≡ record { pass = pass; why = whys.Fault; before = before; after = after } }
    {
        Refused {
            pass,
            why: Why::Fault,
            before,
            after,
        }
    }

    // The count is the same before and after.
    pub(crate) fn no_memory(pass: Pass, count: u64) -> Refused
        ensures { result ≡ record { pass = pass; why = whys.NoMemory; before = count; after = count } }
    {
        Refused {
            pass,
            why: Why::NoMemory,
            before: count,
            after: count,
        }
    }
}
