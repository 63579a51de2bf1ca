ghost use Rattle.std.specs.Prelude.{◌≡◌, [], length, IfOk};
ghost use Rattle.ld_history.specs.Legal.{AreWithin, Legal};
ghost use Rattle.ld_book.specs.Pages.{entries_of, history_of, state_of};
ghost use Rattle.ld_book.specs.Documents.{ArePages};

use ld_flight::Tower;
use ld_history::{Limits, State};
use ld_rec::Doc;
use ld_store::Snapshot;
use ld_tree::NoMemory;
use std::alloc::Global;
use std::marker::Model;
use std::sync::Arc;

/// The history of a context store under limits, each entry of which is allowed after those before it, with the documents
/// that came into the store. Contracts see the limits and the entries, each Published with its document.
#[derive(Debug, Drop)]
pub struct Book {
    pub(crate) state: State,
    pub(crate) tower: Tower,
    /// What is stored now.
    pub(crate) snapshot: Arc<Snapshot>,
    /// Each document that came into the store, in order.
    pub(crate) documents: Vec<Arc<Doc>>,
}

impl Model for Book {
    ghost use Rattle.std.specs.Arc.{arc_value};
    ghost use Rattle.std.specs.Coded.{codes};
    ghost use Rattle.ld_rec.specs.contracts.doc.Doc as docs;
    ghost use Rattle.ld_book.specs.Pages.{Booked};
    ghost use Rattle.ld_book.specs.Kept.{IsBook, booked, values_in};

    ghost Value = { Booked };

    ghost coded = { Prim.hlevel (codes, docs.the_row.coded) };

    ghost view = { λ b. booked b.state (values_in b.documents.items) };

    ghost invariant = { λ b. IsBook b.state b.tower (arc_value b.snapshot) (values_in b.documents.items) };
}

impl Book {
    /// The book of the empty history under these limits.
    pub fn new(alloc: Global, limits: Limits) -> Result<Book, NoMemory>
        requires { AreWithin limits }
        ensures { IfOk result (λ book. book ≡ record { limits = limits; pages = [] }) }
    {
        let state = State::new(alloc, limits)?;
        let snapshot = Arc::new(alloc, Snapshot::new(alloc))?;
        Ok(Book {
            state,
            tower: Tower::new(),
            snapshot,
            documents: Vec::new(alloc),
        })
    }

    /// How many entries the history has. It is legal: the rules allow each entry after those before it. And each document
    /// is that of the answer which the entry tells.
    pub fn events(&self) -> u64
        ensures count { result ≡ length self.now.pages }
        ensures within { AreWithin self.now.limits }
        ensures legal { Legal self.now.limits (entries_of self.now.pages) }
        ensures documents { ArePages self.now.pages }
    {
        self.state.events()
    }

    /// The history, which tells what may come next.
    pub fn history(&self) -> &State
        ensures { result.now ≡ history_of self.now }
    {
        &self.state
    }

    /// The number of the current version.
    pub fn version(&self) -> u64
        ensures { result ≡ (state_of self.now).version }
    {
        self.state.version()
    }
}
