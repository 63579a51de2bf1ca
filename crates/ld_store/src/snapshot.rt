ghost use Rattle.std.specs.Prelude.{◌≡◌, IfOk, option_copied, option_map, map};
ghost use Rattle.ld_ctx.specs.Stocks.{shared_entries};
ghost use Rattle.ld_tree.specs.formers.entries.Entries.{on_value};
ghost use Rattle.ld_tree.specs.Maps.{find};
ghost use Rattle.ld_store.specs.Snapshots.{doc_of, evicted, nothing, published, stock_at};

use crate::placed::Placed;
use ld_ctx::Stock;
use ld_rec::Doc;
use ld_tree::{Entries, Iri, NoMemory};
use std::alloc::Global;
use std::marker::Model;
use std::sync::Arc;

/// What is stored at one version: a document for each IRI, in the order of the IRIs. It never changes. The next version's
/// snapshot is another one, which shares the documents.
#[derive(Debug, Drop)]
pub struct Snapshot {
    version: u64,
    placed: Entries<Placed>,
}

impl Model for Snapshot {
    ghost use Rattle.ld_store.specs.Snapshots.{Shot, shot_code};
    ghost use Rattle.ld_store.specs.contracts.placed.Placed as standing;

    ghost Value = { Shot };

    ghost coded = { shot_code standing.the_row.coded };

    ghost view = { λ s. record { version = s.version; placed = s.placed } };
}

impl Snapshot {
    /// Version 0, with nothing stored. Takes no memory.
    pub fn new(alloc: Global) -> Snapshot
        ensures { result ≡ nothing }
    {
        Snapshot {
            version: 0,
            placed: Entries::new(alloc),
        }
    }

    /// The number of the version.
    pub fn version(&self) -> u64
        ensures { result ≡ self.now.version }
    {
        self.version
    }

    /// The document of the IRI, in time logarithmic in how many are stored. Takes no memory.
    pub fn get(&self, iri: &str) -> Option<&Doc>
        ensures { option_copied result ≡ option_map doc_of (find self.now.placed iri.now) }
    {
        match self.placed.get(iri) {
            Some(placed) => Some(&*placed.doc),
            None => None,
        }
    }

    /// What is stored, in the order of the IRIs.
    pub fn placed(&self) -> &[(Iri, Placed)]
        ensures { result.now ≡ self.now.placed.0 }
    {
        self.placed.as_slice()
    }

    /// The documents alone, shared. Takes time near linear in how many are stored.
    pub fn stock(&self, alloc: Global) -> Result<Stock, NoMemory>
        ensures { IfOk result (λ stock. stock ≡ stock_at self.now) }
    {
        Stock::of_shared(alloc, shared(alloc, &self.placed)?)
    }

    /// The snapshot once a flight's document is published for the IRI, in place of one that is there.
    pub fn published(&self, alloc: Global, iri: &Iri, placed: Placed) -> Result<Snapshot, NoMemory>
        ensures { IfOk result (λ s. s ≡ published self.now iri.now placed) }
    {
        let version = placed.version;
        let mut entries = copied(alloc, &self.placed)?;
        match entries.put(iri.try_copy(alloc)?, placed) {
            Ok(_) => Ok(Snapshot {
                version,
                placed: entries,
            }),
            Err((_, _, e)) => Err(e),
        }
    }

    /// The snapshot once the IRI's document is evicted.
    pub fn evicted(&self, alloc: Global, iri: &str, version: u64) -> Result<Snapshot, NoMemory>
        ensures { IfOk result (λ s. s ≡ evicted self.now iri.now version) }
    {
        let mut entries = copied(alloc, &self.placed)?;
        let _former = entries.take_out(iri);
        Ok(Snapshot {
            version,
            placed: entries,
        })
    }
}

// Room for one more is taken too.
fn copied(alloc: Global, placed: &Entries<Placed>) -> Result<Entries<Placed>, NoMemory>
    ensures { IfOk result (λ copy. copy ≡ placed.now) }
{
    let mut entries = Vec::new(alloc);
    for (iri, standing) in placed.as_slice() {
        entries.push((iri.try_copy(alloc)?, standing.share()?))?;
    }
    Ok(Entries::from_sorted(entries))
}

fn shared(alloc: Global, placed: &Entries<Placed>) -> Result<Vec<(Iri, Arc<Doc>)>, NoMemory>
    ensures { IfOk result (λ docs. shared_entries docs.items ≡ map (on_value doc_of) placed.now.0) }
{
    let entries = placed.as_slice();
    let mut docs = Vec::with_capacity(alloc, entries.len())?;
    for (iri, standing) in entries {
        docs.push((iri.try_copy(alloc)?, Arc::try_clone(&standing.doc)?))?;
    }
    Ok(docs)
}
