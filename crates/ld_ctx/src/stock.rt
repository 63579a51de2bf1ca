ghost use Rattle.std.specs.Prelude.{◌≡◌, IfOk, option_copied};
ghost use Rattle.ld_tree.specs.Maps.{find};
ghost use Rattle.ld_ctx.specs.Stocks.{stock_of, shared_entries};

use ld_rec::Doc;
use ld_tree::{Entries, Iri, NameMap, NoMemory};
use std::alloc::Global;
use std::marker::Model;
use std::sync::Arc;

/// Documents by the IRI that asks for them, each shared with whoever else keeps it.
#[derive(Debug, Drop)]
pub struct Stock {
    docs: Entries<Arc<Doc>>,
}

impl Model for Stock {
    ghost use Rattle.ld_tree.specs.Names.{Sorted, sorted_code};
    ghost use Rattle.ld_rec.specs.declared.doc.Doc.{Doc};
    ghost use Rattle.ld_ctx.specs.Shares.{values_of_shared};
    ghost use Rattle.ld_rec.specs.contracts.doc.Doc as doc;

    ghost Value = { Sorted Doc };

    ghost coded = { sorted_code doc.the_row.coded };

    ghost view = { λ s. values_of_shared s.docs };
}

impl Stock {
    /// The stock of these documents. Where an IRI comes twice, its last document counts.
    pub fn of(alloc: Global, entries: Vec<(Iri, Doc)>) -> Result<Stock, NoMemory>
        ensures { IfOk result (λ stock. stock ≡ stock_of entries.items) }
    {
        let mut shared = Vec::with_capacity(alloc, entries.len())?;
        for (iri, doc) in entries {
            shared.push((iri, Arc::new(alloc, doc)?))?;
        }
        Stock::of_shared(alloc, shared)
    }

    /// The same of documents that others keep too.
    pub fn of_shared(alloc: Global, entries: Vec<(Iri, Arc<Doc>)>) -> Result<Stock, NoMemory>
        ensures { IfOk result (λ stock. stock ≡ stock_of (shared_entries entries.items)) }
    {
        let mut docs = NameMap::new(alloc);
        for (iri, doc) in entries {
            match docs.put(iri, doc) {
                Ok(_) => {}
                Err((_, _, e)) => return Err(e),
            }
        }
        match docs.into_entries(alloc) {
            Ok(docs) => Ok(Stock { docs }),
            Err((_, e)) => Err(e),
        }
    }

    /// The document of the IRI, in time logarithmic in the number of documents.
    pub fn get(&self, iri: &str) -> Option<&Doc>
        ensures { option_copied result ≡ find self.now iri.now }
    {
        match self.docs.get(iri) {
            Some(doc) => Some(&**doc),
            None => None,
        }
    }
}
