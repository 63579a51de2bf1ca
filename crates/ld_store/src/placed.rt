ghost use Rattle.std.specs.Prelude.{◌≡◌, IfOk};

use ld_rec::Doc;
use ld_tree::NoMemory;
use std::marker::Model;
use std::sync::Arc;

/// A document that is stored, which others may keep too.
#[derive(Debug, Drop)]
pub struct Placed {
    pub doc: Arc<Doc>,
    /// The number of the flight that brought it.
    pub flight: u32,
    /// The version that published it.
    pub version: u64,
}

impl Model for Placed {
    ghost use Rattle.std.specs.Arc.{arc_value};
    ghost use Rattle.ld_store.specs.Snapshots.{Standing};
    ghost use Rattle.std.specs.Coded.{codes};
    ghost use Rattle.ld_rec.specs.contracts.doc.Doc as docs;

    ghost Value = { Standing };

    ghost coded = { Prim.hlevel (codes, docs.the_row.coded) };

    ghost view = { λ p. record { doc = arc_value p.doc; flight = p.flight; version = p.version } };
}

impl Placed {
    /// The same document, shared.
    pub fn share(&self) -> Result<Placed, NoMemory>
        ensures { IfOk result (λ p. p ≡ self.now) }
    {
        Ok(Placed {
            doc: Arc::try_clone(&self.doc)?,
            flight: self.flight,
            version: self.version,
        })
    }
}
