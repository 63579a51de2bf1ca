ghost use Rattle.std.specs.Prelude.{◌≡◌, true};
ghost use Rattle.std.specs.Option.{ForSome};
ghost use Rattle.ld_iri.specs.Words.{is_iri};

use ld_tree::{Iri, Tree};

/// A document, with what is asked for it.
#[derive(Debug, Drop)]
pub struct Envelope {
    pub document: Tree,
    /// What to compact with; there for compaction alone.
    pub context: Option<Tree>,
    /// The base IRI of the document.
    pub base: Option<Iri>,
    /// Whether an array of one item is compacted to the item (JSON-LD 1.1 API, 9.3, `compactArrays`).
    pub arrays: bool,
    pub ghost is_base: { ForSome base (λ text. is_iri text ≡ true) },
}
