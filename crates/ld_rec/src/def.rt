ghost use Rattle.std.specs.Prelude.{◌≡◌, IfOk};
ghost use Rattle.ld_rec.specs.Records.{same_iri, same_value, same_scope, same_def};

use ld_tree::{Iri, NoMemory, Text, Tree};
use std::alloc::Global;

/// A container mapping, as the set of its keywords (JSON-LD 1.1, 9.15). `types` stands for `@type`. The order
/// is keyword by keyword, and is of use to sort by alone.
#[derive(Clone, Copy, Debug, PartialEq, Eq, PartialOrd, Ord)]
pub struct Containers {
    pub graph: bool,
    pub id: bool,
    pub index: bool,
    pub language: bool,
    pub list: bool,
    pub set: bool,
    pub types: bool,
}

/// A term definition (JSON-LD 1.1 API, 4.2).
#[derive(Debug, Drop)]
pub struct Def {
    /// The IRI mapping: a keyword, an IRI or a blank node identifier. None is null, by which a term is
    /// kept and means nothing.
    pub mapping: Option<Text>,
    /// Whether the term may be the prefix of compact IRIs.
    pub prefix: bool,
    /// Whether the definition may not be changed by later contexts.
    pub protected: bool,
    /// Whether the term is a reverse property.
    pub reverse: bool,
    /// The type mapping: an IRI, `@id`, `@json`, `@none` or `@vocab`.
    pub typed: Option<Text>,
    /// The language mapping: absent, null, or a tag in lower case.
    pub language: Option<Option<Text>>,
    /// The direction mapping. No definition has one yet.
    pub direction: Option<Option<Text>>,
    pub containers: Containers,
    /// The local context that the definition brings, unprocessed.
    pub scoped: Option<Tree>,
    /// The base URL of that local context: where it came from.
    pub scoped_base: Option<Iri>,
}

impl Def {
    /// An equal definition, with memory of its own.
    pub fn try_copy(&self, alloc: Global) -> Result<Def, NoMemory>
        ensures { IfOk result (λ def. def ≡ self.now) }
    {
        Ok(Def {
            mapping: copy_text(alloc, &self.mapping)?,
            typed: copy_text(alloc, &self.typed)?,
            language: copy_nullable(alloc, &self.language)?,
            direction: copy_nullable(alloc, &self.direction)?,
            scoped: copy_tree(alloc, &self.scoped)?,
            scoped_base: copy_text(alloc, &self.scoped_base)?,
            prefix: self.prefix,
            protected: self.protected,
            reverse: self.reverse,
            containers: self.containers,
        })
    }

    /// Whether the two are the same in all but the protected flag (JSON-LD 1.1 API, 4.2.2, step 27.1).
    pub fn is_same(&self, other: &Def) -> bool
        ensures { result ≡ same_def self.now other.now }
    {
        same_iri(self, other)
            && same_value(self, other)
            && self.containers == other.containers
            && same_scope(self, other)
    }
}

fn same_iri(a: &Def, b: &Def) -> bool
    ensures { result ≡ same_iri a.now b.now }
{
    a.mapping == b.mapping && a.prefix == b.prefix && a.reverse == b.reverse
}

// Whether values get the same type, language and direction.
fn same_value(a: &Def, b: &Def) -> bool
    ensures { result ≡ same_value a.now b.now }
{
    a.typed == b.typed && a.language == b.language && a.direction == b.direction
}

fn same_scope(a: &Def, b: &Def) -> bool
    ensures { result ≡ same_scope a.now b.now }
{
    a.scoped == b.scoped && a.scoped_base == b.scoped_base
}

fn copy_text(alloc: Global, text: &Option<Text>) -> Result<Option<Text>, NoMemory>
    ensures { IfOk result (λ copy. copy ≡ text.now) }
{
    match text {
        Some(text) => Ok(Some(text.try_copy(alloc)?)),
        None => Ok(None),
    }
}

fn copy_nullable(
    alloc: Global,
    text: &Option<Option<Text>>,
) -> Result<Option<Option<Text>>, NoMemory>
    ensures { IfOk result (λ copy. copy ≡ text.now) }
{
    match text {
        Some(text) => Ok(Some(copy_text(alloc, text)?)),
        None => Ok(None),
    }
}

fn copy_tree(alloc: Global, tree: &Option<Tree>) -> Result<Option<Tree>, NoMemory>
    ensures { IfOk result (λ copy. copy ≡ tree.now) }
{
    match tree {
        Some(tree) => Ok(Some(tree.try_copy(alloc)?)),
        None => Ok(None),
    }
}
