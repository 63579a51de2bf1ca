ghost use Rattle.std.specs.Prelude.{◌≡◌, IfOk};

use ld_rec::Def;
use ld_tree::{Entries, NoMemory, Text, Tree};
use std::alloc::Global;

/// A term definition on the way, as far as it has come.
#[derive(Debug, Drop)]
pub struct Task {
    pub term: Text,
    /// Whether the local context maps the term to a text.
    pub simple: bool,
    /// The definition that the term had.
    pub previous: Option<Def>,
    pub def: Def,
}

/// What a value is expanded for.
#[derive(Debug, Drop)]
pub enum Aim {
    /// The type mapping.
    Typed,
    /// The mapping of a reverse property.
    Backward,
    /// The mapping by `@id`.
    Named,
    /// The term itself, which has to mean this mapping.
    Means(Text),
}

/// What a half-made definition waits for.
#[derive(Debug, Drop)]
pub enum Wait {
    /// The value, as a term of the local context; its prefix may come after it.
    Value(Aim, Text),
    /// The value's prefix.
    Prefix(Aim, Text),
    /// The term's own prefix.
    Own,
}

/// A half-made definition.
#[derive(Debug, Drop)]
pub struct Half {
    pub task: Task,
    /// The term's map in the local context, or what stands for it.
    pub entries: Entries<Tree>,
    pub wait: Wait,
}

/// A definition that is made but for what follows its scoped context.
#[derive(Debug, Drop)]
pub struct Ready {
    pub task: Task,
    pub entries: Entries<Tree>,
    /// The local context that is to be checked.
    pub scoped: Tree,
}

/// How far a step has come.
#[derive(Debug, Drop)]
pub enum Step {
    /// The definition is put.
    Done,
    /// Another term is to be defined first.
    Need(Half, Text),
    /// A scoped context is to be checked.
    Check(Ready),
}

/// What is to be defined before a value is expanded.
#[derive(Debug, Drop)]
pub enum Before {
    Itself,
    Prefix(Text),
}

pub fn copy_entries(alloc: Global, entries: &Entries<Tree>) -> Result<Entries<Tree>, NoMemory>
    ensures { IfOk result (λ copy. copy ≡ entries.now) }
{
    let mut copied = Vec::with_capacity(alloc, entries.as_slice().len())?;
    for (name, value) in entries.as_slice() {
        copied.push((name.try_copy(alloc)?, value.try_copy(alloc)?))?;
    }
    Ok(Entries::from_sorted(copied))
}
