ghost use Rattle.std.specs.Prelude.{◌≡◌, IfOk};

use ld_ctx::{Ctx, Names};
use ld_tree::{Iri, Items, NoMemory};
use std::alloc::Global;

/// The inputs of an invocation (JSON-LD 1.1 API, 4.1.2), but for its contexts and its remote contexts.
#[derive(Debug, Drop)]
pub struct Inputs {
    /// The base URL.
    pub base: Option<Iri>,
    /// Override protected.
    pub over: bool,
    pub propagate: bool,
    /// Validate scoped context.
    pub validate: bool,
    /// How deep the invocation is within others.
    pub depth: u32,
}

/// What each item of a local context is processed with.
#[derive(Debug, Drop)]
pub struct Call {
    /// The original base URL of the active context.
    pub first_base: Option<Iri>,
    /// With the local context's own `@propagate`.
    pub inputs: Inputs,
}

/// How far the items of a local context have come.
#[derive(Debug, Drop)]
pub struct Progress {
    /// The context so far.
    pub ctx: Ctx,
    /// The remote contexts.
    pub remote: Names,
}

/// An equal IRI, where there is one.
pub fn copy_iri(alloc: Global, iri: &Option<Iri>) -> Result<Option<Iri>, NoMemory>
    ensures { IfOk result (λ copy. copy ≡ iri.now) }
{
    match iri {
        Some(iri) => Ok(Some(iri.try_copy(alloc)?)),
        None => Ok(None),
    }
}

/// Equal names.
pub fn copy_names(alloc: Global, names: &Names) -> Result<Names, NoMemory>
    ensures { IfOk result (λ copy. copy ≡ names.now) }
{
    let mut copied = Vec::with_capacity(alloc, names.as_slice().len())?;
    for name in names.as_slice() {
        copied.push(name.try_copy(alloc)?)?;
    }
    Ok(Items::from_vec(copied))
}
