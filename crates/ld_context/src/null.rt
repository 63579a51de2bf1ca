ghost use Rattle.std.specs.Prelude.{◌≡◌, Bool, length, nat_le, slice_get, option_map, map, IfOk};
ghost use Rattle.std.specs.List.{list_any};
ghost use Rattle.ld_tree.specs.declared.tree.Tree.{out-Tree};
ghost use Rattle.ld_ctx.specs.Flat.{flat};
ghost use Rattle.ld_rec.specs.Records.{has_protected, is_protected};
ghost use Rattle.ld_rec.specs.Processing.{anew, begun, is_propagated, nullified};
ghost use Rattle.ld_context.specs.Calls.{Makes};

use crate::inputs::copy_iri;
use ld_codes::{Code, Own};
use ld_ctx::{Ctx, View};
use ld_rec::Stop;
use ld_tree::{Iri, NoMemory, Tree};
use std::alloc::Global;

/// Step 2: whether the new context is propagated.
pub fn is_propagated(propagate: bool, local: &Tree) -> bool
    ensures { result ≡ is_propagated propagate (out-Tree local.now) }
{
    match local {
        Tree::Map(entries) => match entries.get("@propagate") {
            Some(Tree::Bool(own)) => *own,
            _ => propagate,
        },
        _ => propagate,
    }
}

/// The original base URL of the context.
pub fn first_base_of(alloc: Global, ctx: &Ctx) -> Result<Option<Iri>, NoMemory>
    ensures { IfOk result (λ base. base ≡ (flat ctx.now).own.first_base) }
{
    copy_iri(alloc, &ctx.first_base)
}

/// Step 3: a context that isn't propagated has a previous context.
pub fn begun(alloc: Global, propagate: bool, ctx: Ctx) -> Result<Ctx, NoMemory>
    ensures { IfOk result (λ made. flat made ≡ begun propagate (flat ctx)) }
{
    if propagate {
        return Ok(ctx);
    }
    match &ctx.previous {
        Some(_) => Ok(ctx),
        None => {
            let copy = ctx.try_copy(alloc)?;
            let mut made = ctx;
            made.previous = Some(Box::new(alloc, copy)?);
            Ok(made)
        }
    }
}

// Whether the definition at the place is protected, where there is one.
fn protected_at(ctx: &Ctx, place: usize) -> Option<bool>
    ensures { result ≡ option_map is_protected (slice_get (flat ctx.now).own.terms.0 place) }
{
    match ctx.term_at(place) {
        None => None,
        Some(term) => match ctx.def(term) {
            None => None,
            Some(def) => Some(def.protected),
        },
    }
}

// Whether each definition is protected, in the order of their terms.
fn protections(alloc: Global, ctx: &Ctx) -> Result<Vec<bool>, NoMemory>
    ensures { IfOk result (λ all. all.items ≡ map is_protected (flat ctx.now).own.terms.0) }
{
    let mut all = Vec::new(alloc);
    while let Some(protected) = protected_at(ctx, all.len()) {
        all.push(protected)?;
    }
    Ok(all)
}

fn any_of(flags: &[bool]) -> bool
    ensures { result ≡ list_any (λ flag. flag) flags.now }
{
    flags.iter().any(|flag| *flag)
}

// Whether a definition is protected.
fn has_protected(alloc: Global, ctx: &Ctx) -> Result<bool, NoMemory>
    ensures { IfOk result (λ any. any ≡ has_protected (flat ctx.now)) }
{
    let all = protections(alloc, ctx)?;
    Ok(any_of(all.as_slice()))
}

// Whether there are no more than so many previous contexts behind one another.
fn is_within(ctx: &Ctx, limit: u32) -> bool
    ensures { result ≡ nat_le (length (flat ctx.now).before) limit }
{
    match &ctx.previous {
        None => true,
        Some(_) if limit == 0 => false,
        Some(previous) => is_within(previous, limit - 1),
    }
}

// Step 5.1.2.
fn anew(alloc: Global, first_base: &Option<Iri>, propagate: bool, ctx: Ctx) -> Result<Ctx, NoMemory>
    ensures { IfOk result (λ made. flat made ≡ anew first_base.now propagate (flat ctx)) }
{
    let base = match first_base {
        Some(base) => Some(base.as_str()),
        None => None,
    };
    let mut made = Ctx::fresh(alloc, base)?;
    if !propagate {
        made.previous = Some(Box::new(alloc, ctx)?);
    }
    Ok(made)
}

/// Step 5.1: null makes a fresh context for the original base URL.
pub fn nullified(
    alloc: Global,
    first_base: &Option<Iri>,
    over: bool,
    propagate: bool,
    ctx: Ctx,
) -> Result<Ctx, Stop>
    ensures { Makes result (nullified first_base.now over propagate (flat ctx)) }
{
    // its terms are gone over by place, and as a previous context it isn't changed again
    let former = ctx.settled(alloc)?;
    if !over && has_protected(alloc, &former)? {
        return Err(Stop::Code(Code::InvalidContextNullification));
    }
    let made = anew(alloc, first_base, propagate, former)?;
    if is_within(&made, 32) {
        Ok(made)
    } else {
        Err(Stop::Own(Own::NestingLimit))
    }
}
