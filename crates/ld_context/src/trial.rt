ghost use Rattle.std.specs.Prelude.{◌≡◌, IfOk, OnOk, option_copied, map, fold};
ghost use Rattle.ld_tree.specs.declared.tree.Tree.{out-Tree};
ghost use Rattle.ld_ctx.specs.Flat.{flat};
ghost use Rattle.ld_rec.specs.Records.{def_of, with_terms};
ghost use Rattle.ld_context.specs.Trials.{own_entries, former_entry, with_optional, with_former, undone};

use crate::inputs::copy_iri;
use crate::keywords::has;
use crate::null::is_propagated;
use ld_ctx::{Ctx, View};
use ld_rec::Def;
use ld_tree::{Entries, Iri, NoMemory, Text, Tree};
use std::alloc::Global;

/// What a scoped context that is a map may change of a context: fields of the context's own, and the definitions
/// under the map's names.
#[derive(Debug, Drop)]
pub struct Former {
    pub base: Option<Iri>,
    pub vocab: Option<Text>,
    pub language: Option<Text>,
    /// What stands under each of the map's names.
    pub defs: Vec<(Text, Option<Def>)>,
}

/// The entries of a scoped context that changes no more than a `Former` keeps: of a map without an import, that is
/// propagated.
pub fn own_entries(local: &Tree) -> Option<&Entries<Tree>>
    ensures { option_copied result ≡ own_entries (out-Tree local.now) }
{
    match local {
        Tree::Map(entries) => {
            if !has(entries, "@import") && is_propagated(true, local) {
                Some(entries)
            } else {
                None
            }
        }
        _ => None,
    }
}

fn copy_def(alloc: Global, def: Option<&Def>) -> Result<Option<Def>, NoMemory>
    ensures { IfOk result (λ copy. copy ≡ option_copied def.entry) }
{
    match def {
        Some(def) => Ok(Some(def.try_copy(alloc)?)),
        None => Ok(None),
    }
}

fn former_entry(
    alloc: Global,
    ctx: &Ctx,
    entry: &(Text, Tree),
) -> Result<(Text, Option<Def>), NoMemory>
    ensures { IfOk result (λ former. former ≡ former_entry (flat ctx.now) entry.now) }
{
    let name = entry.0.try_copy(alloc)?;
    let def = copy_def(alloc, ctx.def(entry.0.as_str()))?;
    Ok((name, def))
}

fn former_defs(
    alloc: Global,
    ctx: &Ctx,
    entries: &Entries<Tree>,
) -> Result<Vec<(Text, Option<Def>)>, NoMemory>
    ensures { IfOk result (λ defs. defs.items ≡ map (former_entry (flat ctx.now)) entries.now.0) }
{
    let mut defs = Vec::new(alloc);
    for entry in entries.as_slice() {
        defs.push(former_entry(alloc, ctx, entry)?)?;
    }
    Ok(defs)
}

/// What the entries may change of the context.
pub fn former_of(alloc: Global, ctx: &Ctx, entries: &Entries<Tree>) -> Result<Former, NoMemory>
    ensures base { IfOk result (λ former. former.base ≡ (flat ctx.now).own.base) }
    ensures vocab { IfOk result (λ former. former.vocab ≡ (flat ctx.now).own.vocab) }
    ensures language { IfOk result (λ former. former.language ≡ (flat ctx.now).own.language) }
    ensures defs { IfOk result (λ former. former.defs.items ≡ map (former_entry (flat ctx.now)) entries.now.0) }
{
    Ok(Former {
        base: copy_iri(alloc, &ctx.base)?,
        vocab: copy_iri(alloc, &ctx.vocab)?,
        language: copy_iri(alloc, &ctx.language)?,
        defs: former_defs(alloc, ctx, entries)?,
    })
}

// Puts the definition under the name, or takes out what stands there.
fn put_optional(ctx: &mut Ctx, name: Text, def: Option<Def>) -> Result<(), NoMemory>
    ensures { OnOk result (flat ctx.new ≡ with_terms (flat ctx.old) (with_optional (flat ctx.old).own.terms name def)) }
{
    match def {
        Some(def) => match ctx.put(name, def) {
            Ok(()) => Ok(()),
            Err((_, _, e)) => Err(e),
        },
        None => {
            let _ = ctx.take_out(name.as_str());
            Ok(())
        }
    }
}

fn with_defs(ctx: Ctx, defs: Vec<(Text, Option<Def>)>) -> Result<Ctx, NoMemory>
    ensures { IfOk result (λ made. flat made ≡ with_terms (flat ctx) (fold with_former (flat ctx).own.terms defs.items)) }
{
    let mut made = ctx;
    for (name, def) in defs {
        put_optional(&mut made, name, def)?;
    }
    Ok(made)
}

/// The context with what was kept of it.
pub fn undone(ctx: Ctx, former: Former) -> Result<Ctx, NoMemory>
    ensures { IfOk result (λ made. flat made ≡ undone former (flat ctx)) }
{
    let Former {
        base,
        vocab,
        language,
        defs,
    } = former;
    let mut made = with_defs(ctx, defs)?;
    made.base = base;
    made.vocab = vocab;
    made.language = language;
    Ok(made)
}
