//! The contexts of a node's types (JSON-LD 1.1 API, 6.1.2, 11).
ghost use Rattle.std.specs.Prelude.{◌≡◌, ◌++◌, ◌∷◌, [], IfOk, OnOk, option_copied};
ghost use Rattle.ld_rec.specs.Iris.{or_else};
ghost use Rattle.ld_rec.specs.Outcome.{each};
ghost use Rattle.ld_rec.specs.Promises.{KeepsContext};
ghost use Rattle.ld_compact.specs.Compaction.{with_types, with_type, in_order};
ghost use Rattle.ld_compact.specs.Steps.{AnswersAs, Keeps};

use crate::contexts::apply_scoped;
use crate::place::def_of;
use ld_ctx::{Contexts, Stop};
use ld_tree::{NoMemory, Text};
use std::alloc::Global;

/// The context with those of the types applied to it. They are looked up in the context as it came, and taken in
/// the order of code points.
pub fn apply_types<W: Contexts>(
    alloc: Global,
    work: &mut W,
    entry: &W::Kept,
    view: &W::Kept,
    types: &[Text],
) -> Result<Option<W::Kept>, Stop>
    requires entry { KeepsContext (W.Kept.flat entry.now) }
    requires gave { W.gave work.old view.now }
    requires promises { KeepsContext (W.Kept.flat view.now) }
    ensures answer { AnswersAs (λ made. W.Kept.flat (or_else made view.now)) (W.stock work.old) result (with_types (W.Kept.flat entry.now) types.now (W.Kept.flat view.now)) }
    ensures gave { IfOk result (λ made. W.gave work.new (or_else made view.now)) }
    ensures promises { IfOk result (λ made. KeepsContext (W.Kept.flat (or_else made view.now))) }
    ensures keeps { Keeps W.stock W.gave work.old work.new }
{
    let sorted = sorted(alloc, types)?;
    apply_each(alloc, work, entry, view, sorted.as_slice())
}

#[tactic(auto, using(crate::proofs::Stages::stages))]
fn apply_each<W: Contexts>(
    alloc: Global,
    work: &mut W,
    entry: &W::Kept,
    view: &W::Kept,
    texts: &[Text],
) -> Result<Option<W::Kept>, Stop>
    requires entry { KeepsContext (W.Kept.flat entry.now) }
    requires gave { W.gave work.old view.now }
    requires promises { KeepsContext (W.Kept.flat view.now) }
    ensures answer { AnswersAs (λ made. W.Kept.flat (or_else made view.now)) (W.stock work.old) result (each (with_type (W.Kept.flat entry.now)) texts.now (W.Kept.flat view.now)) }
    ensures gave { IfOk result (λ made. W.gave work.new (or_else made view.now)) }
    ensures promises { IfOk result (λ made. KeepsContext (W.Kept.flat (or_else made view.now))) }
    ensures keeps { Keeps W.stock W.gave work.old work.new }
{
    let mut made = None;
    for text in texts {
        made = apply_type(alloc, work, entry, view, made, text.as_str())?;
    }
    Ok(made)
}

fn active<'a, K>(made: &'a Option<K>, view: &'a K) -> &'a K
    ensures { result.now ≡ or_else made.now view.now }
{
    match made {
        Some(kept) => kept,
        None => view,
    }
}

fn apply_type<W: Contexts>(
    alloc: Global,
    work: &mut W,
    entry: &W::Kept,
    view: &W::Kept,
    made: Option<W::Kept>,
    text: &str,
) -> Result<Option<W::Kept>, Stop>
    requires entry { KeepsContext (W.Kept.flat entry.now) }
    requires gave { W.gave work.old (or_else made view.now) }
    requires promises { KeepsContext (W.Kept.flat (or_else made view.now)) }
    ensures answer { AnswersAs (λ m. W.Kept.flat (or_else m view.now)) (W.stock work.old) result (with_type (W.Kept.flat entry.now) text.now (W.Kept.flat (or_else made view.now))) }
    ensures gave { IfOk result (λ m. W.gave work.new (or_else m view.now)) }
    ensures promises { IfOk result (λ m. KeepsContext (W.Kept.flat (or_else m view.now))) }
    ensures keeps { Keeps W.stock W.gave work.old work.new }
{
    let def = def_of(entry, text);
    match apply_scoped(alloc, work, active(&made, view), def, false, false)? {
        Some(changed) => Ok(Some(changed)),
        None => Ok(made),
    }
}

// The texts in the order of code points, each as often as it is there.
fn sorted(alloc: Global, types: &[Text]) -> Result<Vec<Text>, NoMemory>
    ensures { IfOk result (λ texts. texts.items ≡ in_order types.now) }
{
    let mut texts = copied(alloc, types)?;
    texts.sort()?;
    Ok(texts)
}

fn copied(alloc: Global, types: &[Text]) -> Result<Vec<Text>, NoMemory>
    ensures { IfOk result (λ texts. texts.items ≡ types.now) }
{
    let mut texts = Vec::with_capacity(alloc, types.len())?;
    for text in types {
        texts.push(text.try_copy(alloc)?)?;
    }
    Ok(texts)
}
