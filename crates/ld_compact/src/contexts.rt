//! The contexts of an element (JSON-LD 1.1 API, 6.1.2, 5, 6 and 11). Where a call gives `None`, the context is the one
//! at hand: none is copied but what is asked to be processed.
ghost use Rattle.std.specs.Prelude.{◌≡◌, IfOk, OnOk, option_copied, option_map};
ghost use Rattle.std.specs.Arc.{arc_value};
ghost use Rattle.ld_ctx.specs.Asks.{asked};
ghost use Rattle.ld_rec.specs.Iris.{or_else};
ghost use Rattle.ld_rec.specs.Promises.{IsBase, KeepsContext};
ghost use Rattle.ld_rec.specs.Places.{ask_for as ask_of, with_local, with_scoped};
ghost use Rattle.ld_rec.specs.Expansion.{previous_or_same as before};
ghost use Rattle.ld_compact.specs.Compaction.{reverted as revert, keeps_context as has_context};
ghost use Rattle.ld_compact.specs.Standing.{Stands, StandsMade, MayStand, Extends, IsDefKept, kept_in};
ghost use Rattle.ld_compact.specs.Steps.{AnswersAs, Keeps};

use crate::place::{Made, Place, under};
use ld_ctx::{Ask, Contexts, Def, Names, Stop, View};
use ld_inverse::{Inverse, Inverses};
use ld_tree::{NoMemory, Text, Tree};
use std::alloc::Global;
use std::sync::Arc;

/// The context with a local context applied to it. `over` is override protected.
pub fn apply<W: Contexts>(
    alloc: Global,
    work: &mut W,
    view: &W::Kept,
    local: &Tree,
    base: Option<&str>,
    over: bool,
    propagate: bool,
) -> Result<W::Kept, Stop>
    requires gave { W.gave work.old view.now }
    requires promises { KeepsContext (W.Kept.flat view.now) }
    requires base { IsBase (option_copied base) }
    ensures answer { AnswersAs W.Kept.flat (W.stock work.old) result (with_local (Some local.now) (option_copied base.entry) over propagate (W.Kept.flat view.now)) }
    ensures gave { IfOk result (W.gave work.new) }
    ensures promises { IfOk result (λ made. KeepsContext (W.Kept.flat made)) }
    ensures keeps { Keeps W.stock W.gave work.old work.new }
{
    let ask = ask_for(alloc, view, local, base, over, propagate)?;
    work.context(alloc, ask)
}

fn ask_for<K: View>(
    alloc: Global,
    view: &K,
    local: &Tree,
    base: Option<&str>,
    over: bool,
    propagate: bool,
) -> Result<Ask<K>, NoMemory>
    ensures ask { IfOk result (λ ask. asked K.flat ask ≡ ask_of (K.flat view.now) local.now (option_copied base.entry) over propagate) }
    ensures copy { IfOk result (λ ask. K.IsCopy view.now ask.active) }
{
    let active = view.try_copy(alloc)?;
    Ok(Ask {
        active,
        local: local.try_copy(alloc)?,
        base: copied(alloc, base)?,
        remote: Names::new(alloc),
        over,
        propagate,
        validate: true,
        depth: 1,
    })
}

fn copied(alloc: Global, text: Option<&str>) -> Result<Option<Text>, NoMemory>
    ensures { IfOk result (λ copy. copy ≡ option_copied text.entry) }
{
    match text {
        Some(text) => Ok(Some(Text::from_str(alloc, text)?)),
        None => Ok(None),
    }
}

fn str_of(text: &Option<Text>) -> Option<&str>
    ensures { option_copied result ≡ text.now }
{
    match text {
        Some(text) => Some(text.as_str()),
        None => None,
    }
}

/// The context with the definition's own local context applied to it, where it has one.
pub fn apply_scoped<W: Contexts>(
    alloc: Global,
    work: &mut W,
    view: &W::Kept,
    def: Option<&Def>,
    over: bool,
    propagate: bool,
) -> Result<Option<W::Kept>, Stop>
    requires gave { W.gave work.old view.now }
    requires promises { KeepsContext (W.Kept.flat view.now) }
    requires def { IsDefKept (option_copied def) }
    ensures answer { AnswersAs (λ made. W.Kept.flat (or_else made view.now)) (W.stock work.old) result (with_scoped (option_copied def.entry) over propagate (W.Kept.flat view.now)) }
    ensures gave { IfOk result (λ made. W.gave work.new (or_else made view.now)) }
    ensures promises { IfOk result (λ made. KeepsContext (W.Kept.flat (or_else made view.now))) }
    ensures keeps { Keeps W.stock W.gave work.old work.new }
{
    match def {
        Some(def) => match &def.scoped {
            Some(local) => {
                let base = str_of(&def.scoped_base);
                Ok(Some(apply(alloc, work, view, local, base, over, propagate)?))
            }
            None => Ok(None),
        },
        None => Ok(None),
    }
}

/// The context with its inverse, and those of its previous contexts.
pub fn ready<W: Inverses>(
    alloc: Global,
    work: &mut W,
    kept: W::Kept,
) -> Result<Made<W::Kept>, NoMemory>
    requires gave { W.gave work.old kept }
    requires promises { KeepsContext (W.Kept.flat kept) }
    ensures kept { IfOk result (λ made. made.kept ≡ kept) }
    ensures stands { IfOk result (StandsMade W.Kept.flat) }
    ensures keeps { Keeps W.stock W.gave work.old work.new }
{
    let inverse = work.inverse(alloc, &kept)?;
    let mut behind = Vec::new(alloc);
    push_behind(alloc, work, &kept, &mut behind)?;
    Ok(Made {
        kept,
        inverse,
        behind,
    })
}

fn push_behind<W: Inverses>(
    alloc: Global,
    work: &mut W,
    kept: &W::Kept,
    behind: &mut Vec<Arc<Inverse>>,
) -> Result<(), NoMemory>
    requires { W.gave work.old kept.now }
    ensures behind { OnOk result (Extends behind.old.items behind.new.items (W.Kept.flat kept.now).before) }
    ensures keeps { Keeps W.stock W.gave work.old work.new }
{
    match kept.previous() {
        Some(previous) => {
            let inverse = work.inverse(alloc, previous)?;
            behind.push(inverse)?;
            push_behind(alloc, work, previous, behind)
        }
        None => Ok(()),
    }
}

/// The same, where a context was made.
pub fn ready_if<W: Inverses>(
    alloc: Global,
    work: &mut W,
    made: Option<W::Kept>,
    view: &W::Kept,
) -> Result<Option<Made<W::Kept>>, NoMemory>
    requires gave { W.gave work.old (or_else made view.now) }
    requires promises { KeepsContext (W.Kept.flat (or_else made view.now)) }
    ensures kept { IfOk result (λ ready. option_map kept_in ready ≡ made) }
    ensures stands { IfOk result (MayStand W.Kept.flat) }
    ensures keeps { Keeps W.stock W.gave work.old work.new }
{
    match made {
        Some(kept) => Ok(Some(ready(alloc, work, kept)?)),
        None => Ok(None),
    }
}

/// The place in the previous context, or the same where it has none.
pub fn previous_or_same<'a, W: Inverses>(work: &W, place: &Place<'a, W::Kept>) -> Place<'a, W::Kept>
    requires gave { W.gave work.now place.now.view.now }
    requires stands { Stands W.Kept.flat place.now }
    ensures context { W.Kept.flat result.view.now ≡ before (W.Kept.flat place.now.view.now) }
    ensures gave { W.gave work.now result.view.now }
    ensures stands { Stands W.Kept.flat result }
    ensures property { option_copied result.property ≡ option_copied place.now.property }
    ensures arrays { result.arrays ≡ place.now.arrays }
{
    match (place.view.previous(), place.behind.split_first()) {
        (Some(view), Some((inverse, behind))) => Place {
            view,
            inverse: &**inverse,
            behind,
            property: place.property,
            arrays: place.arrays,
        },
        _ => under(place, place.property),
    }
}

/// The previous context comes back at a map, but for a value object and an `@id` alone.
pub fn reverted<'a, W: Inverses>(
    work: &W,
    place: &Place<'a, W::Kept>,
    element: &Tree,
) -> Place<'a, W::Kept>
    requires gave { W.gave work.now place.now.view.now }
    requires stands { Stands W.Kept.flat place.now }
    ensures context { W.Kept.flat result.view.now ≡ revert (W.Kept.flat place.now.view.now) element.now }
    ensures gave { W.gave work.now result.view.now }
    ensures stands { Stands W.Kept.flat result }
    ensures property { option_copied result.property ≡ option_copied place.now.property }
    ensures arrays { result.arrays ≡ place.now.arrays }
{
    if keeps_context(element) {
        under(place, place.property)
    } else {
        previous_or_same(work, place)
    }
}

fn keeps_context(element: &Tree) -> bool
    ensures { result ≡ has_context element.now }
{
    match element {
        Tree::Map(entries) => {
            entries.get("@value").is_some()
                || (entries.as_slice().len() == 1 && entries.get("@id").is_some())
        }
        _ => false,
    }
}
