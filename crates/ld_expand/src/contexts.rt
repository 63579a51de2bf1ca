//! The contexts of an element (JSON-LD 1.1 API, 5.1.2, 4.2, 7 to 9 and 13.8.3). Where a call gives `None`, the
//! context is the one at hand: none is copied but what is asked to be processed.
ghost use Rattle.std.specs.Prelude.{◌≡◌, IfOk, option_copied, codes};
ghost use Rattle.std.specs.List.{list_any};
ghost use Rattle.std.specs.Map.{keys_of};
ghost use Rattle.ld_ctx.specs.Asks.{asked};
ghost use Rattle.ld_rec.specs.Iris.{or_else};
ghost use Rattle.ld_rec.specs.Places.{ask_for as ask_of, with_local, with_scoped, means as is_meant};
ghost use Rattle.ld_rec.specs.Expansion.{reverted as revert, keeps_context as has_context, is_id_alone as is_alone_id, previous_or_same as before, map_context, with_key_type};
ghost use Rattle.ld_expand.specs.Steps.{AnswersAs, Keeps};

use ld_ctx::{Ask, Containers, Contexts, Def, Names, Stop, View, means};
use ld_rec::Way;
use ld_tree::{Entries, NoMemory, Text, Tree};
use std::alloc::Global;

/// The context that was made, or else the one at hand.
pub fn active<'a, K>(made: &'a Option<K>, view: &'a K) -> &'a K
    ensures { result.now ≡ or_else made.now view.now }
{
    match made {
        Some(kept) => kept,
        None => view,
    }
}

/// The context with a local context applied to it, where there is one. `over` is override protected.
pub fn apply<C: Contexts>(
    alloc: Global,
    contexts: &mut C,
    view: &C::Kept,
    local: Option<&Tree>,
    base: Option<&str>,
    over: bool,
    propagate: bool,
) -> Result<Option<C::Kept>, Stop>
    requires { C.gave contexts.old view.now }
    ensures answer { AnswersAs (λ made. C.Kept.flat (or_else made view.now)) (C.stock contexts.old) result (with_local (option_copied local.entry) (option_copied base.entry) over propagate (C.Kept.flat view.now)) }
    ensures gave { IfOk result (λ made. C.gave contexts.new (or_else made view.now)) }
    ensures keeps { Keeps C.stock C.gave contexts.old contexts.new }
{
    match local {
        Some(local) => {
            let ask = ask_for(alloc, view, local, base, over, propagate)?;
            Ok(Some(contexts.context(alloc, ask)?))
        }
        None => Ok(None),
    }
}

fn ask_for<K: View>(
    alloc: Global,
    view: &K,
    local: &Tree,
    base: Option<&str>,
    over: bool,
    propagate: bool,
) -> Result<Ask<K>, NoMemory>
    ensures ask { IfOk result (λ ask. asked K.flat ask ≡ ask_of (K.flat view.now) local.now (option_copied base.entry) over propagate) }
    ensures copy { IfOk result (λ ask. K.IsCopy view.now ask.active) }
{
    let active = view.try_copy(alloc)?;
    Ok(Ask {
        active,
        local: local.try_copy(alloc)?,
        base: copied(alloc, base)?,
        remote: Names::new(alloc),
        over,
        propagate,
        validate: true,
        depth: 1,
    })
}

fn copied(alloc: Global, text: Option<&str>) -> Result<Option<Text>, NoMemory>
    ensures { IfOk result (λ copy. copy ≡ option_copied text.entry) }
{
    match text {
        Some(text) => Ok(Some(Text::from_str(alloc, text)?)),
        None => Ok(None),
    }
}

/// The context with the definition's own local context applied to it, where it has one.
pub fn apply_scoped<C: Contexts>(
    alloc: Global,
    contexts: &mut C,
    view: &C::Kept,
    def: Option<&Def>,
    over: bool,
    propagate: bool,
) -> Result<Option<C::Kept>, Stop>
    requires { C.gave contexts.old view.now }
    ensures answer { AnswersAs (λ made. C.Kept.flat (or_else made view.now)) (C.stock contexts.old) result (with_scoped (option_copied def.entry) over propagate (C.Kept.flat view.now)) }
    ensures gave { IfOk result (λ made. C.gave contexts.new (or_else made view.now)) }
    ensures keeps { Keeps C.stock C.gave contexts.old contexts.new }
{
    match def {
        Some(def) => {
            let base = str_of(&def.scoped_base);
            apply(
                alloc,
                contexts,
                view,
                def.scoped.as_ref(),
                base,
                over,
                propagate,
            )
        }
        None => Ok(None),
    }
}

fn str_of(text: &Option<Text>) -> Option<&str>
    ensures { option_copied result ≡ text.now }
{
    match text {
        Some(text) => Some(text.as_str()),
        None => None,
    }
}

/// The previous context, or the context where it has none.
pub fn previous_or_same<'a, C: Contexts>(contexts: &C, view: &'a C::Kept) -> &'a C::Kept
    requires { C.gave contexts.now view.now }
    ensures value { C.Kept.flat result.now ≡ before (C.Kept.flat view.now) }
    ensures gave { C.gave contexts.now result.now }
{
    match view.previous() {
        Some(previous) => previous,
        None => view,
    }
}

/// The previous context comes back at a map, but for the value of a container's map, a value object, and an `@id`
/// alone (5.1.2, 7).
pub fn reverted<'a, C: Contexts>(
    alloc: Global,
    contexts: &C,
    view: &'a C::Kept,
    way: Way,
    entries: &Entries<Tree>,
) -> Result<&'a C::Kept, NoMemory>
    requires { C.gave contexts.now view.now }
    ensures value { IfOk result (λ before. C.Kept.flat before.now ≡ revert (C.Kept.flat view.now) way (keys_of entries.now.0)) }
    ensures gave { IfOk result (λ before. C.gave contexts.now before.now) }
{
    if view.previous().is_none() {
        return Ok(view);
    }
    if keeps_context(alloc, view, way, entries)? {
        Ok(view)
    } else {
        Ok(previous_or_same(contexts, view))
    }
}

fn keeps_context<K: View>(
    alloc: Global,
    view: &K,
    way: Way,
    entries: &Entries<Tree>,
) -> Result<bool, NoMemory>
    ensures { IfOk result (λ is. is ≡ has_context (K.flat view.now) way (keys_of entries.now.0)) }
{
    if !matches!(way, Way::Plain) {
        return Ok(true);
    }
    if has_value(alloc, view, entries)? {
        return Ok(true);
    }
    is_id_alone(alloc, view, entries)
}

fn has_value<K: View>(alloc: Global, view: &K, entries: &Entries<Tree>) -> Result<bool, NoMemory>
    ensures { IfOk result (λ is. is ≡ list_any (is_meant (K.flat view.now) (codes "@value")) (keys_of entries.now.0)) }
{
    for (name, _) in entries.as_slice() {
        if means(alloc, view, "@value", name.as_str())? {
            return Ok(true);
        }
    }
    Ok(false)
}

fn is_id_alone<K: View>(alloc: Global, view: &K, entries: &Entries<Tree>) -> Result<bool, NoMemory>
    ensures { IfOk result (λ is. is ≡ is_alone_id (K.flat view.now) (keys_of entries.now.0)) }
{
    match entries.as_slice() {
        [(name, _)] => means(alloc, view, "@id", name.as_str()),
        _ => Ok(false),
    }
}

/// The context of the values of a container's map (13.8.3.1): the previous one in a container `@id` or `@type`.
pub fn map_view<'a, C: Contexts>(
    contexts: &C,
    view: &'a C::Kept,
    containers: &Containers,
) -> &'a C::Kept
    requires { C.gave contexts.now view.now }
    ensures value { C.Kept.flat result.now ≡ map_context containers.now (C.Kept.flat view.now) }
    ensures gave { C.gave contexts.now result.now }
{
    if containers.id || containers.types {
        previous_or_same(contexts, view)
    } else {
        view
    }
}

/// That context with the one of a key's type applied to it, in a container `@type` (13.8.3.2).
pub fn apply_key_type<C: Contexts>(
    alloc: Global,
    contexts: &mut C,
    view: &C::Kept,
    containers: &Containers,
    key: &str,
) -> Result<Option<C::Kept>, Stop>
    requires { C.gave contexts.old view.now }
    ensures answer { AnswersAs (λ made. C.Kept.flat (or_else made view.now)) (C.stock contexts.old) result (with_key_type containers.now key.now (C.Kept.flat view.now)) }
    ensures gave { IfOk result (λ made. C.gave contexts.new (or_else made view.now)) }
    ensures keeps { Keeps C.stock C.gave contexts.old contexts.new }
{
    if containers.types {
        apply_scoped(alloc, contexts, view, view.def(key), false, false)
    } else {
        Ok(None)
    }
}
