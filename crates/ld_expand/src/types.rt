//! The types of a map, and their contexts (JSON-LD 1.1 API, 5.1.2, 11 and 12).
ghost use Rattle.std.specs.Prelude.{◌≡◌, IfOk, option_copied, option_and_then, filter_map};
ghost use Rattle.ld_rec.specs.Iris.{or_else};
ghost use Rattle.ld_rec.specs.Outcome.{each};
ghost use Rattle.ld_rec.specs.Places.{name_iri};
ghost use Rattle.ld_rec.specs.Words.{text_of, items_of as items_in_tree};
ghost use Rattle.ld_rec.specs.Expansion.{with_types, with_types_of, with_type, sorted_texts as texts_in_order, is_json, input_type, first_type_value as value_of_type, last_text};
ghost use Rattle.ld_expand.specs.Steps.{AnswersAs, Keeps};

use crate::contexts::{active, apply_scoped};
use crate::making::items_of;
use ld_ctx::{Contexts, Stop, View, means};
use ld_tree::{Entries, NoMemory, Text, Tree};
use std::alloc::Global;

/// The context with those of the map's types applied to it. They are looked up in the type-scoped context, and
/// taken in the order of their texts, of each name that expands to `@type`.
#[tactic(auto, using(crate::proofs::Stages::stages))]
pub fn apply_types<C: Contexts>(
    alloc: Global,
    contexts: &mut C,
    type_view: &C::Kept,
    entries: &Entries<Tree>,
) -> Result<Option<C::Kept>, Stop>
    requires { C.gave contexts.old type_view.now }
    ensures answer { AnswersAs (λ made. C.Kept.flat (or_else made type_view.now)) (C.stock contexts.old) result (with_types entries.now (C.Kept.flat type_view.now)) }
    ensures gave { IfOk result (λ made. C.gave contexts.new (or_else made type_view.now)) }
    ensures keeps { Keeps C.stock C.gave contexts.old contexts.new }
{
    let mut made = None;
    for (name, value) in entries.as_slice() {
        made = apply_types_of(alloc, contexts, type_view, made, name.as_str(), value)?;
    }
    Ok(made)
}

fn apply_types_of<C: Contexts>(
    alloc: Global,
    contexts: &mut C,
    type_view: &C::Kept,
    made: Option<C::Kept>,
    name: &str,
    value: &Tree,
) -> Result<Option<C::Kept>, Stop>
    requires start { C.gave contexts.old type_view.now }
    requires active { C.gave contexts.old (or_else made type_view.now) }
    ensures answer { AnswersAs (λ m. C.Kept.flat (or_else m type_view.now)) (C.stock contexts.old) result (with_types_of (C.Kept.flat type_view.now) (name.now, value.now) (C.Kept.flat (or_else made type_view.now))) }
    ensures gave { IfOk result (λ m. C.gave contexts.new (or_else m type_view.now)) }
    ensures keeps { Keeps C.stock C.gave contexts.old contexts.new }
{
    if !means(alloc, active(&made, type_view), "@type", name)? {
        return Ok(made);
    }
    let texts = sorted_texts(alloc, value)?;
    apply_each(alloc, contexts, type_view, made, texts.as_slice())
}

#[tactic(auto, using(crate::proofs::Stages::stages))]
fn apply_each<C: Contexts>(
    alloc: Global,
    contexts: &mut C,
    type_view: &C::Kept,
    made: Option<C::Kept>,
    texts: &[Text],
) -> Result<Option<C::Kept>, Stop>
    requires start { C.gave contexts.old type_view.now }
    requires active { C.gave contexts.old (or_else made type_view.now) }
    ensures answer { AnswersAs (λ m. C.Kept.flat (or_else m type_view.now)) (C.stock contexts.old) result (each (with_type (C.Kept.flat type_view.now)) texts.now (C.Kept.flat (or_else made type_view.now))) }
    ensures gave { IfOk result (λ m. C.gave contexts.new (or_else m type_view.now)) }
    ensures keeps { Keeps C.stock C.gave contexts.old contexts.new }
{
    let mut made = made;
    for text in texts {
        made = apply_type(alloc, contexts, type_view, made, text.as_str())?;
    }
    Ok(made)
}

fn apply_type<C: Contexts>(
    alloc: Global,
    contexts: &mut C,
    type_view: &C::Kept,
    made: Option<C::Kept>,
    text: &str,
) -> Result<Option<C::Kept>, Stop>
    requires start { C.gave contexts.old type_view.now }
    requires active { C.gave contexts.old (or_else made type_view.now) }
    ensures answer { AnswersAs (λ m. C.Kept.flat (or_else m type_view.now)) (C.stock contexts.old) result (with_type (C.Kept.flat type_view.now) text.now (C.Kept.flat (or_else made type_view.now))) }
    ensures gave { IfOk result (λ m. C.gave contexts.new (or_else m type_view.now)) }
    ensures keeps { Keeps C.stock C.gave contexts.old contexts.new }
{
    let def = type_view.def(text);
    match apply_scoped(alloc, contexts, active(&made, type_view), def, false, false)? {
        Some(changed) => Ok(Some(changed)),
        None => Ok(made),
    }
}

// The texts of the value in the order of code points, each as often as it is there.
fn sorted_texts(alloc: Global, value: &Tree) -> Result<Vec<Text>, NoMemory>
    ensures { IfOk result (λ texts. texts.items ≡ texts_in_order (items_in_tree value.now)) }
{
    let mut texts = texts_of(alloc, items_of(value))?;
    texts.sort()?;
    Ok(texts)
}

fn texts_of(alloc: Global, items: &[Tree]) -> Result<Vec<Text>, NoMemory>
    ensures { IfOk result (λ texts. texts.items ≡ filter_map text_of items.now) }
{
    let mut texts = Vec::new(alloc);
    for item in items {
        match item {
            Tree::Text(text) => texts.push(text.try_copy(alloc)?)?,
            _ => {}
        }
    }
    Ok(texts)
}

/// Whether the input type is `@json`: what the last value of the first name that expands to `@type` expands to.
pub fn has_json_type<K: View>(
    alloc: Global,
    view: &K,
    entries: &Entries<Tree>,
) -> Result<bool, NoMemory>
    ensures { IfOk result (λ is. is ≡ is_json (input_type (K.flat view.now) entries.now)) }
{
    match first_type_value(alloc, view, entries)? {
        Some(value) => is_json_value(alloc, view, value),
        None => Ok(false),
    }
}

fn first_type_value<'a, K: View>(
    alloc: Global,
    view: &K,
    entries: &'a Entries<Tree>,
) -> Result<Option<&'a Tree>, NoMemory>
    ensures { IfOk result (λ value. option_copied value ≡ value_of_type (K.flat view.now) entries.now.0) }
{
    for (name, value) in entries.as_slice() {
        if means(alloc, view, "@type", name.as_str())? {
            return Ok(Some(value));
        }
    }
    Ok(None)
}

fn is_json_value<K: View>(alloc: Global, view: &K, value: &Tree) -> Result<bool, NoMemory>
    ensures { IfOk result (λ is. is ≡ is_json (option_and_then (name_iri (K.flat view.now)) (last_text (items_in_tree value.now)))) }
{
    match items_of(value).last() {
        Some(last) => is_json_text(alloc, view, last),
        None => Ok(false),
    }
}

fn is_json_text<K: View>(alloc: Global, view: &K, value: &Tree) -> Result<bool, NoMemory>
    ensures { IfOk result (λ is. is ≡ is_json (option_and_then (name_iri (K.flat view.now)) (text_of value.now))) }
{
    match value {
        Tree::Text(text) => means(alloc, view, "@json", text.as_str()),
        _ => Ok(false),
    }
}
