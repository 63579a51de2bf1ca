//! The rules for keywords that expand nothing within (JSON-LD 1.1 API, 5.1.2, 13.4).
ghost use Rattle.std.specs.Prelude.{◌≡◌, IfOk, OnOk, Some, option_copied, filter_map, codes};
ghost use Rattle.std.specs.List.{list_all, list_any};
ghost use Rattle.ld_tree.specs.declared.tree.Tree.{out-Tree};
ghost use Rattle.ld_rec.specs.Outcome.{each};
ghost use Rattle.ld_rec.specs.Records.{same_text};
ghost use Rattle.ld_rec.specs.Words.{text_of};
ghost use Rattle.ld_rec.specs.Kinds.{map_of, is_text, is_node_object as is_node};
ghost use Rattle.ld_rec.specs.Expansion.{keyword_of as keyword_named, has_colon as holds_colon, collides as collide, add_id as id_rule, add_types as types_rule, types_of as types_in, type_in as type_of, included, add_value as value_rule, add_language as language_rule, add_index as index_rule, add_reversed as reversed_rule, add_forward as forward_rule, add_backward as backward_rule, add_subjects as subjects_rule, reverse_map_in, is_no_subject as has_no_place};
ghost use Rattle.ld_expand.specs.Steps.{DecidesNew, seen};

use crate::making::{Making, into_items, items_of};
use crate::place::Node;
use ld_codes::{Code, Keyword};
use ld_ctx::{Stop, View, expand_iri};
use ld_tree::{Entries, Items, NoMemory, Text, Tree};
use std::alloc::Global;

/// The keyword that the expanded name is.
#[tactic(auto, using(crate::proofs::KeywordTexts::keyword_is))]
pub fn keyword_of(iri: &str) -> Option<Keyword>
    ensures { result ≡ keyword_named iri.now }
{
    Keyword::from_text(iri)
}

pub fn has_colon(iri: &str) -> bool
    ensures { result ≡ holds_colon iri.now }
{
    iri.as_bytes().iter().any(|b| *b == b':')
}

/// Under the active property `@reverse` no keyword may stand (13.4.1).
pub fn is_in_reverse(property: Option<&str>) -> bool
    ensures { result ≡ same_text (option_copied property.entry) (Some (codes "@reverse")) }
{
    match property {
        Some(name) => name == "@reverse",
        None => false,
    }
}

/// Whether the result has the keyword, where it may not come twice (13.4.2).
pub fn collides(iri: &str, made: &Making) -> bool
    ensures { result ≡ collide iri.now made.now }
{
    made.has(iri) && !matches!(iri, "@included" | "@type")
}

/// `@id` (13.4.3).
pub fn add_id<K: View>(
    alloc: Global,
    node: &Node<'_, K>,
    value: &Tree,
    made: &mut Making,
) -> Result<(), Stop>
    ensures { DecidesNew result made.new (id_rule (seen K.flat node.now) (text_of value.now) made.old) }
{
    match value {
        Tree::Text(text) => match expand_iri(alloc, node.view, text.as_str(), true, false)? {
            Some(iri) => Ok(made.put(alloc, "@id", Tree::Text(iri))?),
            None => Ok(()),
        },
        _ => Err(Stop::Code(Code::InvalidIdValue)),
    }
}

/// `@type` (13.4.4), by the type-scoped context.
pub fn add_types<K: View>(
    alloc: Global,
    node: &Node<'_, K>,
    value: &Tree,
    made: &mut Making,
) -> Result<(), Stop>
    ensures { DecidesNew result made.new (types_rule (seen K.flat node.now) value.now made.old) }
{
    if !are_texts(items_of(value)) {
        return Err(Stop::Code(Code::InvalidTypeValue));
    }
    match types_of(alloc, node.type_view, value)? {
        Some(types) => Ok(made.add_types(alloc, types)?),
        None => Ok(()),
    }
}

fn are_texts(items: &[Tree]) -> bool
    ensures { result ≡ list_all is_text items.now }
{
    for item in items {
        if !matches!(item, Tree::Text(_)) {
            return false;
        }
    }
    true
}

fn types_of<K: View>(alloc: Global, view: &K, value: &Tree) -> Result<Option<Tree>, NoMemory>
    ensures { IfOk result (λ types. types ≡ types_in (K.flat view.now) value.now (out-Tree value.now)) }
{
    match value {
        Tree::List(items) => {
            let types = expanded_types(alloc, view, items.as_slice())?;
            if types.is_empty() && !items.as_slice().is_empty() {
                Ok(None)
            } else {
                Ok(Some(Tree::List(Items::from_vec(types))))
            }
        }
        _ => expanded_type(alloc, view, value),
    }
}

fn expanded_types<K: View>(alloc: Global, view: &K, items: &[Tree]) -> Result<Vec<Tree>, NoMemory>
    ensures { IfOk result (λ types. types.items ≡ filter_map (type_of (K.flat view.now)) items.now) }
{
    let mut types = Vec::with_capacity(alloc, items.len())?;
    for item in items {
        match expanded_type(alloc, view, item)? {
            Some(iri) => types.push(iri)?,
            None => {}
        }
    }
    Ok(types)
}

fn expanded_type<K: View>(alloc: Global, view: &K, item: &Tree) -> Result<Option<Tree>, NoMemory>
    ensures { IfOk result (λ iri. iri ≡ type_of (K.flat view.now) item.now) }
{
    match item {
        Tree::Text(text) => match expand_iri(alloc, view, text.as_str(), true, true)? {
            Some(iri) => Ok(Some(Tree::Text(iri))),
            None => Ok(None),
        },
        _ => Ok(None),
    }
}

/// What the value of `@included` came to (13.4.6).
pub fn add_included_nodes(alloc: Global, tree: Option<Tree>, made: &mut Making) -> Result<(), Stop>
    ensures { DecidesNew result made.new (included tree made.old) }
{
    match tree {
        Some(tree) => {
            let items = into_items(alloc, tree)?;
            if !are_node_objects(items.as_slice()) {
                return Err(Stop::Code(Code::InvalidIncludedValue));
            }
            let name = Text::from_str(alloc, "@included")?;
            Ok(made.add_items(alloc, name, items)?)
        }
        None => Err(Stop::Code(Code::InvalidIncludedValue)),
    }
}

fn are_node_objects(items: &[Tree]) -> bool
    ensures { result ≡ list_all is_node items.now }
{
    for item in items {
        if !is_node_object(item) {
            return false;
        }
    }
    true
}

fn is_node_object(item: &Tree) -> bool
    ensures { result ≡ is_node item.now }
{
    match item {
        Tree::Map(entries) => {
            !(entries.get("@value").is_some()
                || entries.get("@list").is_some()
                || entries.get("@set").is_some())
        }
        _ => false,
    }
}

/// `@value` (13.4.7): whole where the input type is `@json`.
pub fn add_value<K: View>(
    alloc: Global,
    node: &Node<'_, K>,
    value: &Tree,
    made: &mut Making,
) -> Result<(), Stop>
    ensures { DecidesNew result made.new (value_rule (seen K.flat node.now) value.now made.old) }
{
    if node.json || !matches!(value, Tree::List(_) | Tree::Map(_)) {
        Ok(made.put(alloc, "@value", value.try_copy(alloc)?)?)
    } else {
        Err(Stop::Code(Code::InvalidValueObjectValue))
    }
}

/// `@language` (13.4.8), in lower case.
pub fn add_language(alloc: Global, value: &Tree, made: &mut Making) -> Result<(), Stop>
    ensures { DecidesNew result made.new (language_rule (text_of value.now) made.old) }
{
    match value {
        Tree::Text(text) => {
            let tag = Text::from_string(text.as_str().to_ascii_lowercase(alloc)?);
            Ok(made.put(alloc, "@language", Tree::Text(tag))?)
        }
        _ => Err(Stop::Code(Code::InvalidLanguageTaggedString)),
    }
}

/// `@index` (13.4.10).
pub fn add_index(alloc: Global, value: &Tree, made: &mut Making) -> Result<(), Stop>
    ensures { DecidesNew result made.new (index_rule (text_of value.now) made.old) }
{
    match value {
        Tree::Text(text) => {
            let index = text.try_copy(alloc)?;
            Ok(made.put(alloc, "@index", Tree::Text(index))?)
        }
        _ => Err(Stop::Code(Code::InvalidIndexValue)),
    }
}

/// What the value of `@reverse` came to (13.4.13): what is reversed twice is forward again.
pub fn add_reversed(alloc: Global, tree: Option<Tree>, made: &mut Making) -> Result<(), Stop>
    ensures { DecidesNew result made.new (reversed_rule tree made.old) }
{
    match tree {
        Some(tree) => match tree {
            Tree::Map(entries) => add_reverse_map(alloc, entries, made),
            _ => Ok(()),
        },
        None => Ok(()),
    }
}

fn add_reverse_map(alloc: Global, entries: Entries<Tree>, made: &mut Making) -> Result<(), Stop>
    ensures { DecidesNew result made.new (reversed_rule (Some (map_of entries)) made.old) }
{
    let mut entries = entries;
    let reversed = entries.take_out("@reverse");
    add_forward(alloc, reversed, made)?;
    add_each_backward(alloc, entries, made)
}

fn add_forward(alloc: Global, reversed: Option<Tree>, made: &mut Making) -> Result<(), Stop>
    ensures { DecidesNew result made.new (each forward_rule (reverse_map_in reversed).0 made.old) }
{
    match reversed {
        Some(Tree::Map(entries)) => add_each_forward(alloc, entries, made),
        _ => Ok(()),
    }
}

#[tactic(auto, using(crate::proofs::Stages::stages))]
fn add_each_forward(alloc: Global, entries: Entries<Tree>, made: &mut Making) -> Result<(), Stop>
    ensures { DecidesNew result made.new (each forward_rule entries.0 made.old) }
{
    for (name, value) in entries.into_vec() {
        made.add_items(alloc, name, into_items(alloc, value)?)?;
    }
    Ok(())
}

#[tactic(auto, using(crate::proofs::Stages::stages))]
fn add_each_backward(alloc: Global, entries: Entries<Tree>, made: &mut Making) -> Result<(), Stop>
    ensures { DecidesNew result made.new (each backward_rule entries.0 made.old) }
{
    for (name, value) in entries.into_vec() {
        add_backward(alloc, name, value, made)?;
    }
    Ok(())
}

fn add_backward(alloc: Global, name: Text, value: Tree, made: &mut Making) -> Result<(), Stop>
    ensures { DecidesNew result made.new (backward_rule (name, value) made.old) }
{
    if name.as_str() == "@reverse" {
        return Ok(());
    }
    let items = into_items(alloc, value)?;
    add_subjects(alloc, name, items, made)
}

/// Adds items under a name of the result's reverse map: none of them may be a value object or a list object
/// (13.4.13.4 and 13.13).
pub fn add_subjects(
    alloc: Global,
    name: Text,
    items: Vec<Tree>,
    made: &mut Making,
) -> Result<(), Stop>
    ensures { DecidesNew result made.new (subjects_rule name items.items made.old) }
{
    if has_no_subject(items.as_slice()) {
        return Err(Stop::Code(Code::InvalidReversePropertyValue));
    }
    Ok(made.add_reverse(alloc, name, items)?)
}

fn has_no_subject(items: &[Tree]) -> bool
    ensures { result ≡ list_any has_no_place items.now }
{
    for item in items {
        if is_no_subject(item) {
            return true;
        }
    }
    false
}

fn is_no_subject(item: &Tree) -> bool
    ensures { result ≡ has_no_place item.now }
{
    item.get("@value").is_some() || item.get("@list").is_some()
}
