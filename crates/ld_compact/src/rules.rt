//! An item under a property of the result, by its kind (JSON-LD 1.1 API, 6.1.2, 12.8.7 to 12.8.10): what asks for no
//! context.
ghost use Rattle.std.specs.Prelude.{◌≡◌, IfOk, option_copied, nat_lt, length};
ghost use Rattle.std.specs.Map.{keys_of};
ghost use Rattle.ld_rec.specs.Kinds.{map_of, entries_of as entries_of_tree};
ghost use Rattle.ld_rec.specs.Outcome.{give};
ghost use Rattle.ld_rec.specs.Words.{items_of};
ghost use Rattle.ld_rec.specs.Expansion.{is_id_alone as is_alone_id};
ghost use Rattle.ld_tree.specs.declared.tree.Tree.{out-Tree};
ghost use Rattle.ld_compact.specs.Compaction.{as_list as listed, labelled_list, list_item, key_or_none as key_for, put_keyed as with_keyed, id_key as key_of_id, included_if_several, labelled_graph, whole_graph, simple_graph, graph_by_id, graph_by_index, graph_in, graph_item, is_keyed as has_keys, taken_id, taken_first, taken_type, by_id as with_id, text_in, add_to as with_added};
ghost use Rattle.ld_compact.specs.Standing.{Stands};
ghost use Rattle.ld_compact.specs.Steps.{Decides, DecidesNew, named};

use crate::making::{Making, add_value_in, entries_of, into_items};
use crate::names::{alias, compact_id, copied, id_tree, put_under};
use crate::place::{Place, Property};
use ld_ctx::{Containers, Stop, View, means};
use ld_tree::{Entries, Items, NameMap, NoMemory, Text, Tree};
use std::alloc::Global;

// ---- a list object

// A list object's map, with the item's `@index`.
fn label_list<K: View>(
    alloc: Global,
    place: &Place<'_, K>,
    item: &Tree,
    list: Tree,
) -> Result<Making, Stop>
    requires { Stands K.flat place.now }
    ensures { Decides result (labelled_list (K.flat place.now.view.now) item.now list) }
{
    let mut made = Making::new(alloc);
    put_under(alloc, place, "@list", Some(list), &mut made)?;
    let index = copied(alloc, item.get("@index"))?;
    put_under(alloc, place, "@index", index, &mut made)?;
    Ok(made)
}

fn as_list(alloc: Global, value: Tree) -> Result<Tree, NoMemory>
    ensures { IfOk result (λ list. list ≡ listed value) }
{
    let items = into_items(alloc, value)?;
    Ok(Tree::List(Items::from_vec(items)))
}

/// A list object: the entry itself under a container `@list`, else a map that is added.
pub fn add_list<K: View>(
    alloc: Global,
    place: &Place<'_, K>,
    property: &Property<'_>,
    item: &Tree,
    compacted: Tree,
    made: &mut Making,
) -> Result<(), Stop>
    requires { Stands K.flat place.now }
    ensures { DecidesNew result made.new (list_item (K.flat place.now.view.now) (named property.now) item.now compacted made.old) }
{
    let list = as_list(alloc, compacted)?;
    if property.containers.list {
        return Ok(made.put(alloc, property.name, list)?);
    }
    let labelled = label_list(alloc, place, item, list)?;
    add_made(alloc, property, labelled, made)
}

// Adds a map that was made.
fn add_made(
    alloc: Global,
    property: &Property<'_>,
    map: Making,
    made: &mut Making,
) -> Result<(), Stop>
    ensures { DecidesNew result made.new (give (with_added (named property.now) (map_of map) made.old)) }
{
    let map = map.into_map(alloc)?;
    Ok(made.add_value(alloc, property.name, property.as_list, map)?)
}

// ---- maps by key

fn key_or_none<K: View>(
    alloc: Global,
    place: &Place<'_, K>,
    key: Option<Text>,
) -> Result<Text, Stop>
    requires { Stands K.flat place.now }
    ensures { Decides result (key_for (K.flat place.now.view.now) key) }
{
    match key {
        Some(key) => Ok(key),
        None => alias(alloc, place, "@none"),
    }
}

/// Adds a value in the property's map, under the key or the alias of `@none`.
pub fn put_keyed<K: View>(
    alloc: Global,
    place: &Place<'_, K>,
    property: &Property<'_>,
    key: Option<Text>,
    value: Tree,
    made: &mut Making,
) -> Result<(), Stop>
    requires { Stands K.flat place.now }
    ensures { DecidesNew result made.new (with_keyed (K.flat place.now.view.now) (named property.now) key value made.old) }
{
    let key = key_or_none(alloc, place, key)?;
    Ok(made.add_keyed(alloc, property.name, property.as_list, key.as_str(), value)?)
}

/// A copy of the value's text, where it is one.
pub fn text_copied(alloc: Global, value: Option<&Tree>) -> Result<Option<Text>, NoMemory>
    ensures { IfOk result (λ text. text ≡ text_in (option_copied value.entry)) }
{
    match value {
        Some(Tree::Text(text)) => Ok(Some(text.try_copy(alloc)?)),
        _ => Ok(None),
    }
}

// ---- a graph object

fn id_key<K: View>(alloc: Global, place: &Place<'_, K>, id: Option<&Tree>) -> Result<Text, Stop>
    requires { Stands K.flat place.now }
    ensures { Decides result (key_of_id (K.flat place.now.view.now) (text_in (option_copied id.entry))) }
{
    match id {
        Some(Tree::Text(text)) => compact_id(alloc, place, text.as_str()),
        _ => alias(alloc, place, "@none"),
    }
}

fn add_graph_by_id<K: View>(
    alloc: Global,
    place: &Place<'_, K>,
    property: &Property<'_>,
    item: &Tree,
    compacted: Tree,
    made: &mut Making,
) -> Result<(), Stop>
    requires { Stands K.flat place.now }
    ensures { DecidesNew result made.new (graph_by_id (K.flat place.now.view.now) (named property.now) item.now compacted made.old) }
{
    let key = id_key(alloc, place, item.get("@id"))?;
    Ok(made.add_keyed(
        alloc,
        property.name,
        property.as_list,
        key.as_str(),
        compacted,
    )?)
}

fn add_graph_by_index<K: View>(
    alloc: Global,
    place: &Place<'_, K>,
    property: &Property<'_>,
    item: &Tree,
    compacted: Tree,
    made: &mut Making,
) -> Result<(), Stop>
    requires { Stands K.flat place.now }
    ensures { DecidesNew result made.new (graph_by_index (K.flat place.now.view.now) (named property.now) item.now compacted made.old) }
{
    let key = text_copied(alloc, item.get("@index"))?;
    put_keyed(alloc, place, property, key, compacted, made)
}

// Several nodes are included in one.
fn include<K: View>(alloc: Global, place: &Place<'_, K>, compacted: Tree) -> Result<Tree, Stop>
    requires { Stands K.flat place.now }
    ensures { Decides result (included_if_several (K.flat place.now.view.now) compacted) }
{
    if !are_several(&compacted) {
        return Ok(compacted);
    }
    let mut made = Making::new(alloc);
    put_under(alloc, place, "@included", Some(compacted), &mut made)?;
    Ok(made.into_map(alloc)?)
}

fn are_several(value: &Tree) -> bool
    ensures { result ≡ nat_lt 1 (length (items_of value.now)) }
{
    match value {
        Tree::List(items) => items.as_slice().len() > 1,
        _ => false,
    }
}

fn add_simple_graph<K: View>(
    alloc: Global,
    place: &Place<'_, K>,
    property: &Property<'_>,
    compacted: Tree,
    made: &mut Making,
) -> Result<(), Stop>
    requires { Stands K.flat place.now }
    ensures { DecidesNew result made.new (simple_graph (K.flat place.now.view.now) (named property.now) compacted made.old) }
{
    let graph = include(alloc, place, compacted)?;
    Ok(made.add_value(alloc, property.name, property.as_list, graph)?)
}

// A graph object's map, with the item's `@id` and `@index`.
fn label_graph<K: View>(
    alloc: Global,
    place: &Place<'_, K>,
    item: &Tree,
    compacted: Tree,
) -> Result<Making, Stop>
    requires { Stands K.flat place.now }
    ensures { Decides result (labelled_graph (K.flat place.now.view.now) item.now compacted) }
{
    let mut made = Making::new(alloc);
    put_under(alloc, place, "@graph", Some(compacted), &mut made)?;
    let id = id_tree(alloc, place, item.get("@id"))?;
    put_under(alloc, place, "@id", id, &mut made)?;
    let index = copied(alloc, item.get("@index"))?;
    put_under(alloc, place, "@index", index, &mut made)?;
    Ok(made)
}

fn add_whole_graph<K: View>(
    alloc: Global,
    place: &Place<'_, K>,
    property: &Property<'_>,
    item: &Tree,
    compacted: Tree,
    made: &mut Making,
) -> Result<(), Stop>
    requires { Stands K.flat place.now }
    ensures { DecidesNew result made.new (whole_graph (K.flat place.now.view.now) (named property.now) item.now compacted made.old) }
{
    let labelled = label_graph(alloc, place, item, compacted)?;
    add_made(alloc, property, labelled, made)
}

// A graph object in a container of graphs.
fn add_graph_in<K: View>(
    alloc: Global,
    place: &Place<'_, K>,
    property: &Property<'_>,
    item: &Tree,
    compacted: Tree,
    made: &mut Making,
) -> Result<(), Stop>
    requires { Stands K.flat place.now }
    ensures { DecidesNew result made.new (graph_in (K.flat place.now.view.now) (named property.now) item.now compacted made.old) }
{
    if property.containers.id {
        return add_graph_by_id(alloc, place, property, item, compacted, made);
    }
    if item.get("@id").is_some() {
        return add_whole_graph(alloc, place, property, item, compacted, made);
    }
    if property.containers.index {
        add_graph_by_index(alloc, place, property, item, compacted, made)
    } else {
        add_simple_graph(alloc, place, property, compacted, made)
    }
}

/// A graph object, by the containers.
pub fn add_graph<K: View>(
    alloc: Global,
    place: &Place<'_, K>,
    property: &Property<'_>,
    item: &Tree,
    compacted: Tree,
    made: &mut Making,
) -> Result<(), Stop>
    requires { Stands K.flat place.now }
    ensures { DecidesNew result made.new (graph_item (K.flat place.now.view.now) (named property.now) item.now compacted made.old) }
{
    if property.containers.graph {
        add_graph_in(alloc, place, property, item, compacted, made)
    } else {
        add_whole_graph(alloc, place, property, item, compacted, made)
    }
}

// ---- an item of an id or type map

/// Whether items stand in a map by key.
pub fn is_keyed(containers: &Containers) -> bool
    ensures { result ≡ has_keys containers.now }
{
    (containers.language || containers.index || containers.id || containers.types)
        && !containers.graph
}

// The `@id` under its alias, which is taken out.
fn take_id(name: &str, entries: Entries<Tree>) -> (Option<Text>, Tree)
    ensures { result ≡ taken_id name.now entries }
{
    let mut entries = entries;
    let id = entries.take_out(name);
    (into_text(id), Tree::Map(entries))
}

fn into_text(value: Option<Tree>) -> Option<Text>
    ensures { result ≡ text_in value }
{
    match value {
        Some(Tree::Text(text)) => Some(text),
        _ => None,
    }
}

/// An item of an id map: its key, and what is left of it.
pub fn key_by_id<K: View>(
    alloc: Global,
    place: &Place<'_, K>,
    compacted: Tree,
) -> Result<(Option<Text>, Tree), Stop>
    requires { Stands K.flat place.now }
    ensures { Decides result (with_id (K.flat place.now.view.now) compacted (out-Tree compacted)) }
{
    match compacted {
        Tree::Map(entries) => {
            let name = alias(alloc, place, "@id")?;
            Ok(take_id(name.as_str(), entries))
        }
        other => Ok((None, other)),
    }
}

/// The first type, which is taken out of the entries, and what is left of them.
pub fn take_type(
    alloc: Global,
    name: &str,
    entries: Entries<Tree>,
) -> Result<(Option<Text>, Tree), NoMemory>
    ensures { IfOk result (λ keyed. keyed ≡ taken_type name.now entries) }
{
    let mut rest = entries;
    match rest.take_out(name) {
        None => Ok((None, Tree::Map(rest))),
        Some(types) => take_first(alloc, name, into_items(alloc, types)?, rest),
    }
}

// The first of the types, with the others put back.
fn take_first(
    alloc: Global,
    name: &str,
    types: Vec<Tree>,
    rest: Entries<Tree>,
) -> Result<(Option<Text>, Tree), NoMemory>
    ensures { IfOk result (λ keyed. keyed ≡ taken_first name.now types.items rest) }
{
    let mut types = types;
    if types.is_empty() {
        return Ok((None, Tree::Map(rest)));
    }
    let first = types.remove(0);
    let mut map = NameMap::from_entries(alloc, rest)?;
    add_value_in(
        alloc,
        &mut map,
        name,
        false,
        Tree::List(Items::from_vec(types)),
    )?;
    Ok((into_text(Some(first)), Tree::Map(entries_of(alloc, map)?)))
}

/// Whether the map is one entry whose name expands to `@id`.
pub fn is_id_alone<K: View>(alloc: Global, view: &K, tree: &Tree) -> Result<bool, NoMemory>
    ensures { IfOk result (λ is. is ≡ is_alone_id (K.flat view.now) (keys_of (entries_of_tree tree.now).0)) }
{
    match tree {
        Tree::Map(entries) => is_single_id(alloc, view, entries),
        _ => Ok(false),
    }
}

fn is_single_id<K: View>(alloc: Global, view: &K, entries: &Entries<Tree>) -> Result<bool, NoMemory>
    ensures { IfOk result (λ is. is ≡ is_alone_id (K.flat view.now) (keys_of entries.now.0)) }
{
    match entries.as_slice() {
        [(name, _)] => means(alloc, view, "@id", name.as_str()),
        _ => Ok(false),
    }
}
