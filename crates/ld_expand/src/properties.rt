//! What becomes of a property's value (JSON-LD 1.1 API, 5.1.2, 5.2 and 13.6 to 13.14).
ghost use Rattle.std.specs.Prelude.{◌≡◌, ◌++◌, IfOk, OnOk, Ok, Some, option_copied, map};
ghost use Rattle.ld_rec.specs.Outcome.{GivesAs};
ghost use Rattle.ld_rec.specs.Words.{items_of};
ghost use Rattle.ld_rec.specs.Places.{containers_of as containers_in, type_mapping_of, is_reverse as reverses};
ghost use Rattle.ld_rec.specs.Values.{as_graph as graph_of, index_item as item_under, expanded_key as key_as};
ghost use Rattle.ld_rec.specs.Expansion.{is_json, json_value as literal_of, is_keyed as has_keys, items_in, list_in_list, list_object as object_of_list, listed as listed_by, graphed as graphed_by, add_property as property_rule};
ghost use Rattle.ld_expand.specs.Steps.{DecidesNew};

use crate::keywords::add_subjects;
use crate::making::{Making, append, as_list, into_items, push};
use crate::place::containers_of;
use ld_ctx::{Containers, Def, Stop, View, expand_iri, means};
use ld_expand_value::making::{one_entry, text_tree, two_entries};
use ld_expand_value::{as_graph, index_item};
use ld_tree::{Items, NoMemory, Text, Tree};
use std::alloc::Global;

/// Whether the type mapping is `@json`.
pub fn is_json_term(def: Option<&Def>) -> bool
    ensures { result ≡ is_json (type_mapping_of (option_copied def.entry)) }
{
    match def {
        Some(def) => match &def.typed {
            Some(typed) => typed.as_str() == "@json",
            None => false,
        },
        None => false,
    }
}

/// A JSON literal (13.6).
pub fn json_value(alloc: Global, value: &Tree) -> Result<Tree, NoMemory>
    ensures { IfOk result (λ tree. tree ≡ literal_of value.now) }
{
    let typed = text_tree(alloc, "@json")?;
    two_entries(alloc, "@type", typed, "@value", value.try_copy(alloc)?)
}

/// Whether a map is one of values by keys (13.8).
pub fn is_keyed(containers: &Containers) -> bool
    ensures { result ≡ has_keys containers.now }
{
    containers.index || containers.id || containers.types
}

/// Adds what an item of a list came to: lists are joined, but for lists in a container `@list` (5.2).
pub fn join_item(
    alloc: Global,
    containers: &Containers,
    tree: Tree,
    joined: &mut Vec<Tree>,
) -> Result<(), NoMemory>
    ensures { OnOk result (joined.new.items ≡ joined.old.items ++ items_in (Some (list_in_list containers.now tree))) }
{
    if containers.list && matches!(&tree, Tree::List(_)) {
        return push(joined, list_object(alloc, tree)?);
    }
    append(joined, into_items(alloc, tree)?)
}

fn list_object(alloc: Global, tree: Tree) -> Result<Tree, NoMemory>
    ensures { IfOk result (λ object. object ≡ object_of_list tree) }
{
    let list = as_list(alloc, Some(tree))?;
    one_entry(alloc, "@list", list)
}

/// Adds what the value under a key of a container's map came to (13.8.3.7).
pub fn join_keyed<K: View>(
    alloc: Global,
    view: &K,
    containers: &Containers,
    key: &str,
    tree: Tree,
    joined: &mut Vec<Tree>,
) -> Result<(), Stop>
    ensures { GivesAs (λ _. joined.new.items) result (Ok (joined.old.items ++ map (item_under containers.now key.now (key_as (K.flat view.now) containers.now key.now)) (items_of tree))) }
{
    let expanded = expanded_key(alloc, view, containers, key)?;
    let expanded = match &expanded {
        Some(iri) => Some(iri.as_str()),
        None => None,
    };
    for item in into_items(alloc, tree)? {
        let item = index_item(alloc, item, key, expanded, containers)?;
        push(joined, item)?;
    }
    Ok(())
}

// 13.8.3.4
fn expanded_key<K: View>(
    alloc: Global,
    view: &K,
    containers: &Containers,
    key: &str,
) -> Result<Option<Text>, NoMemory>
    ensures { IfOk result (λ iri. iri ≡ key_as (K.flat view.now) containers.now key.now) }
{
    if containers.id && !containers.index && !means(alloc, view, "@none", key)? {
        expand_iri(alloc, view, key, true, false)
    } else {
        expand_iri(alloc, view, key, false, true)
    }
}

/// Adds what a property's value came to, under the expanded name (13.11 to 13.14).
pub fn add_property(
    alloc: Global,
    iri: Text,
    def: Option<&Def>,
    tree: Tree,
    made: &mut Making,
) -> Result<(), Stop>
    ensures { DecidesNew result made.new (property_rule iri (option_copied def.entry) (graphed_by (containers_in (option_copied def.entry)) (listed_by (containers_in (option_copied def.entry)) tree)) made.old) }
{
    let containers = containers_of(def);
    let tree = graphed(alloc, &containers, listed(alloc, &containers, tree)?)?;
    let items = into_items(alloc, tree)?;
    if is_reverse(def) {
        add_subjects(alloc, iri, items, made)
    } else {
        Ok(made.add_items(alloc, iri, items)?)
    }
}

fn is_reverse(def: Option<&Def>) -> bool
    ensures { result ≡ reverses (option_copied def.entry) }
{
    match def {
        Some(def) => def.reverse,
        None => false,
    }
}

// 13.11
fn listed(alloc: Global, containers: &Containers, tree: Tree) -> Result<Tree, NoMemory>
    ensures { IfOk result (λ listed. listed ≡ listed_by containers.now tree) }
{
    if containers.list && tree.get("@list").is_none() {
        list_object(alloc, tree)
    } else {
        Ok(tree)
    }
}

// 13.12
fn graphed(alloc: Global, containers: &Containers, tree: Tree) -> Result<Tree, NoMemory>
    ensures { IfOk result (λ graphed. graphed ≡ graphed_by containers.now tree) }
{
    if containers.graph && !(containers.id || containers.index) {
        Ok(Tree::List(Items::from_vec(graphs(alloc, into_items(alloc, tree)?)?)))
    } else {
        Ok(tree)
    }
}

fn graphs(alloc: Global, items: Vec<Tree>) -> Result<Vec<Tree>, NoMemory>
    ensures { IfOk result (λ graphs. graphs.items ≡ map graph_of items.items) }
{
    let mut graphs = Vec::with_capacity(alloc, items.len())?;
    for item in items {
        graphs.push(as_graph(alloc, item)?)?;
    }
    Ok(graphs)
}
