//! Values and references that need no map (JSON-LD 1.1 API, 6.1.2, 7).
ghost use Rattle.std.specs.Prelude.{◌≡◌, ◌∷◌, ◌||◌, [], option_copied, option_and_then, is_some, codes};
ghost use Rattle.ld_rec.specs.Kinds.{has_entry, entries_of, is_scalar as is_single, is_list_object as has_list, is_graph_object as has_graph};
ghost use Rattle.ld_rec.specs.Outcome.{Gives};
ghost use Rattle.ld_rec.specs.Places.{type_mapping_of};
ghost use Rattle.ld_rec.specs.Words.{names_are_among, text_of};
ghost use Rattle.ld_rec.specs.Expansion.{is_json};
ghost use Rattle.ld_compact.specs.Elements.{def_at};
ghost use Rattle.ld_compact.specs.Compaction.{value_compaction, text_or_empty as name_or_empty, value_or_map as value_if_no_map, if_no_map as unless_needed};
ghost use Rattle.ld_compact.specs.Renaming.{is_full as is_full_node, check_node as node_checked, check_types as types_checked, check_type as type_checked, check_names as names_checked, check_name as name_checked};
ghost use Rattle.ld_compact.specs.Standing.{Stands};
ghost use Rattle.ld_compact.specs.Steps.{Decides};

use crate::names::items_of;
use crate::place::Place;
use ld_ctx::{Stop, View};
use ld_inverse::{compact_iri, compact_value};
use ld_tree::{Entries, Tree};
use std::alloc::Global;

/// What Value Compaction gives, where that needs no map.
pub fn value_or_map<K: View>(
    alloc: Global,
    place: &Place<'_, K>,
    element: &Tree,
) -> Result<Option<Tree>, Stop>
    requires { Stands K.flat place.now }
    ensures { Decides result (value_if_no_map element.now (K.flat place.now.view.now) (option_copied place.now.property)) }
{
    if !may_need_no_map(element) {
        return Ok(None);
    }
    if is_full(element) && !holds_json(place) {
        check_node(alloc, place, element)?;
        return Ok(None);
    }
    let value = compact(alloc, place, element)?;
    Ok(if_no_map(place, value))
}

fn may_need_no_map(element: &Tree) -> bool
    ensures { result ≡ (has_entry (codes "@id") element.now || has_entry (codes "@value") element.now) }
{
    element.get("@id").is_some() || element.get("@value").is_some()
}

fn if_no_map<K: View>(place: &Place<'_, K>, value: Tree) -> Option<Tree>
    ensures { result ≡ unless_needed (K.flat place.now.view.now) (option_copied place.now.property) value }
{
    if is_scalar(&value) || holds_json(place) {
        Some(value)
    } else {
        None
    }
}

fn compact<K: View>(alloc: Global, place: &Place<'_, K>, value: &Tree) -> Result<Tree, Stop>
    requires { Stands K.flat place.now }
    ensures { Decides result (value_compaction (K.flat place.now.view.now) (option_copied place.now.property) value.now) }
{
    let name = text_or_empty(place.property);
    compact_value(alloc, place.view, place.inverse, name, value)
}

fn text_or_empty(property: Option<&str>) -> &str
    ensures { result.now ≡ name_or_empty (option_copied property.entry) }
{
    match property {
        Some(name) => name,
        None => "",
    }
}

fn is_scalar(value: &Tree) -> bool
    ensures { result ≡ is_single value.now }
{
    matches!(value, Tree::Text(_) | Tree::Num(_) | Tree::Bool(_))
}

// Whether the property has the type mapping `@json`.
fn holds_json<K: View>(place: &Place<'_, K>) -> bool
    ensures { result ≡ is_json (type_mapping_of (def_at (K.flat place.now.view.now) (option_copied place.now.property))) }
{
    match place.property {
        Some(name) => match place.view.def(name) {
            Some(def) => match &def.typed {
                Some(typed) => typed.as_str() == "@json",
                None => false,
            },
            None => false,
        },
        None => false,
    }
}

/// Whether the map is a list object.
pub fn is_list_object(value: &Tree) -> bool
    ensures { result ≡ has_list value.now }
{
    value.get("@list").is_some()
}

/// Whether the map is a graph object: `@graph` with nothing else but `@id` and `@index`.
pub fn is_graph_object(value: &Tree) -> bool
    ensures { result ≡ has_graph value.now }
{
    match value {
        Tree::Map(entries) => entries.get("@graph").is_some() && are_graph_names(entries),
        _ => false,
    }
}

fn are_graph_names(entries: &Entries<Tree>) -> bool
    ensures { result ≡ names_are_among (codes "@graph" ∷ codes "@id" ∷ codes "@index" ∷ []) entries.now }
{
    for (name, _) in entries.as_slice() {
        if !matches!(name.as_str(), "@graph" | "@id" | "@index") {
            return false;
        }
    }
    true
}

// ---- a node that needs a map: nothing of it is copied

// Whether Value Compaction gives a map, whatever the property is.
fn is_full(element: &Tree) -> bool
    ensures { result ≡ is_full_node element.now }
{
    match element {
        Tree::Map(entries) => {
            !(element.get("@value").is_some()
                || is_text(element.get("@type"))
                || are_reference_names(entries))
        }
        Tree::Null | Tree::Bool(_) | Tree::Num(_) | Tree::Text(_) | Tree::List(_) => false,
    }
}

fn is_text(value: Option<&Tree>) -> bool
    ensures { result ≡ is_some (option_and_then text_of (option_copied value.entry)) }
{
    matches!(value, Some(Tree::Text(_)))
}

// Whether there is nothing but `@id` and `@index`.
fn are_reference_names(entries: &Entries<Tree>) -> bool
    ensures { result ≡ names_are_among (codes "@id" ∷ codes "@index" ∷ []) entries.now }
{
    for (name, _) in entries.as_slice() {
        if !matches!(name.as_str(), "@id" | "@index") {
            return false;
        }
    }
    true
}

// Refuses what Value Compaction of a full node refuses: a type, or a name.
fn check_node<K: View>(alloc: Global, place: &Place<'_, K>, element: &Tree) -> Result<(), Stop>
    requires { Stands K.flat place.now }
    ensures { Gives result (node_checked (K.flat place.now.view.now) element.now) }
{
    if let Some(types) = element.get("@type") {
        check_types(alloc, place, items_of(types))?;
    }
    check_names(alloc, place, element)
}

fn check_types<K: View>(alloc: Global, place: &Place<'_, K>, types: &[Tree]) -> Result<(), Stop>
    requires { Stands K.flat place.now }
    ensures { Gives result (types_checked (K.flat place.now.view.now) types.now) }
{
    for value in types {
        check_type(alloc, place, value)?;
    }
    Ok(())
}

fn check_type<K: View>(alloc: Global, place: &Place<'_, K>, value: &Tree) -> Result<(), Stop>
    requires { Stands K.flat place.now }
    ensures { Gives result (type_checked (K.flat place.now.view.now) (text_of value.now)) }
{
    match value {
        Tree::Text(text) => check_name(alloc, place, text.as_str()),
        _ => Ok(()),
    }
}

fn check_names<K: View>(alloc: Global, place: &Place<'_, K>, element: &Tree) -> Result<(), Stop>
    requires { Stands K.flat place.now }
    ensures { Gives result (names_checked (K.flat place.now.view.now) (entries_of element.now).0) }
{
    match element {
        Tree::Map(entries) => check_each(alloc, place, entries),
        Tree::Null | Tree::Bool(_) | Tree::Num(_) | Tree::Text(_) | Tree::List(_) => Ok(()),
    }
}

fn check_each<K: View>(
    alloc: Global,
    place: &Place<'_, K>,
    entries: &Entries<Tree>,
) -> Result<(), Stop>
    requires { Stands K.flat place.now }
    ensures { Gives result (names_checked (K.flat place.now.view.now) entries.now.0) }
{
    for (name, _) in entries.as_slice() {
        check_name(alloc, place, name.as_str())?;
    }
    Ok(())
}

fn check_name<K: View>(alloc: Global, place: &Place<'_, K>, name: &str) -> Result<(), Stop>
    requires { Stands K.flat place.now }
    ensures { Gives result (name_checked (K.flat place.now.view.now) name.now) }
{
    compact_iri(alloc, place.view, place.inverse, name, None, true, false)?;
    Ok(())
}
