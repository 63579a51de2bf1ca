//! The Expansion Algorithm (JSON-LD 1.1 API, 5.1.2): one call of the cycle for each of its stages.
ghost use Rattle.std.specs.Prelude.{◌≡◌, IfOk, map, option_copied};
ghost use Rattle.ld_rec.specs.Outcome.{Gives};
ghost use Rattle.ld_rec.specs.Records.{def_of};
ghost use Rattle.ld_rec.specs.Places.{held_by as holder, expand_as};
ghost use Rattle.ld_rec.specs.Expansion.{element_becomes, expanded, scalar_becomes, list_becomes, add_item as item_rule, map_by_way, keyed_becomes, add_key as key_rule, map_becomes, typed_becomes, node_becomes, by_entry, by_iri, keyword_of as keyword_named, add_keyword as keyword_rule, by_keyword as keyword_by, add_graph as graph_rule, add_included as included_rule, add_list as list_rule, add_set as set_rule, add_reverses as reverse_rule, by_property, property_value as value_under};
ghost use Rattle.ld_expand.specs.Steps.{Answers, AnswersNew, Keeps, document_becomes, own_becomes, placed, seen, beside, entry_beside};

use crate::contexts::{active, apply, apply_key_type, apply_scoped, map_view, reverted};
use crate::ending::{end_document, end_map};
use crate::keywords::{
    add_id, add_included_nodes, add_index, add_language, add_reversed, add_types, add_value,
    collides, has_colon, is_in_reverse, keyword_of,
};
use crate::making::{Making, as_list};
use crate::place::{Node, Place, containers_of, held_by, property_def};
use crate::properties::{add_property, is_json_term, is_keyed, join_item, join_keyed, json_value};
use crate::types::{apply_types, has_json_type};
use ld_codes::{Code, Keyword, Own};
use ld_ctx::{Containers, Contexts, Def, Stop, View, expand_iri};
use ld_expand_value::{expand_value, language_map};
use ld_rec::Way;
use ld_tree::{Entries, Items, Text, Tree};
use std::alloc::Global;

/// The expanded form of a document (JSON-LD 1.1 API, 9.1 `expand` and 5.1.2) over the documents that the contexts
/// stand for, with the base URL: always a list. The refusals are the definition's, in the algorithm's order: a code of
/// the standard, a refusal of this profile's own, or the first document that is asked for and isn't there. The time
/// is that of the contexts asked for, and n log n in the document.
pub fn expand<C: Contexts>(
    alloc: Global,
    contexts: &mut C,
    base: Option<&str>,
    document: &Tree,
) -> Result<Tree, Stop>
    ensures answer { Gives result (expanded (C.stock contexts.old) (option_copied base.entry) document.now).result }
    ensures stock { C.stock contexts.new ≡ C.stock contexts.old }
    ensures keeps { (kept : C.Kept) → C.gave contexts.old kept → C.gave contexts.new kept }
{
    let view = contexts.fresh(alloc, base)?;
    expand_document(alloc, contexts, base, &view, document)
}

// The whole document, with no active property.
fn expand_document<'a, C: Contexts>(
    alloc: Global,
    contexts: &mut C,
    base: Option<&'a str>,
    view: &'a C::Kept,
    document: &Tree,
) -> Result<Tree, Stop>
    requires { C.gave contexts.old view.now }
    ensures answer { Answers (C.stock contexts.old) result (document_becomes (option_copied base.entry) document.now (C.Kept.flat view.now)) }
    ensures keeps { Keeps C.stock C.gave contexts.old contexts.new }
{
    let top = Place {
        base,
        view,
        property: None,
        way: Way::Plain,
    };
    let tree = expand_element(alloc, contexts, &top, document)?;
    Ok(end_document(alloc, tree)?)
}

// What an element comes to; None is null.
#[cycle(expand)]
#[tactic(auto, using(ld_rec::proofs::Levels::becomes_levels))]
fn expand_element<C: Contexts>(
    alloc: Global,
    contexts: &mut C,
    place: &Place<'_, C::Kept>,
    element: &Tree,
) -> Result<Option<Tree>, Stop>
    requires { C.gave contexts.old place.now.view.now }
    ensures answer { Answers (C.stock contexts.old) result (element_becomes (option_copied place.now.base) element.now (placed C.Kept.flat place.now)) }
    ensures keeps { Keeps C.stock C.gave contexts.old contexts.new }
{
    match element {
        Tree::Null => Ok(None),
        Tree::Bool(_) | Tree::Num(_) | Tree::Text(_) => {
            expand_scalar(alloc, contexts, place, element)
        }
        Tree::List(items) => expand_list(alloc, contexts, place, items),
        Tree::Map(entries) => expand_by_way(alloc, contexts, place, entries),
    }
}

// A scalar is null where no property holds it.
fn expand_scalar<C: Contexts>(
    alloc: Global,
    contexts: &mut C,
    place: &Place<'_, C::Kept>,
    scalar: &Tree,
) -> Result<Option<Tree>, Stop>
    requires { C.gave contexts.old place.now.view.now }
    ensures answer { Answers (C.stock contexts.old) result (scalar_becomes scalar.now (placed C.Kept.flat place.now) (holder (option_copied place.now.property))) }
    ensures keeps { Keeps C.stock C.gave contexts.old contexts.new }
{
    match held_by(place.property) {
        Some(name) => {
            let def = property_def(place.view, place.property);
            let made = apply_scoped(alloc, contexts, place.view, def, true, true)?;
            expand_value(alloc, active(&made, place.view), name, scalar)
        }
        None => Ok(None),
    }
}

#[cycle(expand)]
fn expand_list<C: Contexts>(
    alloc: Global,
    contexts: &mut C,
    place: &Place<'_, C::Kept>,
    items: &Items<Tree>,
) -> Result<Option<Tree>, Stop>
    requires { C.gave contexts.old place.now.view.now }
    ensures answer { Answers (C.stock contexts.old) result (list_becomes (map (beside (option_copied place.now.base)) items.now) (placed C.Kept.flat place.now)) }
    ensures keeps { Keeps C.stock C.gave contexts.old contexts.new }
{
    let containers = containers_of(property_def(place.view, place.property));
    let mut joined = Vec::new(alloc);
    for item in items.as_slice() {
        add_item(alloc, contexts, place, &containers, item, &mut joined)?;
    }
    Ok(Some(Tree::List(Items::from_vec(joined))))
}

#[cycle(expand)]
fn add_item<C: Contexts>(
    alloc: Global,
    contexts: &mut C,
    place: &Place<'_, C::Kept>,
    containers: &Containers,
    item: &Tree,
    joined: &mut Vec<Tree>,
) -> Result<(), Stop>
    requires { C.gave contexts.old place.now.view.now }
    ensures answer { AnswersNew (C.stock contexts.old) result joined.new.items (item_rule containers.now (placed C.Kept.flat place.now) (beside (option_copied place.now.base) item.now) joined.old.items) }
    ensures keeps { Keeps C.stock C.gave contexts.old contexts.new }
{
    match expand_element(alloc, contexts, place, item)? {
        Some(tree) => Ok(join_item(alloc, containers, tree, joined)?),
        None => Ok(()),
    }
}

#[cycle(expand)]
fn expand_by_way<C: Contexts>(
    alloc: Global,
    contexts: &mut C,
    place: &Place<'_, C::Kept>,
    entries: &Entries<Tree>,
) -> Result<Option<Tree>, Stop>
    requires { C.gave contexts.old place.now.view.now }
    ensures answer { Answers (C.stock contexts.old) result (map_by_way (option_copied place.now.base) place.now.way entries.now (map (entry_beside (option_copied place.now.base)) entries.now.0) (placed C.Kept.flat place.now)) }
    ensures keeps { Keeps C.stock C.gave contexts.old contexts.new }
{
    match place.way {
        Way::AsMap => expand_keyed(alloc, contexts, place, entries),
        _ => expand_map(alloc, contexts, place, entries),
    }
}

// The map of a container `@index`, `@id` or `@type`.
#[cycle(expand)]
fn expand_keyed<C: Contexts>(
    alloc: Global,
    contexts: &mut C,
    place: &Place<'_, C::Kept>,
    entries: &Entries<Tree>,
) -> Result<Option<Tree>, Stop>
    requires { C.gave contexts.old place.now.view.now }
    ensures answer { Answers (C.stock contexts.old) result (keyed_becomes (map (entry_beside (option_copied place.now.base)) entries.now.0) (placed C.Kept.flat place.now)) }
    ensures keeps { Keeps C.stock C.gave contexts.old contexts.new }
{
    let containers = containers_of(property_def(place.view, place.property));
    let mut joined = Vec::new(alloc);
    for (key, value) in entries.as_slice() {
        add_key(
            alloc,
            contexts,
            place,
            &containers,
            key.as_str(),
            value,
            &mut joined,
        )?;
    }
    Ok(Some(Tree::List(Items::from_vec(joined))))
}

// The items under a key: the previous context comes back in a container `@id` or `@type`, and with `@type` that of
// the key's type is applied.
#[cycle(expand)]
fn add_key<C: Contexts>(
    alloc: Global,
    contexts: &mut C,
    place: &Place<'_, C::Kept>,
    containers: &Containers,
    key: &str,
    value: &Tree,
    joined: &mut Vec<Tree>,
) -> Result<(), Stop>
    requires { C.gave contexts.old place.now.view.now }
    ensures answer { AnswersNew (C.stock contexts.old) result joined.new.items (key_rule containers.now (placed C.Kept.flat place.now) (entry_beside (option_copied place.now.base) (key.now, value.now)) joined.old.items) }
    ensures keeps { Keeps C.stock C.gave contexts.old contexts.new }
{
    let before = map_view(contexts, place.view, containers);
    let made = apply_key_type(alloc, contexts, before, containers, key)?;
    let within = Place {
        base: place.base,
        view: active(&made, before),
        property: place.property,
        way: Way::FromMap,
    };
    match expand_element(alloc, contexts, &within, value)? {
        Some(tree) => join_keyed(alloc, place.view, containers, key, tree, joined),
        None => Ok(()),
    }
}

// A map: the previous context comes back, and the property's own context is applied.
#[cycle(expand)]
fn expand_map<C: Contexts>(
    alloc: Global,
    contexts: &mut C,
    place: &Place<'_, C::Kept>,
    entries: &Entries<Tree>,
) -> Result<Option<Tree>, Stop>
    requires { C.gave contexts.old place.now.view.now }
    ensures answer { Answers (C.stock contexts.old) result (map_becomes (option_copied place.now.base) entries.now (map (entry_beside (option_copied place.now.base)) entries.now.0) (placed C.Kept.flat place.now)) }
    ensures keeps { Keeps C.stock C.gave contexts.old contexts.new }
{
    let def = property_def(place.view, place.property);
    let before = reverted(alloc, contexts, place.view, place.way, entries)?;
    let made = apply_scoped(alloc, contexts, before, def, true, true)?;
    let view = active(&made, before);
    expand_own(alloc, contexts, place.base, view, place.property, entries)
}

// Then the map's own context.
#[cycle(expand)]
fn expand_own<C: Contexts>(
    alloc: Global,
    contexts: &mut C,
    base: Option<&str>,
    view: &C::Kept,
    property: Option<&str>,
    entries: &Entries<Tree>,
) -> Result<Option<Tree>, Stop>
    requires { C.gave contexts.old view.now }
    ensures answer { Answers (C.stock contexts.old) result (own_becomes (option_copied base.entry) entries.now (map (entry_beside (option_copied base.entry)) entries.now.0) (option_copied property.entry) (C.Kept.flat view.now)) }
    ensures keeps { Keeps C.stock C.gave contexts.old contexts.new }
{
    let made = apply(
        alloc,
        contexts,
        view,
        entries.get("@context"),
        base,
        false,
        true,
    )?;
    expand_typed(
        alloc,
        contexts,
        base,
        active(&made, view),
        property,
        entries,
    )
}

// Then those of its types.
#[cycle(expand)]
fn expand_typed<C: Contexts>(
    alloc: Global,
    contexts: &mut C,
    base: Option<&str>,
    type_view: &C::Kept,
    property: Option<&str>,
    entries: &Entries<Tree>,
) -> Result<Option<Tree>, Stop>
    requires { C.gave contexts.old type_view.now }
    ensures answer { Answers (C.stock contexts.old) result (typed_becomes entries.now (map (entry_beside (option_copied base.entry)) entries.now.0) (option_copied property.entry) (C.Kept.flat type_view.now)) }
    ensures keeps { Keeps C.stock C.gave contexts.old contexts.new }
{
    let made = apply_types(alloc, contexts, type_view, entries)?;
    let view = active(&made, type_view);
    let json = has_json_type(alloc, view, entries)?;
    let node = Node {
        base,
        view,
        type_view,
        property,
        json,
    };
    expand_node(alloc, contexts, &node, entries)
}

#[cycle(expand)]
fn expand_node<C: Contexts>(
    alloc: Global,
    contexts: &mut C,
    node: &Node<'_, C::Kept>,
    entries: &Entries<Tree>,
) -> Result<Option<Tree>, Stop>
    requires { C.gave contexts.old node.now.view.now }
    ensures answer { Answers (C.stock contexts.old) result (node_becomes (map (entry_beside (option_copied node.now.base)) entries.now.0) (seen C.Kept.flat node.now)) }
    ensures keeps { Keeps C.stock C.gave contexts.old contexts.new }
{
    let mut made = Making::new(alloc);
    for (name, value) in entries.as_slice() {
        add_entry(alloc, contexts, node, name.as_str(), value, &mut made)?;
    }
    end_map(alloc, node.property, made)
}

// An entry, by what its name expands to.
#[cycle(expand)]
fn add_entry<C: Contexts>(
    alloc: Global,
    contexts: &mut C,
    node: &Node<'_, C::Kept>,
    name: &str,
    value: &Tree,
    made: &mut Making,
) -> Result<(), Stop>
    requires { C.gave contexts.old node.now.view.now }
    ensures answer { AnswersNew (C.stock contexts.old) result made.new (by_entry (seen C.Kept.flat node.now) (entry_beside (option_copied node.now.base) (name.now, value.now)) made.old) }
    ensures keeps { Keeps C.stock C.gave contexts.old contexts.new }
{
    if name == "@context" {
        return Ok(());
    }
    match expand_iri(alloc, node.view, name, false, true)? {
        Some(iri) => add_named(alloc, contexts, node, iri, name, value, made),
        None => Ok(()),
    }
}

// A name that expands to neither a keyword nor an IRI is dropped.
#[cycle(expand)]
fn add_named<C: Contexts>(
    alloc: Global,
    contexts: &mut C,
    node: &Node<'_, C::Kept>,
    iri: Text,
    name: &str,
    value: &Tree,
    made: &mut Making,
) -> Result<(), Stop>
    requires { C.gave contexts.old node.now.view.now }
    ensures answer { AnswersNew (C.stock contexts.old) result made.new (by_iri (seen C.Kept.flat node.now) iri (keyword_named iri) (entry_beside (option_copied node.now.base) (name.now, value.now)) made.old) }
    ensures keeps { Keeps C.stock C.gave contexts.old contexts.new }
{
    match keyword_of(iri.as_str()) {
        Some(keyword) => {
            if is_in_reverse(node.property) {
                return Err(Stop::Code(Code::InvalidReversePropertyMap));
            }
            if collides(iri.as_str(), made) {
                return Err(Stop::Code(Code::CollidingKeywords));
            }
            add_by_keyword(alloc, contexts, node, keyword, value, made)
        }
        None => {
            if has_colon(iri.as_str()) {
                add_by_property(alloc, contexts, node, iri, name, value, made)
            } else {
                Ok(())
            }
        }
    }
}

#[cycle(expand)]
fn add_by_keyword<C: Contexts>(
    alloc: Global,
    contexts: &mut C,
    node: &Node<'_, C::Kept>,
    keyword: Keyword,
    value: &Tree,
    made: &mut Making,
) -> Result<(), Stop>
    requires { C.gave contexts.old node.now.view.now }
    ensures answer { AnswersNew (C.stock contexts.old) result made.new (keyword_by (seen C.Kept.flat node.now) keyword (beside (option_copied node.now.base) value.now) made.old) }
    ensures keeps { Keeps C.stock C.gave contexts.old contexts.new }
{
    match keyword {
        Keyword::Id => add_id(alloc, node, value, made),
        Keyword::Typed => add_types(alloc, node, value, made),
        Keyword::Graph => add_graph(alloc, contexts, node, value, made),
        Keyword::Included => add_included(alloc, contexts, node, value, made),
        Keyword::Value => add_value(alloc, node, value, made),
        Keyword::Language => add_language(alloc, value, made),
        Keyword::Index => add_index(alloc, value, made),
        Keyword::List => add_list(alloc, contexts, node, value, made),
        Keyword::Set => add_set(alloc, contexts, node, value, made),
        Keyword::Reverse => add_reverses(alloc, contexts, node, value, made),
        Keyword::Direction | Keyword::Nest => Err(Stop::Own(Own::OutsideProfile(keyword))),
        _ => Ok(()),
    }
}

// A value within the map, under another active property.
#[cycle(expand)]
fn expand_within<C: Contexts>(
    alloc: Global,
    contexts: &mut C,
    node: &Node<'_, C::Kept>,
    property: Option<&str>,
    way: Way,
    value: &Tree,
) -> Result<Option<Tree>, Stop>
    requires { C.gave contexts.old node.now.view.now }
    ensures answer { Answers (C.stock contexts.old) result (expand_as way (beside (option_copied node.now.base) value.now) (C.Kept.flat node.now.view.now) (option_copied property.entry)) }
    ensures keeps { Keeps C.stock C.gave contexts.old contexts.new }
{
    let place = Place {
        base: node.base,
        view: node.view,
        property,
        way,
    };
    expand_element(alloc, contexts, &place, value)
}

// `@graph`
#[cycle(expand)]
fn add_graph<C: Contexts>(
    alloc: Global,
    contexts: &mut C,
    node: &Node<'_, C::Kept>,
    value: &Tree,
    made: &mut Making,
) -> Result<(), Stop>
    requires { C.gave contexts.old node.now.view.now }
    ensures answer { AnswersNew (C.stock contexts.old) result made.new (graph_rule (seen C.Kept.flat node.now) (beside (option_copied node.now.base) value.now) made.old) }
    ensures keeps { Keeps C.stock C.gave contexts.old contexts.new }
{
    let tree = expand_within(alloc, contexts, node, Some("@graph"), Way::Plain, value)?;
    Ok(made.put(alloc, "@graph", as_list(alloc, tree)?)?)
}

// `@included`
#[cycle(expand)]
fn add_included<C: Contexts>(
    alloc: Global,
    contexts: &mut C,
    node: &Node<'_, C::Kept>,
    value: &Tree,
    made: &mut Making,
) -> Result<(), Stop>
    requires { C.gave contexts.old node.now.view.now }
    ensures answer { AnswersNew (C.stock contexts.old) result made.new (included_rule (seen C.Kept.flat node.now) (beside (option_copied node.now.base) value.now) made.old) }
    ensures keeps { Keeps C.stock C.gave contexts.old contexts.new }
{
    let tree = expand_within(alloc, contexts, node, None, Way::Plain, value)?;
    add_included_nodes(alloc, tree, made)
}

// `@list`, which is dropped where no property holds it.
#[cycle(expand)]
fn add_list<C: Contexts>(
    alloc: Global,
    contexts: &mut C,
    node: &Node<'_, C::Kept>,
    value: &Tree,
    made: &mut Making,
) -> Result<(), Stop>
    requires { C.gave contexts.old node.now.view.now }
    ensures answer { AnswersNew (C.stock contexts.old) result made.new (list_rule (seen C.Kept.flat node.now) (holder (option_copied node.now.property)) (beside (option_copied node.now.base) value.now) made.old) }
    ensures keeps { Keeps C.stock C.gave contexts.old contexts.new }
{
    match held_by(node.property) {
        Some(name) => {
            let tree = expand_within(alloc, contexts, node, Some(name), Way::Plain, value)?;
            Ok(made.put(alloc, "@list", as_list(alloc, tree)?)?)
        }
        None => Ok(()),
    }
}

// `@set`
#[cycle(expand)]
fn add_set<C: Contexts>(
    alloc: Global,
    contexts: &mut C,
    node: &Node<'_, C::Kept>,
    value: &Tree,
    made: &mut Making,
) -> Result<(), Stop>
    requires { C.gave contexts.old node.now.view.now }
    ensures answer { AnswersNew (C.stock contexts.old) result made.new (set_rule (seen C.Kept.flat node.now) (beside (option_copied node.now.base) value.now) made.old) }
    ensures keeps { Keeps C.stock C.gave contexts.old contexts.new }
{
    match expand_within(alloc, contexts, node, node.property, Way::Plain, value)? {
        Some(tree) => Ok(made.put(alloc, "@set", tree)?),
        None => Ok(made.put(alloc, "@set", Tree::Null)?),
    }
}

// `@reverse`
#[cycle(expand)]
fn add_reverses<C: Contexts>(
    alloc: Global,
    contexts: &mut C,
    node: &Node<'_, C::Kept>,
    value: &Tree,
    made: &mut Making,
) -> Result<(), Stop>
    requires { C.gave contexts.old node.now.view.now }
    ensures answer { AnswersNew (C.stock contexts.old) result made.new (reverse_rule (seen C.Kept.flat node.now) (beside (option_copied node.now.base) value.now) made.old) }
    ensures keeps { Keeps C.stock C.gave contexts.old contexts.new }
{
    if !matches!(value, Tree::Map(_)) {
        return Err(Stop::Code(Code::InvalidReverseValue));
    }
    let tree = expand_within(alloc, contexts, node, Some("@reverse"), Way::Plain, value)?;
    add_reversed(alloc, tree, made)
}

// A property, by its term's definition.
#[cycle(expand)]
fn add_by_property<C: Contexts>(
    alloc: Global,
    contexts: &mut C,
    node: &Node<'_, C::Kept>,
    iri: Text,
    name: &str,
    value: &Tree,
    made: &mut Making,
) -> Result<(), Stop>
    requires { C.gave contexts.old node.now.view.now }
    ensures answer { AnswersNew (C.stock contexts.old) result made.new (by_property (seen C.Kept.flat node.now) iri name.now (def_of (C.Kept.flat node.now.view.now) name.now) (beside (option_copied node.now.base) value.now) made.old) }
    ensures keeps { Keeps C.stock C.gave contexts.old contexts.new }
{
    let def = node.view.def(name);
    match expand_property(alloc, contexts, node, name, def, value)? {
        Some(tree) => add_property(alloc, iri, def, tree, made),
        None => Ok(()),
    }
}

#[cycle(expand)]
fn expand_property<C: Contexts>(
    alloc: Global,
    contexts: &mut C,
    node: &Node<'_, C::Kept>,
    name: &str,
    def: Option<&Def>,
    value: &Tree,
) -> Result<Option<Tree>, Stop>
    requires { C.gave contexts.old node.now.view.now }
    ensures answer { Answers (C.stock contexts.old) result (value_under (seen C.Kept.flat node.now) name.now (option_copied def.entry) (beside (option_copied node.now.base) value.now)) }
    ensures keeps { Keeps C.stock C.gave contexts.old contexts.new }
{
    if is_json_term(def) {
        return Ok(Some(json_value(alloc, value)?));
    }
    let containers = containers_of(def);
    match value {
        Tree::Map(entries) => {
            if containers.language {
                return Ok(Some(Tree::List(language_map(alloc, node.view, entries)?)));
            }
            let way = if is_keyed(&containers) {
                Way::AsMap
            } else {
                Way::Plain
            };
            expand_within(alloc, contexts, node, Some(name), way, value)
        }
        _ => expand_within(alloc, contexts, node, Some(name), Way::Plain, value),
    }
}
