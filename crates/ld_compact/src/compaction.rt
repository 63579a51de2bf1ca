//! The Compaction Algorithm (JSON-LD 1.1 API, 6.1.2): one call of the cycle for each of its stages.
ghost use Rattle.std.specs.Prelude.{◌≡◌, map, option_copied, codes, IfOk};
ghost use Rattle.ld_tree.specs.declared.tree.Tree.{out-Tree};
ghost use Rattle.ld_rec.specs.Outcome.{each, give};
ghost use Rattle.ld_rec.specs.Kinds.{entries_of as entries_in, is_null as is_nothing};
ghost use Rattle.ld_compact.specs.Elements.{Whole, Content, IdAlone, value_at};
ghost use Rattle.ld_compact.specs.Compaction.{element as comes_to, list_becomes, add_item as item_in_list, unless_null, unlisted as unlisted_items, keeps_list as has_lists, map_becomes, map_within, needed_map, full_becomes, node_becomes, entry_rule, reverse_rule, items_rule, item_rule, item_under, way_of, content_of, content_becomes, item_by_kind, node_item, keyed_item, by_containers, by_type, by_id_alone, id_becomes, alone, Keyed};
ghost use Rattle.ld_compact.specs.Standing.{Stands};
ghost use Rattle.ld_compact.specs.Steps.{Answers, AnswersNew, Decides, DecidesNew, Keeps, placed, seen, named, item_beside, entry_beside, all_beside, beside, within_becomes, only_becomes};

use crate::contexts::{apply_scoped, ready_if, reverted};
use crate::making::{Making, push};
use crate::names::{
    add_empty, add_id, add_index, add_reversed, add_types, alias, compact_name, compact_types,
    copied, put_under,
};
use crate::place::{Place, Property, active, containers_at, property_def, property_of};
use crate::rules::{
    add_graph, add_list, is_id_alone, is_keyed, key_by_id, put_keyed, take_type, text_copied,
};
use crate::types::apply_types;
use crate::values::{is_graph_object, is_list_object, value_or_map};
use ld_ctx::{Stop, View};
use ld_inverse::Inverses;
use ld_tree::{Entries, Items, NoMemory, Text, Tree};
use std::alloc::Global;

/// What an element comes to.
#[cycle(compact)]
#[tactic(auto, using(crate::proofs::Levels::element_levels))]
pub fn compact_element<W: Inverses>(
    alloc: Global,
    work: &mut W,
    place: &Place<'_, W::Kept>,
    element: &Tree,
) -> Result<Tree, Stop>
    requires gave { W.gave work.old place.now.view.now }
    requires stands { Stands W.Kept.flat place.now }
    ensures answer { Answers (W.stock work.old) result ((comes_to place.now.arrays element.now).0 (placed W.Kept.flat Whole place.now)) }
    ensures keeps { Keeps W.stock W.gave work.old work.new }
{
    match element {
        Tree::Null => Ok(Tree::Null),
        Tree::Bool(b) => Ok(Tree::Bool(*b)),
        Tree::Num(n) => Ok(Tree::Num(*n)),
        Tree::Text(text) => Ok(Tree::Text(text.try_copy(alloc)?)),
        Tree::List(items) => compact_list(alloc, work, place, items),
        Tree::Map(_) => compact_map(alloc, work, place, element),
    }
}

// ---- a list

#[cycle(compact)]
fn compact_list<W: Inverses>(
    alloc: Global,
    work: &mut W,
    place: &Place<'_, W::Kept>,
    items: &Items<Tree>,
) -> Result<Tree, Stop>
    requires gave { W.gave work.old place.now.view.now }
    requires stands { Stands W.Kept.flat place.now }
    ensures answer { Answers (W.stock work.old) result (list_becomes place.now.arrays (map (item_beside place.now.arrays) items.now) (placed W.Kept.flat Whole place.now)) }
    ensures keeps { Keeps W.stock W.gave work.old work.new }
{
    let stays = !place.arrays || keeps_list(place);
    let mut compacted = Vec::new(alloc);
    for item in items.as_slice() {
        push_item(alloc, work, place, item, &mut compacted)?;
    }
    Ok(unlisted(stays, compacted))
}

// Null is left out.
#[cycle(compact)]
fn push_item<W: Inverses>(
    alloc: Global,
    work: &mut W,
    place: &Place<'_, W::Kept>,
    item: &Tree,
    compacted: &mut Vec<Tree>,
) -> Result<(), Stop>
    requires gave { W.gave work.old place.now.view.now }
    requires stands { Stands W.Kept.flat place.now }
    ensures answer { AnswersNew (W.stock work.old) result compacted.new.items (item_in_list (placed W.Kept.flat Whole place.now) (item_beside place.now.arrays item.now) compacted.old.items) }
    ensures keeps { Keeps W.stock W.gave work.old work.new }
{
    let value = compact_element(alloc, work, place, item)?;
    push_kept(value, compacted)
}

fn push_kept(value: Tree, compacted: &mut Vec<Tree>) -> Result<(), Stop>
    ensures { DecidesNew result compacted.new.items (give (unless_null value compacted.old.items)) }
{
    if is_null(&value) {
        return Ok(());
    }
    Ok(push(compacted, value)?)
}

fn is_null(value: &Tree) -> bool
    ensures { result ≡ is_nothing value.now }
{
    matches!(value, Tree::Null)
}

fn keeps_list<K: View>(place: &Place<'_, K>) -> bool
    ensures { result ≡ has_lists (K.flat place.now.view.now) (option_copied place.now.property) }
{
    match place.property {
        None => false,
        Some(name) => {
            let containers = containers_at(place);
            name == "@graph" || name == "@set" || containers.list || containers.set
        }
    }
}

// A single item stands for the list, unless something asks for a list.
fn unlisted(stays: bool, items: Vec<Tree>) -> Tree
    ensures { result ≡ unlisted_items stays items.items }
{
    let mut items = items;
    if stays || items.len() != 1 {
        return Tree::List(Items::from_vec(items));
    }
    match items.pop() {
        Some(single) => single,
        None => Tree::List(Items::from_vec(items)),
    }
}

// ---- a map

// The previous context comes back, and the property's own context is applied.
#[cycle(compact)]
fn compact_map<W: Inverses>(
    alloc: Global,
    work: &mut W,
    place: &Place<'_, W::Kept>,
    element: &Tree,
) -> Result<Tree, Stop>
    requires gave { W.gave work.old place.now.view.now }
    requires stands { Stands W.Kept.flat place.now }
    ensures answer { Answers (W.stock work.old) result (map_becomes place.now.arrays element.now (all_beside place.now.arrays (entries_in element.now)) (placed W.Kept.flat Whole place.now)) }
    ensures keeps { Keeps W.stock W.gave work.old work.new }
{
    let before = reverted(work, place, element);
    let def = property_def(place.view, place.property);
    let applied = apply_scoped(alloc, work, before.view, def, true, true)?;
    let made = ready_if(alloc, work, applied, before.view)?;
    let within = active(&made, &before);
    compact_within(alloc, work, place, &within, element)
}

// A value or a reference that needs no map is done; `entry` has the context as it came.
#[cycle(compact)]
fn compact_within<W: Inverses>(
    alloc: Global,
    work: &mut W,
    entry: &Place<'_, W::Kept>,
    place: &Place<'_, W::Kept>,
    element: &Tree,
) -> Result<Tree, Stop>
    requires gave { W.gave work.old place.now.view.now }
    requires stands { Stands W.Kept.flat place.now }
    requires entry { Stands W.Kept.flat entry.now }
    ensures answer { Answers (W.stock work.old) result (map_within place.now.arrays element.now (all_beside place.now.arrays (entries_in element.now)) (W.Kept.flat entry.now.view.now) (placed W.Kept.flat Whole place.now)) }
    ensures keeps { Keeps W.stock W.gave work.old work.new }
{
    match value_or_map(alloc, place, element)? {
        Some(value) => Ok(value),
        None => compact_needed(alloc, work, entry, place, element),
    }
}

// A list object under a container `@list` gives its list.
#[cycle(compact)]
fn compact_needed<W: Inverses>(
    alloc: Global,
    work: &mut W,
    entry: &Place<'_, W::Kept>,
    place: &Place<'_, W::Kept>,
    element: &Tree,
) -> Result<Tree, Stop>
    requires gave { W.gave work.old place.now.view.now }
    requires stands { Stands W.Kept.flat place.now }
    requires entry { Stands W.Kept.flat entry.now }
    ensures answer { Answers (W.stock work.old) result (needed_map place.now.arrays element.now (all_beside place.now.arrays (entries_in element.now)) (W.Kept.flat entry.now.view.now) (placed W.Kept.flat Whole place.now)) }
    ensures keeps { Keeps W.stock W.gave work.old work.new }
{
    if !containers_at(place).list {
        return compact_full(alloc, work, entry, place, element);
    }
    match compact_named(alloc, work, place, "@list", element)? {
        Some(list) => Ok(list),
        None => compact_full(alloc, work, entry, place, element),
    }
}

// The value under the name, compacted, where there is one.
#[cycle(compact)]
fn compact_named<W: Inverses>(
    alloc: Global,
    work: &mut W,
    place: &Place<'_, W::Kept>,
    name: &str,
    element: &Tree,
) -> Result<Option<Tree>, Stop>
    requires gave { W.gave work.old place.now.view.now }
    requires stands { Stands W.Kept.flat place.now }
    ensures answer { Answers (W.stock work.old) result (within_becomes (value_at name.now (all_beside place.now.arrays (entries_in element.now))) (placed W.Kept.flat Whole place.now)) }
    ensures keeps { Keeps W.stock W.gave work.old work.new }
{
    match element {
        Tree::Map(entries) => compact_found(alloc, work, place, name, entries),
        Tree::Null | Tree::Bool(_) | Tree::Num(_) | Tree::Text(_) | Tree::List(_) => Ok(None),
    }
}

#[cycle(compact)]
fn compact_found<W: Inverses>(
    alloc: Global,
    work: &mut W,
    place: &Place<'_, W::Kept>,
    name: &str,
    entries: &Entries<Tree>,
) -> Result<Option<Tree>, Stop>
    requires gave { W.gave work.old place.now.view.now }
    requires stands { Stands W.Kept.flat place.now }
    ensures answer { Answers (W.stock work.old) result (within_becomes (value_at name.now (all_beside place.now.arrays entries.now)) (placed W.Kept.flat Whole place.now)) }
    ensures keeps { Keeps W.stock W.gave work.old work.new }
{
    for (key, value) in entries.as_slice() {
        if name == key.as_str() {
            return Ok(Some(compact_element(alloc, work, place, value)?));
        }
    }
    Ok(None)
}

// The types are compacted by the context as it came, and their own contexts applied.
#[cycle(compact)]
fn compact_full<W: Inverses>(
    alloc: Global,
    work: &mut W,
    entry: &Place<'_, W::Kept>,
    place: &Place<'_, W::Kept>,
    element: &Tree,
) -> Result<Tree, Stop>
    requires gave { W.gave work.old place.now.view.now }
    requires stands { Stands W.Kept.flat place.now }
    requires entry { Stands W.Kept.flat entry.now }
    ensures answer { Answers (W.stock work.old) result (full_becomes place.now.arrays element.now (all_beside place.now.arrays (entries_in element.now)) (W.Kept.flat entry.now.view.now) (placed W.Kept.flat Whole place.now)) }
    ensures keeps { Keeps W.stock W.gave work.old work.new }
{
    let types = compact_types(alloc, entry, element.get("@type"))?;
    let applied = apply_types(alloc, work, entry.view, place.view, types.as_slice())?;
    let made = ready_if(alloc, work, applied, place.view)?;
    let here = Place {
        view: place.view,
        inverse: place.inverse,
        behind: place.behind,
        property: place.property,
        arrays: place.arrays,
    };
    let within = active(&made, &here);
    compact_node(alloc, work, &within, types.as_slice(), element)
}

#[cycle(compact)]
fn compact_node<W: Inverses>(
    alloc: Global,
    work: &mut W,
    place: &Place<'_, W::Kept>,
    types: &[Text],
    element: &Tree,
) -> Result<Tree, Stop>
    requires gave { W.gave work.old place.now.view.now }
    requires stands { Stands W.Kept.flat place.now }
    ensures answer { Answers (W.stock work.old) result (node_becomes place.now.arrays (all_beside place.now.arrays (entries_in element.now)) (seen W.Kept.flat types.now place.now)) }
    ensures keeps { Keeps W.stock W.gave work.old work.new }
{
    match element {
        Tree::Map(entries) => compact_entries(alloc, work, place, types, entries),
        Tree::Null | Tree::Bool(_) | Tree::Num(_) | Tree::Text(_) | Tree::List(_) => {
            Ok(Making::new(alloc).into_map(alloc)?)
        }
    }
}

#[cycle(compact)]
fn compact_entries<W: Inverses>(
    alloc: Global,
    work: &mut W,
    place: &Place<'_, W::Kept>,
    types: &[Text],
    entries: &Entries<Tree>,
) -> Result<Tree, Stop>
    requires gave { W.gave work.old place.now.view.now }
    requires stands { Stands W.Kept.flat place.now }
    ensures answer { Answers (W.stock work.old) result (node_becomes place.now.arrays (all_beside place.now.arrays entries.now) (seen W.Kept.flat types.now place.now)) }
    ensures keeps { Keeps W.stock W.gave work.old work.new }
{
    let mut made = Making::new(alloc);
    for (name, value) in entries.as_slice() {
        add_entry(alloc, work, place, types, name.as_str(), value, &mut made)?;
    }
    Ok(made.into_map(alloc)?)
}

// ---- an entry

// By its name.
#[cycle(compact)]
fn add_entry<W: Inverses>(
    alloc: Global,
    work: &mut W,
    place: &Place<'_, W::Kept>,
    types: &[Text],
    name: &str,
    value: &Tree,
    made: &mut Making,
) -> Result<(), Stop>
    requires gave { W.gave work.old place.now.view.now }
    requires stands { Stands W.Kept.flat place.now }
    ensures answer { AnswersNew (W.stock work.old) result made.new (entry_rule place.now.arrays (seen W.Kept.flat types.now place.now) (entry_beside place.now.arrays (name.now, value.now)) made.old) }
    ensures keeps { Keeps W.stock W.gave work.old work.new }
{
    if name == "@id" {
        return add_id(alloc, place, value, made);
    }
    if name == "@type" {
        return add_types(alloc, place, types, made);
    }
    if name == "@reverse" {
        return add_reverses(alloc, work, place, types, value, made);
    }
    if name == "@index" {
        return add_index(alloc, place, value, made);
    }
    if name == "@language" || name == "@value" {
        let value = value.try_copy(alloc)?;
        return put_under(alloc, place, name, Some(value), made);
    }
    add_items(alloc, work, place, types, name, value, made)
}

// `@reverse`
#[cycle(compact)]
fn add_reverses<W: Inverses>(
    alloc: Global,
    work: &mut W,
    place: &Place<'_, W::Kept>,
    types: &[Text],
    value: &Tree,
    made: &mut Making,
) -> Result<(), Stop>
    requires gave { W.gave work.old place.now.view.now }
    requires stands { Stands W.Kept.flat place.now }
    ensures answer { AnswersNew (W.stock work.old) result made.new (reverse_rule place.now.arrays (seen W.Kept.flat types.now place.now) (beside place.now.arrays value.now) made.old) }
    ensures keeps { Keeps W.stock W.gave work.old work.new }
{
    let within = Place {
        view: place.view,
        inverse: place.inverse,
        behind: place.behind,
        property: Some("@reverse"),
        arrays: place.arrays,
    };
    let compacted = compact_element(alloc, work, &within, value)?;
    add_reversed(alloc, place, compacted, made)
}

// The items under a name.
#[cycle(compact)]
#[tactic(auto, using(crate::proofs::Levels::element_items))]
fn add_items<W: Inverses>(
    alloc: Global,
    work: &mut W,
    place: &Place<'_, W::Kept>,
    types: &[Text],
    name: &str,
    value: &Tree,
    made: &mut Making,
) -> Result<(), Stop>
    requires gave { W.gave work.old place.now.view.now }
    requires stands { Stands W.Kept.flat place.now }
    ensures answer { AnswersNew (W.stock work.old) result made.new (items_rule place.now.arrays (seen W.Kept.flat types.now place.now) name.now (comes_to place.now.arrays value.now).1 made.old) }
    ensures keeps { Keeps W.stock W.gave work.old work.new }
{
    match value {
        Tree::List(items) => add_all(alloc, work, place, types, name, items.as_slice(), made),
        Tree::Null => add_empty(alloc, place, name, made),
        Tree::Bool(_) => add_empty(alloc, place, name, made),
        Tree::Num(_) => add_empty(alloc, place, name, made),
        Tree::Text(_) => add_empty(alloc, place, name, made),
        Tree::Map(_) => add_empty(alloc, place, name, made),
    }
}

#[cycle(compact)]
fn add_all<W: Inverses>(
    alloc: Global,
    work: &mut W,
    place: &Place<'_, W::Kept>,
    types: &[Text],
    name: &str,
    items: &[Tree],
    made: &mut Making,
) -> Result<(), Stop>
    requires gave { W.gave work.old place.now.view.now }
    requires stands { Stands W.Kept.flat place.now }
    ensures answer { AnswersNew (W.stock work.old) result made.new (items_rule place.now.arrays (seen W.Kept.flat types.now place.now) name.now (map (item_beside place.now.arrays) items.now) made.old) }
    ensures keeps { Keeps W.stock W.gave work.old work.new }
{
    if items.is_empty() {
        return add_empty(alloc, place, name, made);
    }
    add_each(alloc, work, place, types, name, items, made)
}

#[cycle(compact)]
fn add_each<W: Inverses>(
    alloc: Global,
    work: &mut W,
    place: &Place<'_, W::Kept>,
    types: &[Text],
    name: &str,
    items: &[Tree],
    made: &mut Making,
) -> Result<(), Stop>
    requires gave { W.gave work.old place.now.view.now }
    requires stands { Stands W.Kept.flat place.now }
    ensures answer { AnswersNew (W.stock work.old) result made.new (each (item_rule place.now.arrays (seen W.Kept.flat types.now place.now) name.now) (map (item_beside place.now.arrays) items.now) made.old) }
    ensures keeps { Keeps W.stock W.gave work.old work.new }
{
    for item in items {
        add_item(alloc, work, place, types, name, item, made)?;
    }
    Ok(())
}

// ---- an item

// Under the name that it gets by itself.
#[cycle(compact)]
fn add_item<W: Inverses>(
    alloc: Global,
    work: &mut W,
    place: &Place<'_, W::Kept>,
    types: &[Text],
    expanded: &str,
    item: &Tree,
    made: &mut Making,
) -> Result<(), Stop>
    requires gave { W.gave work.old place.now.view.now }
    requires stands { Stands W.Kept.flat place.now }
    ensures answer { AnswersNew (W.stock work.old) result made.new (item_rule place.now.arrays (seen W.Kept.flat types.now place.now) expanded.now (item_beside place.now.arrays item.now) made.old) }
    ensures keeps { Keeps W.stock W.gave work.old work.new }
{
    let name = compact_name(alloc, place, item, expanded)?;
    let property = property_of(place, expanded, name.as_str());
    add_under(alloc, work, place, &property, item, made)
}

#[cycle(compact)]
fn add_under<W: Inverses>(
    alloc: Global,
    work: &mut W,
    place: &Place<'_, W::Kept>,
    property: &Property<'_>,
    item: &Tree,
    made: &mut Making,
) -> Result<(), Stop>
    requires gave { W.gave work.old place.now.view.now }
    requires stands { Stands W.Kept.flat place.now }
    ensures answer { AnswersNew (W.stock work.old) result made.new (item_under (W.Kept.flat place.now.view.now) (named property.now) (item_beside place.now.arrays item.now) made.old) }
    ensures keeps { Keeps W.stock W.gave work.old work.new }
{
    let within = Place {
        view: place.view,
        inverse: place.inverse,
        behind: place.behind,
        property: Some(property.name),
        arrays: place.arrays,
    };
    let compacted = compact_by_kind(alloc, work, &within, item)?;
    add_by_kind(alloc, work, place, property, item, compacted, made)
}

// A list or graph object by what it holds.
#[cycle(compact)]
fn compact_by_kind<W: Inverses>(
    alloc: Global,
    work: &mut W,
    place: &Place<'_, W::Kept>,
    item: &Tree,
) -> Result<Tree, Stop>
    requires gave { W.gave work.old place.now.view.now }
    requires stands { Stands W.Kept.flat place.now }
    ensures answer { Answers (W.stock work.old) result ((comes_to place.now.arrays item.now).0 (placed W.Kept.flat (way_of item.now) place.now)) }
    ensures keeps { Keeps W.stock W.gave work.old work.new }
{
    if is_list_object(item) || is_graph_object(item) {
        compact_content(alloc, work, place, item)
    } else {
        compact_element(alloc, work, place, item)
    }
}

#[cycle(compact)]
fn compact_content<W: Inverses>(
    alloc: Global,
    work: &mut W,
    place: &Place<'_, W::Kept>,
    item: &Tree,
) -> Result<Tree, Stop>
    requires gave { W.gave work.old place.now.view.now }
    requires stands { Stands W.Kept.flat place.now }
    ensures answer { Answers (W.stock work.old) result (content_becomes (content_of (all_beside place.now.arrays (entries_in item.now))) (placed W.Kept.flat Whole place.now)) }
    ensures keeps { Keeps W.stock W.gave work.old work.new }
{
    if let Some(list) = compact_named(alloc, work, place, "@list", item)? {
        return Ok(list);
    }
    match compact_named(alloc, work, place, "@graph", item)? {
        Some(graph) => Ok(graph),
        None => Ok(Tree::Null),
    }
}

#[cycle(compact)]
fn add_by_kind<W: Inverses>(
    alloc: Global,
    work: &mut W,
    place: &Place<'_, W::Kept>,
    property: &Property<'_>,
    item: &Tree,
    compacted: Tree,
    made: &mut Making,
) -> Result<(), Stop>
    requires gave { W.gave work.old place.now.view.now }
    requires stands { Stands W.Kept.flat place.now }
    ensures answer { AnswersNew (W.stock work.old) result made.new (item_by_kind (W.Kept.flat place.now.view.now) (named property.now) (item_beside place.now.arrays item.now) compacted made.old) }
    ensures keeps { Keeps W.stock W.gave work.old work.new }
{
    if is_list_object(item) {
        return add_list(alloc, place, property, item, compacted, made);
    }
    if is_graph_object(item) {
        return add_graph(alloc, place, property, item, compacted, made);
    }
    add_node(alloc, work, place, property, item, compacted, made)
}

#[cycle(compact)]
fn add_node<W: Inverses>(
    alloc: Global,
    work: &mut W,
    place: &Place<'_, W::Kept>,
    property: &Property<'_>,
    item: &Tree,
    compacted: Tree,
    made: &mut Making,
) -> Result<(), Stop>
    requires gave { W.gave work.old place.now.view.now }
    requires stands { Stands W.Kept.flat place.now }
    ensures answer { AnswersNew (W.stock work.old) result made.new (node_item (W.Kept.flat place.now.view.now) (named property.now) (item_beside place.now.arrays item.now) compacted made.old) }
    ensures keeps { Keeps W.stock W.gave work.old work.new }
{
    if !is_keyed(&property.containers) {
        return Ok(made.add_value(alloc, property.name, property.as_list, compacted)?);
    }
    let (key, value) = key_item(alloc, work, place, property, item, compacted)?;
    put_keyed(alloc, place, property, key, value, made)
}

// ---- an item's key, and what is left of it

#[cycle(compact)]
fn key_item<W: Inverses>(
    alloc: Global,
    work: &mut W,
    place: &Place<'_, W::Kept>,
    property: &Property<'_>,
    item: &Tree,
    compacted: Tree,
) -> Result<(Option<Text>, Tree), Stop>
    requires gave { W.gave work.old place.now.view.now }
    requires stands { Stands W.Kept.flat place.now }
    ensures answer { Answers (W.stock work.old) result (keyed_item (W.Kept.flat place.now.view.now) (named property.now) (item_beside place.now.arrays item.now) compacted) }
    ensures keeps { Keeps W.stock W.gave work.old work.new }
{
    if !property.containers.language {
        return key_by_containers(alloc, work, place, property, item, compacted);
    }
    match item.get("@value") {
        Some(value) => {
            let language = text_copied(alloc, item.get("@language"))?;
            Ok((language, value.try_copy(alloc)?))
        }
        None => key_by_containers(alloc, work, place, property, item, compacted),
    }
}

#[cycle(compact)]
fn key_by_containers<W: Inverses>(
    alloc: Global,
    work: &mut W,
    place: &Place<'_, W::Kept>,
    property: &Property<'_>,
    item: &Tree,
    compacted: Tree,
) -> Result<(Option<Text>, Tree), Stop>
    requires gave { W.gave work.old place.now.view.now }
    requires stands { Stands W.Kept.flat place.now }
    ensures answer { Answers (W.stock work.old) result (by_containers (W.Kept.flat place.now.view.now) (named property.now) (item_beside place.now.arrays item.now) compacted) }
    ensures keeps { Keeps W.stock W.gave work.old work.new }
{
    if property.containers.index {
        let index = text_copied(alloc, item.get("@index"))?;
        return Ok((index, compacted));
    }
    if property.containers.id {
        return key_by_id(alloc, place, compacted);
    }
    if property.containers.types {
        return key_by_type(alloc, work, place, property, item, compacted);
    }
    Ok((None, compacted))
}

#[cycle(compact)]
fn key_by_type<W: Inverses>(
    alloc: Global,
    work: &mut W,
    place: &Place<'_, W::Kept>,
    property: &Property<'_>,
    item: &Tree,
    compacted: Tree,
) -> Result<(Option<Text>, Tree), Stop>
    requires gave { W.gave work.old place.now.view.now }
    requires stands { Stands W.Kept.flat place.now }
    ensures answer { Answers (W.stock work.old) result (by_type (W.Kept.flat place.now.view.now) (named property.now) (item_beside place.now.arrays item.now) compacted (out-Tree compacted)) }
    ensures keeps { Keeps W.stock W.gave work.old work.new }
{
    match compacted {
        Tree::Map(entries) => {
            let name = alias(alloc, place, "@type")?;
            let (key, rest) = take_type(alloc, name.as_str(), entries)?;
            compact_id_again(alloc, work, place, property, item, key, rest)
        }
        other => Ok((None, other)),
    }
}

// Where an `@id` alone is left, the item's `@id` is compacted again.
#[cycle(compact)]
fn compact_id_again<W: Inverses>(
    alloc: Global,
    work: &mut W,
    place: &Place<'_, W::Kept>,
    property: &Property<'_>,
    item: &Tree,
    key: Option<Text>,
    rest: Tree,
) -> Result<(Option<Text>, Tree), Stop>
    requires gave { W.gave work.old place.now.view.now }
    requires stands { Stands W.Kept.flat place.now }
    ensures answer { Answers (W.stock work.old) result (let keyed : Keyed = (key, rest) in by_id_alone (W.Kept.flat place.now.view.now) (named property.now) (item_beside place.now.arrays item.now) keyed) }
    ensures keeps { Keeps W.stock W.gave work.old work.new }
{
    if !is_id_alone(alloc, place.view, &rest)? {
        return Ok((key, rest));
    }
    let within = Place {
        view: place.view,
        inverse: place.inverse,
        behind: place.behind,
        property: Some(property.name),
        arrays: place.arrays,
    };
    let reference = compact_by_id(alloc, work, &within, item)?;
    Ok((key, reference))
}

#[cycle(compact)]
#[tactic(auto, using(crate::proofs::Levels::element_levels))]
fn compact_by_id<W: Inverses>(
    alloc: Global,
    work: &mut W,
    place: &Place<'_, W::Kept>,
    item: &Tree,
) -> Result<Tree, Stop>
    requires gave { W.gave work.old place.now.view.now }
    requires stands { Stands W.Kept.flat place.now }
    ensures answer { Answers (W.stock work.old) result ((comes_to place.now.arrays item.now).0 (placed W.Kept.flat IdAlone place.now)) }
    ensures keeps { Keeps W.stock W.gave work.old work.new }
{
    match item {
        Tree::Null => Ok(Tree::Null),
        Tree::Bool(b) => Ok(Tree::Bool(*b)),
        Tree::Num(n) => Ok(Tree::Num(*n)),
        Tree::Text(text) => Ok(Tree::Text(text.try_copy(alloc)?)),
        Tree::List(items) => compact_list(alloc, work, place, items),
        Tree::Map(_) => compact_id_alone(alloc, work, place, item),
    }
}

// A node by its `@id` alone: the map of that one entry, compacted.
fn compact_id_alone<W: Inverses>(
    alloc: Global,
    work: &mut W,
    place: &Place<'_, W::Kept>,
    item: &Tree,
) -> Result<Tree, Stop>
    requires gave { W.gave work.old place.now.view.now }
    requires stands { Stands W.Kept.flat place.now }
    ensures answer { Answers (W.stock work.old) result (id_becomes place.now.arrays item.now (all_beside place.now.arrays (entries_in item.now)) (placed W.Kept.flat Whole place.now)) }
    ensures keeps { Keeps W.stock W.gave work.old work.new }
{
    let id = copied(alloc, item.get("@id"))?;
    let only = id_map(alloc, &id)?;
    let before = reverted(work, place, &only);
    let own = property_def(place.view, place.property);
    let applied = apply_scoped(alloc, work, before.view, own, true, true)?;
    let made = ready_if(alloc, work, applied, before.view)?;
    let within = active(&made, &before);
    compact_only(alloc, &within, &id, &only)
}

fn id_map(alloc: Global, id: &Option<Tree>) -> Result<Tree, NoMemory>
    ensures { IfOk result (λ only. only ≡ alone (codes "@id") id.now) }
{
    let mut only = Making::new(alloc);
    if let Some(id) = id {
        only.put(alloc, "@id", id.try_copy(alloc)?)?;
    }
    only.into_map(alloc)
}

// The map of an `@id`, or of nothing, in its context.
fn compact_only<K: View>(
    alloc: Global,
    place: &Place<'_, K>,
    id: &Option<Tree>,
    only: &Tree,
) -> Result<Tree, Stop>
    requires { Stands K.flat place.now }
    ensures { Decides result (only_becomes id.now only.now (placed K.flat Whole place.now)) }
{
    if let Some(value) = value_or_map(alloc, place, only)? {
        return Ok(value);
    }
    let mut made = Making::new(alloc);
    if let Some(id) = id {
        add_id(alloc, place, id, &mut made)?;
    }
    Ok(made.into_map(alloc)?)
}
