//! Names in the result, and the entries of keywords (JSON-LD 1.1 API, 6.1.2, 12.1 to 12.6): what asks for no context.
ghost use Rattle.std.specs.Prelude.{◌≡◌, ◌∷◌, ◌++◌, [], IfOk, OnOk, option_copied, map};
ghost use Rattle.ld_tree.specs.Maps.{empty};
ghost use Rattle.ld_tree.specs.Names.{Sorted};
ghost use Rattle.ld_rec.specs.Compacting.{compact_iri as iri_compaction};
ghost use Rattle.ld_rec.specs.Kinds.{list_of, text_tree, entries_of as entries_in_tree};
ghost use Rattle.ld_rec.specs.Places.{is_reverse as is_reverse_def};
ghost use Rattle.ld_rec.specs.Words.{text_of, items_of as items_in_tree};
ghost use Rattle.ld_compact.specs.Adding.{items_at};
ghost use Rattle.ld_compact.specs.Compaction.{told, alias as name_of, compact_id as with_id, compact_name as with_name, put_under as with_under, id_tree as tree_of_id, id_rule, type_rule, index_rule, reversed, turned as turned_in, put_rest as with_rest, add_type as with_type, compacted_types as types_of, empty_rule, text_in as text_within};
ghost use Rattle.ld_compact.specs.Standing.{Stands};
ghost use Rattle.ld_compact.specs.Steps.{Decides, DecidesAs, DecidesNew, seen};

use crate::making::{Making, entries_of, put_in};
use crate::place::{Place, containers_at, containers_of, is_in_reverse, wants_list};
use ld_ctx::{Def, Stop, View};
use ld_inverse::compact_iri;
use ld_tree::{Entries, Items, NameMap, NoMemory, Text, Tree};
use std::alloc::Global;
use std::slice;

/// What an IRI comes to in the place's context.
pub fn compact<K: View>(
    alloc: Global,
    place: &Place<'_, K>,
    iri: &str,
    value: Option<&Tree>,
    vocab: bool,
    reverse: bool,
) -> Result<Text, Stop>
    requires { Stands K.flat place.now }
    ensures { Decides result (told (iri_compaction (K.flat place.now.view.now) iri.now (option_copied value.entry) vocab reverse)) }
{
    compact_iri(alloc, place.view, place.inverse, iri, value, vocab, reverse)
}

/// A keyword's name in the result.
pub fn alias<K: View>(alloc: Global, place: &Place<'_, K>, keyword: &str) -> Result<Text, Stop>
    requires { Stands K.flat place.now }
    ensures { Decides result (name_of (K.flat place.now.view.now) keyword.now) }
{
    compact(alloc, place, keyword, None, true, false)
}

/// An identifier, relative to the base.
pub fn compact_id<K: View>(alloc: Global, place: &Place<'_, K>, id: &str) -> Result<Text, Stop>
    requires { Stands K.flat place.now }
    ensures { Decides result (with_id (K.flat place.now.view.now) id.now) }
{
    compact(alloc, place, id, None, false, false)
}

/// The name of a property, for a value.
pub fn compact_name<K: View>(
    alloc: Global,
    place: &Place<'_, K>,
    value: &Tree,
    name: &str,
) -> Result<Text, Stop>
    requires { Stands K.flat place.now }
    ensures { Decides result (with_name (seen K.flat [] place.now) value.now name.now) }
{
    let reverse = is_in_reverse(place.property);
    compact(alloc, place, name, Some(value), true, reverse)
}

/// Puts the value under the keyword's alias, where there is one.
pub fn put_under<K: View>(
    alloc: Global,
    place: &Place<'_, K>,
    keyword: &str,
    value: Option<Tree>,
    made: &mut Making,
) -> Result<(), Stop>
    requires { Stands K.flat place.now }
    ensures { DecidesNew result made.new (with_under (K.flat place.now.view.now) keyword.now value made.old) }
{
    match value {
        Some(value) => {
            let name = alias(alloc, place, keyword)?;
            Ok(made.put(alloc, name.as_str(), value)?)
        }
        None => Ok(()),
    }
}

pub fn copied(alloc: Global, value: Option<&Tree>) -> Result<Option<Tree>, NoMemory>
    ensures { IfOk result (λ copy. copy ≡ option_copied value.entry) }
{
    match value {
        Some(value) => Ok(Some(value.try_copy(alloc)?)),
        None => Ok(None),
    }
}

/// The compacted identifier, where the value is a text.
pub fn id_tree<K: View>(
    alloc: Global,
    place: &Place<'_, K>,
    id: Option<&Tree>,
) -> Result<Option<Tree>, Stop>
    requires { Stands K.flat place.now }
    ensures { Decides result (tree_of_id (K.flat place.now.view.now) (text_within (option_copied id.entry))) }
{
    match id {
        Some(Tree::Text(text)) => {
            let id = compact_id(alloc, place, text.as_str())?;
            Ok(Some(Tree::Text(id)))
        }
        _ => Ok(None),
    }
}

/// `@id`
pub fn add_id<K: View>(
    alloc: Global,
    place: &Place<'_, K>,
    value: &Tree,
    made: &mut Making,
) -> Result<(), Stop>
    requires { Stands K.flat place.now }
    ensures { DecidesNew result made.new (id_rule (K.flat place.now.view.now) value.now made.old) }
{
    let id = id_tree(alloc, place, Some(value))?;
    put_under(alloc, place, "@id", id, made)
}

/// `@type`, whose texts are compacted.
pub fn add_types<K: View>(
    alloc: Global,
    place: &Place<'_, K>,
    types: &[Text],
    made: &mut Making,
) -> Result<(), Stop>
    requires { Stands K.flat place.now }
    ensures { DecidesNew result made.new (type_rule place.now.arrays (seen K.flat types.now place.now) made.old) }
{
    let name = alias(alloc, place, "@type")?;
    let containers = containers_of(place.view.def(name.as_str()));
    let as_list = wants_list(place.arrays, &containers);
    let types = texts_tree(alloc, types)?;
    Ok(made.add_value(alloc, name.as_str(), as_list, types)?)
}

fn texts_tree(alloc: Global, texts: &[Text]) -> Result<Tree, NoMemory>
    ensures { IfOk result (λ tree. tree ≡ list_of (map text_tree texts.now)) }
{
    let mut items = Vec::with_capacity(alloc, texts.len())?;
    for text in texts {
        items.push(Tree::Text(text.try_copy(alloc)?))?;
    }
    Ok(Tree::List(Items::from_vec(items)))
}

/// `@index`, which a container of indexes has already.
pub fn add_index<K: View>(
    alloc: Global,
    place: &Place<'_, K>,
    value: &Tree,
    made: &mut Making,
) -> Result<(), Stop>
    requires { Stands K.flat place.now }
    ensures { DecidesNew result made.new (index_rule (seen K.flat [] place.now) value.now made.old) }
{
    if containers_at(place).index {
        return Ok(());
    }
    let value = value.try_copy(alloc)?;
    put_under(alloc, place, "@index", Some(value), made)
}

/// The compacted reverse map: what is under a reverse property goes to the result, and the rest stays.
pub fn add_reversed<K: View>(
    alloc: Global,
    place: &Place<'_, K>,
    compacted: Tree,
    made: &mut Making,
) -> Result<(), Stop>
    requires { Stands K.flat place.now }
    ensures { DecidesNew result made.new (reversed place.now.arrays (K.flat place.now.view.now) compacted made.old) }
{
    let entries = into_entries(alloc, compacted);
    let mut rest = NameMap::new(alloc);
    turn(alloc, place, entries, made, &mut rest)?;
    put_rest(alloc, place, rest, made)
}

fn into_entries(alloc: Global, tree: Tree) -> Entries<Tree>
    ensures { result ≡ entries_in_tree tree }
{
    match tree {
        Tree::Map(entries) => entries,
        Tree::Null => no_entries(alloc),
        Tree::Bool(_) => no_entries(alloc),
        Tree::Num(_) => no_entries(alloc),
        Tree::Text(_) => no_entries(alloc),
        Tree::List(_) => no_entries(alloc),
    }
}

fn no_entries(alloc: Global) -> Entries<Tree>
    ensures { result ≡ empty }
{
    Entries::new(alloc)
}

fn turn<K: View>(
    alloc: Global,
    place: &Place<'_, K>,
    entries: Entries<Tree>,
    made: &mut Making,
    rest: &mut NameMap<Tree>,
) -> Result<(), NoMemory>
    ensures { OnOk result (let both : Sorted Tree × Sorted Tree = (made.new, rest.new) in both ≡ turned_in place.now.arrays (K.flat place.now.view.now) entries.0 made.old rest.old) }
{
    for (name, value) in entries.into_vec() {
        turn_one(alloc, place, name, value, made, rest)?;
    }
    Ok(())
}

fn turn_one<K: View>(
    alloc: Global,
    place: &Place<'_, K>,
    name: Text,
    value: Tree,
    made: &mut Making,
    rest: &mut NameMap<Tree>,
) -> Result<(), NoMemory>
    ensures { OnOk result (let both : Sorted Tree × Sorted Tree = (made.new, rest.new) in both ≡ turned_in place.now.arrays (K.flat place.now.view.now) ((name, value) ∷ []) made.old rest.old) }
{
    let def = place.view.def(name.as_str());
    if is_reverse(def) {
        let as_list = wants_list(place.arrays, &containers_of(def));
        made.add_value(alloc, name.as_str(), as_list, value)
    } else {
        put_in(rest, name, value)
    }
}

fn is_reverse(def: Option<&Def>) -> bool
    ensures { result ≡ is_reverse_def (option_copied def.entry) }
{
    match def {
        Some(def) => def.reverse,
        None => false,
    }
}

fn put_rest<K: View>(
    alloc: Global,
    place: &Place<'_, K>,
    rest: NameMap<Tree>,
    made: &mut Making,
) -> Result<(), Stop>
    requires { Stands K.flat place.now }
    ensures { DecidesNew result made.new (with_rest (K.flat place.now.view.now) (made.old, rest)) }
{
    if rest.len() == 0 {
        return Ok(());
    }
    let rest = Tree::Map(entries_of(alloc, rest)?);
    put_under(alloc, place, "@reverse", Some(rest), made)
}

/// A property without values.
pub fn add_empty<K: View>(
    alloc: Global,
    place: &Place<'_, K>,
    expanded: &str,
    made: &mut Making,
) -> Result<(), Stop>
    requires { Stands K.flat place.now }
    ensures { DecidesNew result made.new (empty_rule (seen K.flat [] place.now) expanded.now made.old) }
{
    let none = Tree::List(Items::new(alloc));
    let name = compact_name(alloc, place, &none, expanded)?;
    Ok(made.add_value(alloc, name.as_str(), true, none)?)
}

/// The types, compacted; what is no text is none.
pub fn compact_types<K: View>(
    alloc: Global,
    place: &Place<'_, K>,
    types: Option<&Tree>,
) -> Result<Vec<Text>, Stop>
    requires { Stands K.flat place.now }
    ensures { DecidesAs (λ texts. texts.items) result (types_of (K.flat place.now.view.now) (items_at (option_copied types.entry))) }
{
    match types {
        Some(types) => compact_all_types(alloc, place, items_of(types)),
        None => Ok(Vec::new(alloc)),
    }
}

fn compact_all_types<K: View>(
    alloc: Global,
    place: &Place<'_, K>,
    types: &[Tree],
) -> Result<Vec<Text>, Stop>
    requires { Stands K.flat place.now }
    ensures { DecidesAs (λ texts. texts.items) result (types_of (K.flat place.now.view.now) types.now) }
{
    let mut texts = Vec::new(alloc);
    for value in types {
        push_type(alloc, place, value, &mut texts)?;
    }
    Ok(texts)
}

/// A list's items, and what is no list as the one item of a list.
pub fn items_of(tree: &Tree) -> &[Tree]
    ensures { result.now ≡ items_in_tree tree.now }
{
    match tree {
        Tree::List(items) => items.as_slice(),
        _ => slice::from_ref(tree),
    }
}

fn push_type<K: View>(
    alloc: Global,
    place: &Place<'_, K>,
    value: &Tree,
    texts: &mut Vec<Text>,
) -> Result<(), Stop>
    requires { Stands K.flat place.now }
    ensures { DecidesNew result texts.new.items (with_type (K.flat place.now.view.now) (text_of value.now) texts.old.items) }
{
    match value {
        Tree::Text(text) => {
            let name = compact(alloc, place, text.as_str(), None, true, false)?;
            Ok(push_text(texts, name)?)
        }
        _ => Ok(()),
    }
}

fn push_text(texts: &mut Vec<Text>, text: Text) -> Result<(), NoMemory>
    ensures { OnOk result (texts.new.items ≡ texts.old.items ++ text ∷ []) }
{
    texts.push(text)?;
    Ok(())
}
