//! The end of a map (JSON-LD 1.1 API, 5.1.2, 15 to 20), and of a document (9.1, `expand`).
ghost use Rattle.std.specs.Prelude.{◌≡◌, ◌∷◌, [], IfOk, OnOk, true, Some, None, option_copied, option_map, codes, if◌then◌else◌};
ghost use Rattle.ld_tree.specs.Maps.{find};
ghost use Rattle.ld_rec.specs.Outcome.{Stock};
ghost use Rattle.ld_rec.specs.Words.{has, names_are_among};
ghost use Rattle.ld_rec.specs.Kinds.{map_of};
ghost use Rattle.ld_rec.specs.Expansion.{ended, object_of as object_in, value_object, plain_value, is_mixed as mixes, is_json_literal as holds_literal, is_typed_well as has_datatype, value_names, listed_types, set_or_list as set_or_list_in, is_alone as stands_alone, floats_free as floats, is_dropped as drops, unless_dropped as kept_of, unwrapped as unwrap, as_list as list_from};
ghost use Rattle.ld_expand.specs.Steps.{Decides, AnswersAs};

use crate::making::{Making, as_list, into_items};
use crate::place::held_by;
use ld_codes::Code;
use ld_ctx::Stop;
use ld_expand_value::making::{put, replace};
use ld_iri::is_iri;
use ld_tree::{Entries, Items, NoMemory, Tree};
use std::alloc::Global;

/// What the entries of a map come to under the active property; `None` is null.
pub fn end_map(alloc: Global, property: Option<&str>, made: Making) -> Result<Option<Tree>, Stop>
    ensures { Decides result (ended (option_copied property.entry) made) }
{
    let entries = made.into_entries(alloc)?;
    match object_of(alloc, entries)? {
        Some(tree) => Ok(unless_dropped(property, tree)),
        None => Ok(None),
    }
}

// 18 and 19
fn unless_dropped(property: Option<&str>, tree: Tree) -> Option<Tree>
    ensures { result ≡ kept_of (option_copied property.entry) tree }
{
    if is_dropped(property, &tree) {
        None
    } else {
        Some(tree)
    }
}

fn is_dropped(property: Option<&str>, tree: &Tree) -> bool
    ensures { result ≡ drops (option_copied property.entry) tree.now }
{
    match tree {
        Tree::Map(entries) => {
            is_alone("@language", entries) || (held_by(property).is_none() && floats_free(entries))
        }
        _ => false,
    }
}

fn is_alone(name: &str, entries: &Entries<Tree>) -> bool
    ensures { result ≡ stands_alone name.now entries.now }
{
    entries.as_slice().len() == 1 && entries.get(name).is_some()
}

fn floats_free(entries: &Entries<Tree>) -> bool
    ensures { result ≡ floats entries.now }
{
    entries.as_slice().len() == 0
        || entries.get("@value").is_some()
        || entries.get("@list").is_some()
        || is_alone("@id", entries)
}

// 15 to 17
fn object_of(alloc: Global, entries: Entries<Tree>) -> Result<Option<Tree>, Stop>
    ensures { Decides result (object_in (find entries (codes "@value")) entries) }
{
    match entries.get("@value") {
        Some(value) => {
            if keeps_value(value, &entries)? {
                Ok(Some(Tree::Map(entries)))
            } else {
                Ok(None)
            }
        }
        None => set_or_list(alloc, entries),
    }
}

// 15: whether a value object stays, or is null.
fn keeps_value(value: &Tree, entries: &Entries<Tree>) -> Result<bool, Stop>
    ensures { (stock : Stock) → AnswersAs (λ keeps. if keeps then Some (map_of entries.now) else None) stock result (value_object value.now entries.now) }
{
    if is_mixed(entries) {
        return Err(Stop::Code(Code::InvalidValueObject));
    }
    if is_json_literal(entries) {
        return Ok(true);
    }
    keeps_plain_value(value, entries)
}

// 15.3 to 15.5
fn keeps_plain_value(value: &Tree, entries: &Entries<Tree>) -> Result<bool, Stop>
    ensures { (stock : Stock) → AnswersAs (λ keeps. if keeps then Some (map_of entries.now) else None) stock result (plain_value value.now entries.now) }
{
    if matches!(value, Tree::Null) {
        return Ok(false);
    }
    if entries.get("@language").is_some() && !matches!(value, Tree::Text(_)) {
        return Err(Stop::Code(Code::InvalidLanguageTaggedValue));
    }
    if is_typed_well(entries.get("@type")) {
        Ok(true)
    } else {
        Err(Stop::Code(Code::InvalidTypedValue))
    }
}

// 15.1
fn is_mixed(entries: &Entries<Tree>) -> bool
    ensures { result ≡ mixes entries.now }
{
    !are_value_names(entries)
        || (entries.get("@type").is_some() && entries.get("@language").is_some())
}

fn are_value_names(entries: &Entries<Tree>) -> bool
    ensures { result ≡ names_are_among value_names entries.now }
{
    for (name, _) in entries.as_slice() {
        if !matches!(name.as_str(), "@index" | "@language" | "@type" | "@value") {
            return false;
        }
    }
    true
}

// 15.2
fn is_json_literal(entries: &Entries<Tree>) -> bool
    ensures { result ≡ holds_literal entries.now }
{
    match entries.get("@type") {
        Some(Tree::Text(datatype)) => datatype.as_str() == "@json",
        _ => false,
    }
}

// 15.5
fn is_typed_well(datatype: Option<&Tree>) -> bool
    ensures { result ≡ has_datatype (option_copied datatype.entry) }
{
    match datatype {
        Some(Tree::Text(datatype)) => is_iri(datatype.as_str()),
        Some(_) => false,
        None => true,
    }
}

// 16 and 17
fn set_or_list(alloc: Global, entries: Entries<Tree>) -> Result<Option<Tree>, Stop>
    ensures { Decides result (set_or_list_in (find entries (codes "@set")) (listed_types entries)) }
{
    let mut entries = entries;
    list_types(alloc, &mut entries)?;
    end_listed(entries)
}

// 17
fn end_listed(entries: Entries<Tree>) -> Result<Option<Tree>, Stop>
    ensures { Decides result (set_or_list_in (find entries (codes "@set")) entries) }
{
    if entries.get("@set").is_some() {
        return set_value(entries);
    }
    if entries.get("@list").is_some() && !are_list_names(&entries) {
        return Err(Stop::Code(Code::InvalidSetOrListObject));
    }
    Ok(Some(Tree::Map(entries)))
}

// 17.2: a set gives its value.
fn set_value(entries: Entries<Tree>) -> Result<Option<Tree>, Stop>
    requires { has entries (codes "@set") ≡ true }
    ensures { Decides result (set_or_list_in (find entries (codes "@set")) entries) }
{
    if !are_set_names(&entries) {
        return Err(Stop::Code(Code::InvalidSetOrListObject));
    }
    let mut entries = entries;
    match entries.take_out("@set") {
        Some(Tree::Null) => Ok(None),
        value => Ok(value),
    }
}

fn are_set_names(entries: &Entries<Tree>) -> bool
    ensures { result ≡ names_are_among (codes "@index" ∷ codes "@set" ∷ []) entries.now }
{
    for (name, _) in entries.as_slice() {
        if !matches!(name.as_str(), "@index" | "@set") {
            return false;
        }
    }
    true
}

// 17.1
fn are_list_names(entries: &Entries<Tree>) -> bool
    ensures { result ≡ names_are_among (codes "@index" ∷ codes "@list" ∷ []) entries.now }
{
    for (name, _) in entries.as_slice() {
        if !matches!(name.as_str(), "@index" | "@list") {
            return false;
        }
    }
    true
}

// 16. The types are moved out of the map while their list is made.
fn list_types(alloc: Global, entries: &mut Entries<Tree>) -> Result<(), NoMemory>
    ensures { OnOk result (entries.new ≡ listed_types entries.old) }
{
    if entries.get("@type").is_none() {
        return Ok(());
    }
    match replace(alloc, entries, "@type", Tree::Null)? {
        Some(types) => {
            let types = into_items(alloc, types)?;
            put(alloc, entries, "@type", Tree::List(Items::from_vec(types)))
        }
        None => Ok(()),
    }
}

/// A document's expansion: a map of `@graph` alone gives its value, and the result is a list.
pub fn end_document(alloc: Global, tree: Option<Tree>) -> Result<Tree, NoMemory>
    ensures { IfOk result (λ list. list ≡ list_from (option_map unwrap tree)) }
{
    match tree {
        Some(tree) => as_list(alloc, Some(unwrapped(tree))),
        None => as_list(alloc, None),
    }
}

fn unwrapped(tree: Tree) -> Tree
    ensures { result ≡ unwrap tree }
{
    match tree {
        Tree::Map(entries) => {
            if !is_alone("@graph", &entries) {
                return Tree::Map(entries);
            }
            let mut entries = entries;
            match entries.take_out("@graph") {
                Some(graph) => graph,
                None => Tree::Map(entries),
            }
        }
        other => other,
    }
}
