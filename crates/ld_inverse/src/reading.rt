//! What is read of a value in expanded form.
ghost use Rattle.std.specs.Prelude.{◌≡◌, ◌∷◌, [], option_copied, codes};
ghost use Rattle.ld_rec.specs.Kinds.{has_entry, is_graph_object, is_list_object, is_value_object};
ghost use Rattle.ld_rec.specs.Words.{names_are_among};
ghost use Rattle.ld_rec.specs.Wishes.{has_index, is_empty_list, is_value_alone, items_of_list, text_at};

use ld_tree::{Entries, Tree};

pub fn has(value: &Tree, name: &str) -> bool
    ensures { result ≡ has_entry name.now value.now }
{
    value.get(name).is_some()
}

pub fn has_index(value: &Tree) -> bool
    ensures { result ≡ has_index value.now }
{
    has(value, "@index")
}

pub fn is_value_object(value: &Tree) -> bool
    ensures { result ≡ is_value_object value.now }
{
    has(value, "@value")
}

pub fn is_list_object(value: &Tree) -> bool
    ensures { result ≡ is_list_object value.now }
{
    has(value, "@list")
}

/// The text under the name, where there is one.
pub fn text_at<'a>(value: &'a Tree, name: &str) -> Option<&'a str>
    ensures { option_copied result ≡ text_at name.now value.now }
{
    match value.get(name) {
        Some(Tree::Text(text)) => Some(text.as_str()),
        _ => None,
    }
}

/// The items of a list object.
pub fn items_of_list(value: &Tree) -> &[Tree]
    ensures { result.now ≡ items_of_list value.now }
{
    match value.get("@list") {
        Some(Tree::List(items)) => items.as_slice(),
        _ => &[],
    }
}

pub fn is_empty_list(value: &Tree) -> bool
    ensures { result ≡ is_empty_list value.now }
{
    is_list_object(value) && items_of_list(value).len() == 0
}

fn are_graph_names(entries: &Entries<Tree>) -> bool
    ensures { result ≡ names_are_among (codes "@graph" ∷ codes "@id" ∷ codes "@index" ∷ []) entries.now }
{
    for (name, _) in entries.as_slice() {
        if !matches!(name.as_str(), "@graph" | "@id" | "@index") {
            return false;
        }
    }
    true
}

pub fn is_graph_object(value: &Tree) -> bool
    ensures { result ≡ is_graph_object value.now }
{
    match value {
        Tree::Map(entries) => entries.get("@graph").is_some() && are_graph_names(entries),
        _ => false,
    }
}

/// Whether there is nothing but `@id` and `@index`.
pub fn are_reference_names(entries: &Entries<Tree>) -> bool
    ensures { result ≡ names_are_among (codes "@id" ∷ codes "@index" ∷ []) entries.now }
{
    for (name, _) in entries.as_slice() {
        if !matches!(name.as_str(), "@id" | "@index") {
            return false;
        }
    }
    true
}

/// Whether the value has `@value` and nothing else.
pub fn is_value_alone(value: &Tree) -> bool
    ensures { result ≡ is_value_alone value.now }
{
    match value {
        Tree::Map(entries) => { entries.get("@value").is_some() && entries.as_slice().len() == 1 }
        _ => false,
    }
}
