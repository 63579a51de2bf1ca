ghost use Rattle.std.specs.Prelude.{◌≡◌, IfOk, OnOk, ◌++◌, ◌∷◌, [], filter_map, option_to_list};
ghost use Rattle.std.specs.List.{list_all};
ghost use Rattle.ld_rec.specs.Outcome.{Gives, GivesAs};
ghost use Rattle.ld_rec.specs.Kinds.{text_tree as tree_of_text};
ghost use Rattle.ld_rec.specs.Values.{tagged_value as value_with, language_key, language_map, language_entry, language_item, is_language_entry, is_language_item};
ghost use Rattle.ld_expand_value.specs.Adding.{added};

use crate::making::text_tree;
use crate::value::tagged_value;
use ld_codes::Code;
use ld_ctx::{Stop, View, means};
use ld_tree::{Entries, Items, NoMemory, Text, Tree};
use std::alloc::Global;
use std::slice;

/// The items of a language map (JSON-LD 1.1 API, 5.1.2, 13.7), in the order of its names: each text with its
/// language, none where the name is `@none` or expands to it. What is neither a text nor null is refused as
/// `invalid language map value`.
pub fn language_map<V: View>(
    alloc: Global,
    ctx: &V,
    map: &Entries<Tree>,
) -> Result<Items<Tree>, Stop>
    ensures { Gives result (language_map (V.flat ctx.now) map.now) }
{
    let mut items = Vec::with_capacity(alloc, map.as_slice().len())?;
    for (key, value) in map.as_slice() {
        add_entry(alloc, ctx, key.as_str(), value, &mut items)?;
    }
    Ok(Items::from_vec(items))
}

fn add_entry<V: View>(
    alloc: Global,
    ctx: &V,
    key: &str,
    value: &Tree,
    items: &mut Vec<Tree>,
) -> Result<(), Stop>
    ensures { GivesAs (λ _. items.new.items) result (added (is_language_entry (key.now, value.now)) items.old.items (language_entry (V.flat ctx.now) (key.now, value.now))) }
{
    let tag = language_key(alloc, ctx, key)?;
    match value {
        Tree::List(values) => add_items(alloc, &tag, values.as_slice(), items),
        _ => add_items(alloc, &tag, slice::from_ref(value), items),
    }
}

fn language_key<V: View>(alloc: Global, ctx: &V, key: &str) -> Result<Option<Text>, NoMemory>
    ensures { IfOk result (λ tag. tag ≡ language_key (V.flat ctx.now) key.now) }
{
    if means(alloc, ctx, "@none", key)? {
        Ok(None)
    } else {
        Ok(Some(Text::from_string(key.to_ascii_lowercase(alloc)?)))
    }
}

fn add_items(
    alloc: Global,
    tag: &Option<Text>,
    values: &[Tree],
    items: &mut Vec<Tree>,
) -> Result<(), Stop>
    ensures { GivesAs (λ _. items.new.items) result (added (list_all is_language_item values.now) items.old.items (filter_map (language_item tag.now) values.now)) }
{
    for value in values {
        add_item(alloc, tag, value, items)?;
    }
    Ok(())
}

fn add_item(
    alloc: Global,
    tag: &Option<Text>,
    value: &Tree,
    items: &mut Vec<Tree>,
) -> Result<(), Stop>
    ensures { GivesAs (λ _. items.new.items) result (added (is_language_item value.now) items.old.items (option_to_list (language_item tag.now value.now))) }
{
    match value {
        Tree::Null => Ok(()),
        Tree::Text(text) => Ok(add_text(alloc, tag, text.as_str(), items)?),
        _ => Err(Stop::Code(Code::InvalidLanguageMapValue)),
    }
}

fn add_text(
    alloc: Global,
    tag: &Option<Text>,
    text: &str,
    items: &mut Vec<Tree>,
) -> Result<(), NoMemory>
    ensures { OnOk result (items.new.items ≡ items.old.items ++ value_with (tree_of_text text.now) tag.now ∷ []) }
{
    items.push(tagged_text(alloc, tag, text)?)?;
    Ok(())
}

fn tagged_text(alloc: Global, tag: &Option<Text>, text: &str) -> Result<Tree, NoMemory>
    ensures { IfOk result (λ tree. tree ≡ value_with (tree_of_text text.now) tag.now) }
{
    let value = text_tree(alloc, text)?;
    match tag {
        Some(tag) => tagged_value(alloc, value, Some(tag.as_str())),
        None => tagged_value(alloc, value, None),
    }
}
