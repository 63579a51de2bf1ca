//! The small trees that node maps are made of, and what is read of trees.
ghost use Rattle.std.specs.Prelude.{◌≡◌, ◌+◌, IfOk, OnOk, option_copied};
ghost use Rattle.ld_rec.specs.Words.{text_of, items_of as items_in_tree};
ghost use Rattle.ld_rec.specs.Kinds.{entries_of, one_entry as map_of_one};
ghost use Rattle.ld_tree.specs.Maps.{empty, put as with_put};
ghost use Rattle.ld_nodes.specs.Walks.{blank_name, text_in, types_in, reference, list_object};

use ld_tree::{Entries, Items, NoMemory, Text, Tree};
use std::alloc::Global;
use std::slice;

/// A count that memory can't hold is want of memory.
pub(crate) fn one_more(number: usize) -> Result<usize, NoMemory>
    ensures { IfOk result (λ n. n ≡ number + 1) }
{
    number.checked_add(1).ok_or(NoMemory)
}

pub(crate) fn blank_name(alloc: Global, number: u64) -> Result<Text, NoMemory>
    ensures { IfOk result (λ t. t ≡ blank_name number) }
{
    Ok(Text::from_string(format!(in alloc; "_:b{number}")?))
}

pub(crate) fn text_of(tree: &Tree) -> Option<&Text>
    ensures { option_copied result ≡ text_of tree.now }
{
    match tree {
        Tree::Text(text) => Some(text),
        _ => None,
    }
}

pub(crate) fn text_in(value: Option<&Tree>) -> Option<&Text>
    ensures { option_copied result ≡ text_in (option_copied value.entry) }
{
    match value {
        Some(tree) => text_of(tree),
        None => None,
    }
}

fn items_of(tree: &Tree) -> &[Tree]
    ensures { result.now ≡ items_in_tree tree.now }
{
    match tree {
        Tree::List(items) => items.as_slice(),
        _ => slice::from_ref(tree),
    }
}

/// The types that stand there: one, several or none.
pub(crate) fn types_in(value: Option<&Tree>) -> &[Tree]
    ensures { result.now ≡ types_in (option_copied value.entry) }
{
    match value {
        Some(types) => items_of(types),
        None => &[],
    }
}

pub(crate) fn no_entries(alloc: Global) -> Entries<Tree>
    ensures { result ≡ empty }
{
    Entries::new(alloc)
}

/// A map's entries, and none of what is no map.
pub(crate) fn into_entries(alloc: Global, tree: Tree) -> Entries<Tree>
    ensures { result ≡ entries_of tree }
{
    match tree {
        Tree::Map(entries) => entries,
        _ => no_entries(alloc),
    }
}

pub(crate) fn put_entry(
    entries: &mut Entries<Tree>,
    name: Text,
    value: Tree,
) -> Result<(), NoMemory>
    ensures { OnOk result (entries.new ≡ with_put entries.old name value) }
{
    match entries.put(name, value) {
        Ok(_) => Ok(()),
        Err((_, _, e)) => Err(e),
    }
}

fn put_named(
    alloc: Global,
    entries: &mut Entries<Tree>,
    name: &str,
    value: Tree,
) -> Result<(), NoMemory>
    ensures { OnOk result (entries.new ≡ with_put entries.old name.now value) }
{
    put_entry(entries, Text::from_str(alloc, name)?, value)
}

fn one_entry(alloc: Global, name: &str, value: Tree) -> Result<Tree, NoMemory>
    ensures { IfOk result (λ tree. tree ≡ map_of_one name.now value) }
{
    let mut entries = no_entries(alloc);
    put_named(alloc, &mut entries, name, value)?;
    Ok(Tree::Map(entries))
}

/// A node object that has only its identifier.
pub(crate) fn reference(alloc: Global, id: &Text) -> Result<Tree, NoMemory>
    ensures { IfOk result (λ t. t ≡ reference id.now) }
{
    one_entry(alloc, "@id", Tree::Text(id.try_copy(alloc)?))
}

pub(crate) fn list_object(alloc: Global, items: Items<Tree>) -> Result<Tree, NoMemory>
    ensures { IfOk result (λ t. t ≡ list_object items) }
{
    one_entry(alloc, "@list", Tree::List(items))
}
