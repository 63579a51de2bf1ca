//! Maps, made from what stands in them.
ghost use Rattle.std.specs.Prelude.{◌≡◌, IfOk, OnOk};
ghost use Rattle.ld_tree.specs.Maps.{empty as no_entries, find, put as with_put};
ghost use Rattle.ld_rec.specs.Kinds.{one_entry as map_of_one, two_entries as map_of_two, text_tree as tree_of_text};

use ld_tree::{Entries, NoMemory, Text, Tree};
use std::alloc::Global;

/// The map without an entry.
pub fn empty(alloc: Global) -> Entries<Tree>
    ensures { result ≡ no_entries }
{
    Entries::new(alloc)
}

/// Puts one entry and gives what stood under the name.
pub fn replace(
    alloc: Global,
    entries: &mut Entries<Tree>,
    name: &str,
    value: Tree,
) -> Result<Option<Tree>, NoMemory>
    ensures former { IfOk result (λ former. former ≡ find entries.old name.now) }
    ensures entries { OnOk result (entries.new ≡ with_put entries.old name.now value) }
{
    match entries.put(Text::from_str(alloc, name)?, value) {
        Ok(former) => Ok(former),
        Err(_) => Err(NoMemory),
    }
}

/// Puts one entry in place of a former one.
pub fn put(
    alloc: Global,
    entries: &mut Entries<Tree>,
    name: &str,
    value: Tree,
) -> Result<(), NoMemory>
    ensures { OnOk result (entries.new ≡ with_put entries.old name.now value) }
{
    let _ = replace(alloc, entries, name, value)?;
    Ok(())
}

/// The text, copied into a tree.
pub fn text_tree(alloc: Global, text: &str) -> Result<Tree, NoMemory>
    ensures { IfOk result (λ tree. tree ≡ tree_of_text text.now) }
{
    Ok(Tree::Text(Text::from_str(alloc, text)?))
}

/// The map of one entry.
pub fn one_entry(alloc: Global, name: &str, value: Tree) -> Result<Tree, NoMemory>
    ensures { IfOk result (λ tree. tree ≡ map_of_one name.now value) }
{
    let mut entries = empty(alloc);
    put(alloc, &mut entries, name, value)?;
    Ok(Tree::Map(entries))
}

/// The map of two entries.
pub fn two_entries(
    alloc: Global,
    name: &str,
    value: Tree,
    other_name: &str,
    other: Tree,
) -> Result<Tree, NoMemory>
    ensures { IfOk result (λ tree. tree ≡ map_of_two name.now value other_name.now other) }
{
    let mut entries = empty(alloc);
    put(alloc, &mut entries, name, value)?;
    put(alloc, &mut entries, other_name, other)?;
    Ok(Tree::Map(entries))
}
