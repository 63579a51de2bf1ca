//! A result at work (JSON-LD 1.1 API, 5.1.2, 12): entries come in any order, and items are added to those that
//! a name has, each time in logarithmic time.
ghost use Rattle.std.specs.Prelude.{◌≡◌, ◌++◌, ◌∷◌, [], IfOk, OnOk, option_map};
ghost use Rattle.ld_tree.specs.Maps.{empty as no_entries, find, put as with_put};
ghost use Rattle.ld_rec.specs.Words.{has as holds, items_of as items_in_tree};
ghost use Rattle.ld_rec.specs.Kinds.{list_of};
ghost use Rattle.ld_rec.specs.Expansion.{items_in, as_list as list_from, add_items as with_items, add_reverse as with_reverse, put_types as with_types, join_types, reverse_map_in};
ghost use Rattle.ld_expand.specs.Slots.{tree_in as tree_of_slot, result_of};

use ld_tree::{Entries, Items, NameMap, NoMemory, Text, Tree};
use std::alloc::Global;
use std::marker::Model;
use std::slice;

// What stands under a name: a tree, or a map at work.
#[derive(Debug, Drop)]
pub enum Slot {
    Settled(Tree),
    Open(NameMap<Tree>),
}

/// The entries of a map that is being expanded.
#[derive(Debug, Drop)]
pub struct Making {
    slots: NameMap<Slot>,
}

impl Model for Making {
    ghost use Rattle.ld_tree.specs.Names.{Sorted, sorted_code};
    ghost use Rattle.ld_tree.specs.declared.tree.Tree.{Tree};
    ghost use Rattle.ld_tree.specs.contracts.tree.Tree as tree;
    ghost use Rattle.ld_expand.specs.Slots.{result_of};

    ghost Value = { Sorted Tree };

    ghost coded = { sorted_code tree.the_row.coded };

    ghost view = { λ m. result_of m.slots };
}

impl Making {
    pub fn new(alloc: Global) -> Making
        ensures { result ≡ no_entries }
    {
        Making {
            slots: NameMap::new(alloc),
        }
    }

    pub fn has(&self, name: &str) -> bool
        ensures { result ≡ holds self.now name.now }
    {
        self.slots.get(name).is_some()
    }

    /// Puts one entry in place of a former one.
    pub fn put(&mut self, alloc: Global, name: &str, value: Tree) -> Result<(), NoMemory>
        ensures { OnOk result (self.new ≡ with_put self.old name.now value) }
    {
        let name = Text::from_str(alloc, name)?;
        put_in(&mut self.slots, name, Slot::Settled(value))
    }

    /// Adds items behind those that the name has (Add Value, 4.4, as array).
    pub fn add_items(&mut self, alloc: Global, name: Text, items: Vec<Tree>) -> Result<(), NoMemory>
        ensures { OnOk result (self.new ≡ with_items name items.items self.old) }
    {
        let former = vacate(&mut self.slots, name.as_str(), Slot::Settled(Tree::Null));
        let joined = joined(alloc, settled(alloc, former)?, items)?;
        put_in(&mut self.slots, name, Slot::Settled(joined))
    }

    /// Adds items behind those that the name has in the result's reverse map.
    pub fn add_reverse(
        &mut self,
        alloc: Global,
        name: Text,
        items: Vec<Tree>,
    ) -> Result<(), NoMemory>
        ensures { OnOk result (self.new ≡ with_reverse name items.items self.old) }
    {
        let former = vacate(&mut self.slots, "@reverse", Slot::Settled(Tree::Null));
        let mut reverse = reverse_map(alloc, former)?;
        add_items_to(alloc, &mut reverse, name, items)?;
        put_in(
            &mut self.slots,
            Text::from_str(alloc, "@reverse")?,
            Slot::Open(reverse),
        )
    }

    /// Adds types behind those that the result has (5.1.2, 13.4.4.5).
    pub fn add_types(&mut self, alloc: Global, types: Tree) -> Result<(), NoMemory>
        ensures { OnOk result (self.new ≡ with_types (Some types) self.old) }
    {
        let former = vacate(&mut self.slots, "@type", Slot::Settled(Tree::Null));
        let joined = joined_types(alloc, settled(alloc, former)?, types)?;
        put_in(
            &mut self.slots,
            Text::from_str(alloc, "@type")?,
            Slot::Settled(joined),
        )
    }

    /// The entries in order, in linear time.
    pub fn into_entries(self, alloc: Global) -> Result<Entries<Tree>, NoMemory>
        ensures { IfOk result (λ entries. entries ≡ self) }
    {
        let Making { slots } = self;
        match slots.into_entries(alloc) {
            Ok(slots) => settled_entries(alloc, slots),
            Err((_, e)) => Err(e),
        }
    }
}

fn settled_entries(alloc: Global, slots: Entries<Slot>) -> Result<Entries<Tree>, NoMemory>
    ensures { IfOk result (λ entries. entries ≡ result_of slots) }
{
    let slots = slots.into_vec();
    let mut entries = Vec::with_capacity(alloc, slots.len())?;
    for (name, slot) in slots {
        entries.push((name, tree_in(alloc, slot)?))?;
    }
    Ok(Entries::from_sorted(entries))
}

fn tree_in(alloc: Global, slot: Slot) -> Result<Tree, NoMemory>
    ensures { IfOk result (λ tree. tree ≡ tree_of_slot slot) }
{
    match slot {
        Slot::Settled(tree) => Ok(tree),
        Slot::Open(map) => match map.into_entries(alloc) {
            Ok(entries) => Ok(Tree::Map(entries)),
            Err((_, e)) => Err(e),
        },
    }
}

fn settled(alloc: Global, slot: Option<Slot>) -> Result<Option<Tree>, NoMemory>
    ensures { IfOk result (λ tree. tree ≡ option_map tree_of_slot slot) }
{
    match slot {
        Some(slot) => Ok(Some(tree_in(alloc, slot)?)),
        None => Ok(None),
    }
}

// What a reverse map at work begins with.
fn reverse_map(alloc: Global, slot: Option<Slot>) -> Result<NameMap<Tree>, NoMemory>
    ensures { IfOk result (λ map. map ≡ reverse_map_in (option_map tree_of_slot slot)) }
{
    match slot {
        Some(Slot::Open(map)) => Ok(map),
        Some(Slot::Settled(Tree::Map(entries))) => NameMap::from_entries(alloc, entries),
        _ => Ok(NameMap::new(alloc)),
    }
}

// Gives what stands under the name, which a later put replaces.
fn vacate<T: Drop>(map: &mut NameMap<T>, name: &str, blank: T) -> Option<T>
    ensures former { result ≡ find map.old name.now }
    ensures rest { (value : T) → with_put map.new name.now value ≡ with_put map.old name.now value }
{
    match map.replace(name, blank) {
        Ok(former) => Some(former),
        Err(_) => None,
    }
}

fn put_in<T: Drop>(map: &mut NameMap<T>, name: Text, value: T) -> Result<(), NoMemory>
    ensures { OnOk result (map.new ≡ with_put map.old name value) }
{
    match map.put(name, value) {
        Ok(_) => Ok(()),
        Err((_, _, e)) => Err(e),
    }
}

fn add_items_to(
    alloc: Global,
    map: &mut NameMap<Tree>,
    name: Text,
    items: Vec<Tree>,
) -> Result<(), NoMemory>
    ensures { OnOk result (map.new ≡ with_items name items.items map.old) }
{
    let former = vacate(map, name.as_str(), Tree::Null);
    let joined = joined(alloc, former, items)?;
    put_in(map, name, joined)
}

// The items behind the former ones.
fn joined(alloc: Global, former: Option<Tree>, items: Vec<Tree>) -> Result<Tree, NoMemory>
    ensures { IfOk result (λ tree. tree ≡ list_of (items_in former ++ items.items)) }
{
    match former {
        Some(former) => {
            let mut joined = into_items(alloc, former)?;
            append(&mut joined, items)?;
            Ok(Tree::List(Items::from_vec(joined)))
        }
        None => Ok(Tree::List(Items::from_vec(items))),
    }
}

fn joined_types(alloc: Global, former: Option<Tree>, types: Tree) -> Result<Tree, NoMemory>
    ensures { IfOk result (λ tree. tree ≡ join_types former types) }
{
    match former {
        Some(former) => joined(alloc, Some(former), into_items(alloc, types)?),
        None => Ok(types),
    }
}

/// A list's items, and what is no list as the one item of a list.
pub fn items_of(tree: &Tree) -> &[Tree]
    ensures { result.now ≡ items_in_tree tree.now }
{
    match tree {
        Tree::List(items) => items.as_slice(),
        _ => slice::from_ref(tree),
    }
}

/// The same, moved.
pub fn into_items(alloc: Global, tree: Tree) -> Result<Vec<Tree>, NoMemory>
    ensures { IfOk result (λ items. items.items ≡ items_in_tree tree) }
{
    match tree {
        Tree::List(items) => Ok(items.into_vec()),
        single => {
            let mut items = Vec::with_capacity(alloc, 1)?;
            items.push(single)?;
            Ok(items)
        }
    }
}

/// Puts one item behind those that stand there.
pub fn push(joined: &mut Vec<Tree>, item: Tree) -> Result<(), NoMemory>
    ensures { OnOk result (joined.new.items ≡ joined.old.items ++ item ∷ []) }
{
    joined.push(item)?;
    Ok(())
}

/// Moves the items behind those that stand there; where none do, the list itself takes their place.
pub fn append(joined: &mut Vec<Tree>, items: Vec<Tree>) -> Result<(), NoMemory>
    ensures { OnOk result (joined.new.items ≡ joined.old.items ++ items.items) }
{
    if joined.is_empty() {
        *joined = items;
        return Ok(());
    }
    let mut items = items;
    joined.append(&mut items)?;
    Ok(())
}

/// What an element came to, as a list; null gives the empty one.
pub fn as_list(alloc: Global, tree: Option<Tree>) -> Result<Tree, NoMemory>
    ensures { IfOk result (λ list. list ≡ list_from tree) }
{
    match tree {
        Some(tree) => Ok(Tree::List(Items::from_vec(into_items(alloc, tree)?))),
        None => Ok(Tree::List(Items::new(alloc))),
    }
}
