//! A result at work (JSON-LD 1.1 API, 6.1.2, 10): entries come in any order, and values are added to those that a
//! name or a key has, each time in logarithmic time.
ghost use Rattle.std.specs.Prelude.{◌≡◌, ◌++◌, ◌∷◌, [], IfOk, OnOk, Some, option_map};
ghost use Rattle.ld_tree.specs.Maps.{empty as no_entries, find, put as with_put};
ghost use Rattle.ld_rec.specs.Kinds.{list_of};
ghost use Rattle.ld_rec.specs.Words.{items_of as items_in_tree};
ghost use Rattle.ld_compact.specs.Adding.{singles, all_singles, items_at, appended as with_appended, add_value as with_value, holds_other as is_other, entries_at, add_keyed as with_key};
ghost use Rattle.ld_compact.specs.Slots.{tree_in as tree_of_slot, result_of, grown as grown_from, adds_nothing, is_other_slot};

use ld_tree::{Entries, Items, NameMap, NoMemory, Text, Tree};
use std::alloc::Global;
use std::marker::Model;

// What stands under a name: a tree, or a map at work.
#[derive(Debug, Drop)]
pub enum Slot {
    Settled(Tree),
    Open(NameMap<Tree>),
}

/// The entries of a map that is being made.
#[derive(Debug, Drop)]
pub struct Making {
    slots: NameMap<Slot>,
}

impl Model for Making {
    ghost use Rattle.ld_tree.specs.Names.{Sorted, sorted_code};
    ghost use Rattle.ld_tree.specs.declared.tree.Tree.{Tree};
    ghost use Rattle.ld_tree.specs.contracts.tree.Tree as tree;
    ghost use Rattle.ld_compact.specs.Slots.{result_of};

    ghost Value = { Sorted Tree };

    ghost coded = { sorted_code tree.the_row.coded };

    ghost view = { λ m. result_of m.slots };
}

impl Making {
    pub fn new(alloc: Global) -> Making
        ensures { result ≡ no_entries }
    {
        Making {
            slots: NameMap::new(alloc),
        }
    }

    /// Puts one entry in place of a former one.
    pub fn put(&mut self, alloc: Global, name: &str, value: Tree) -> Result<(), NoMemory>
        ensures { OnOk result (self.new ≡ with_put self.old name.now value) }
    {
        let name = Text::from_str(alloc, name)?;
        put_in(&mut self.slots, name, Slot::Settled(value))
    }

    /// Add Value (JSON-LD 1.1 API, 4.4): the value is appended to what the name has, and nothing is copied.
    pub fn add_value(
        &mut self,
        alloc: Global,
        name: &str,
        as_list: bool,
        value: Tree,
    ) -> Result<(), NoMemory>
        ensures { OnOk result (self.new ≡ with_value name.now as_list value self.old) }
    {
        let values = singles_of(alloc, value)?;
        if is_nothing(as_list, values.as_slice()) {
            return Ok(());
        }
        let former = vacate(&mut self.slots, name, Slot::Settled(Tree::Null));
        let tree = grown(alloc, settled(alloc, former)?, as_list, values)?;
        put_in(
            &mut self.slots,
            Text::from_str(alloc, name)?,
            Slot::Settled(tree),
        )
    }

    /// Adds the value under the key in the map that the name has. What is no map stays beside a new one.
    pub fn add_keyed(
        &mut self,
        alloc: Global,
        name: &str,
        as_list: bool,
        key: &str,
        value: Tree,
    ) -> Result<(), NoMemory>
        ensures { OnOk result (self.new ≡ with_key name.now as_list key.now value self.old) }
    {
        if holds_other(&self.slots, name) {
            let mut map = NameMap::new(alloc);
            add_value_in(alloc, &mut map, key, as_list, value)?;
            let beside = Tree::Map(entries_of(alloc, map)?);
            return self.add_value(alloc, name, as_list, beside);
        }
        let former = vacate(&mut self.slots, name, Slot::Settled(Tree::Null));
        let mut map = opened(alloc, former)?;
        add_value_in(alloc, &mut map, key, as_list, value)?;
        put_in(
            &mut self.slots,
            Text::from_str(alloc, name)?,
            Slot::Open(map),
        )
    }

    /// The entries in order, in linear time.
    pub fn into_entries(self, alloc: Global) -> Result<Entries<Tree>, NoMemory>
        ensures { IfOk result (λ entries. entries ≡ self) }
    {
        let Making { slots } = self;
        match slots.into_entries(alloc) {
            Ok(slots) => settled_entries(alloc, slots),
            Err((_, e)) => Err(e),
        }
    }

    /// The map of the entries.
    pub fn into_map(self, alloc: Global) -> Result<Tree, NoMemory>
        ensures { IfOk result (λ tree. tree ≡ Tree.Map self) }
    {
        Ok(Tree::Map(self.into_entries(alloc)?))
    }
}

fn settled_entries(alloc: Global, slots: Entries<Slot>) -> Result<Entries<Tree>, NoMemory>
    ensures { IfOk result (λ entries. entries ≡ result_of slots) }
{
    let slots = slots.into_vec();
    let mut entries = Vec::with_capacity(alloc, slots.len())?;
    for (name, slot) in slots {
        entries.push((name, tree_in(alloc, slot)?))?;
    }
    Ok(Entries::from_sorted(entries))
}

fn tree_in(alloc: Global, slot: Slot) -> Result<Tree, NoMemory>
    ensures { IfOk result (λ tree. tree ≡ tree_of_slot slot) }
{
    match slot {
        Slot::Settled(tree) => Ok(tree),
        Slot::Open(map) => Ok(Tree::Map(entries_of(alloc, map)?)),
    }
}

/// A map's entries, in linear time.
pub fn entries_of(alloc: Global, map: NameMap<Tree>) -> Result<Entries<Tree>, NoMemory>
    ensures { IfOk result (λ entries. entries ≡ map) }
{
    match map.into_entries(alloc) {
        Ok(entries) => Ok(entries),
        Err((_, e)) => Err(e),
    }
}

fn settled(alloc: Global, slot: Option<Slot>) -> Result<Option<Tree>, NoMemory>
    ensures { IfOk result (λ tree. tree ≡ option_map tree_of_slot slot) }
{
    match slot {
        Some(slot) => Ok(Some(tree_in(alloc, slot)?)),
        None => Ok(None),
    }
}

// What a map at work begins with.
fn opened(alloc: Global, slot: Option<Slot>) -> Result<NameMap<Tree>, NoMemory>
    ensures { IfOk result (λ map. map ≡ entries_at (option_map tree_of_slot slot)) }
{
    match slot {
        Some(Slot::Open(map)) => Ok(map),
        Some(Slot::Settled(tree)) => opened_tree(alloc, tree),
        None => Ok(NameMap::new(alloc)),
    }
}

fn opened_tree(alloc: Global, tree: Tree) -> Result<NameMap<Tree>, NoMemory>
    ensures { IfOk result (λ map. map ≡ entries_at (Some tree)) }
{
    match tree {
        Tree::Map(entries) => NameMap::from_entries(alloc, entries),
        _ => Ok(NameMap::new(alloc)),
    }
}

// Whether the name has something that is no map.
fn holds_other(slots: &NameMap<Slot>, name: &str) -> bool
    ensures { result ≡ is_other (find (result_of slots.now) name.now) }
{
    match slots.get(name) {
        Some(slot) => is_no_map(slot),
        None => false,
    }
}

fn is_no_map(slot: &Slot) -> bool
    ensures { result ≡ is_other_slot slot.now }
{
    match slot {
        Slot::Settled(tree) => is_other_tree(tree),
        Slot::Open(_) => false,
    }
}

fn is_other_tree(tree: &Tree) -> bool
    ensures { result ≡ is_other (Some tree.now) }
{
    match tree {
        Tree::Map(_) => false,
        Tree::Null | Tree::Bool(_) | Tree::Num(_) | Tree::Text(_) | Tree::List(_) => true,
    }
}

// Gives what stands under the name, which a later put replaces.
fn vacate<T: Drop>(map: &mut NameMap<T>, name: &str, blank: T) -> Option<T>
    ensures former { result ≡ find map.old name.now }
    ensures rest { (value : T) → with_put map.new name.now value ≡ with_put map.old name.now value }
{
    match map.replace(name, blank) {
        Ok(former) => Some(former),
        Err(_) => None,
    }
}

/// Puts one entry in place of a former one.
pub fn put_in<T: Drop>(map: &mut NameMap<T>, name: Text, value: T) -> Result<(), NoMemory>
    ensures { OnOk result (map.new ≡ with_put map.old name value) }
{
    match map.put(name, value) {
        Ok(_) => Ok(()),
        Err((_, _, e)) => Err(e),
    }
}

/// Add Value in a map at work.
pub fn add_value_in(
    alloc: Global,
    map: &mut NameMap<Tree>,
    name: &str,
    as_list: bool,
    value: Tree,
) -> Result<(), NoMemory>
    ensures { OnOk result (map.new ≡ with_value name.now as_list value map.old) }
{
    let values = singles_of(alloc, value)?;
    if is_nothing(as_list, values.as_slice()) {
        return Ok(());
    }
    let former = vacate(map, name, Tree::Null);
    let tree = grown(alloc, former, as_list, values)?;
    put_in(map, Text::from_str(alloc, name)?, tree)
}

#[tactic(auto, using(crate::proofs::Slots::none_by_length))]
fn is_nothing(as_list: bool, values: &[Tree]) -> bool
    ensures { result ≡ adds_nothing as_list values.now }
{
    !as_list && values.is_empty()
}

// What stands under a name after the values are added to what stood there.
fn grown(
    alloc: Global,
    former: Option<Tree>,
    as_list: bool,
    values: Vec<Tree>,
) -> Result<Tree, NoMemory>
    ensures { IfOk result (λ tree. tree ≡ grown_from former as_list values.items) }
{
    let mut held = if as_list {
        Some(as_items(alloc, former)?)
    } else {
        former
    };
    for value in values {
        held = Some(appended(alloc, held, value)?);
    }
    match held {
        Some(tree) => Ok(tree),
        None => Ok(Tree::Null),
    }
}

fn as_items(alloc: Global, former: Option<Tree>) -> Result<Tree, NoMemory>
    ensures { IfOk result (λ tree. tree ≡ list_of (items_at former)) }
{
    match former {
        Some(tree) => Ok(Tree::List(Items::from_vec(into_items(alloc, tree)?))),
        None => Ok(Tree::List(Items::new(alloc))),
    }
}

fn appended(alloc: Global, former: Option<Tree>, value: Tree) -> Result<Tree, NoMemory>
    ensures { IfOk result (λ tree. tree ≡ with_appended former value) }
{
    match former {
        None => Ok(value),
        Some(former) => {
            let mut items = into_items(alloc, former)?;
            push(&mut items, value)?;
            Ok(Tree::List(Items::from_vec(items)))
        }
    }
}

/// A list's items, and what is no list as the one item of a list.
pub fn into_items(alloc: Global, tree: Tree) -> Result<Vec<Tree>, NoMemory>
    ensures { IfOk result (λ items. items.items ≡ items_in_tree tree) }
{
    match tree {
        Tree::List(items) => Ok(items.into_vec()),
        single => {
            let mut items = Vec::with_capacity(alloc, 1)?;
            items.push(single)?;
            Ok(items)
        }
    }
}

/// Puts one item behind those that stand there.
pub fn push(items: &mut Vec<Tree>, item: Tree) -> Result<(), NoMemory>
    ensures { OnOk result (items.new.items ≡ items.old.items ++ item ∷ []) }
{
    items.push(item)?;
    Ok(())
}

fn singles_of(alloc: Global, value: Tree) -> Result<Vec<Tree>, NoMemory>
    ensures { IfOk result (λ values. values.items ≡ singles value) }
{
    let mut values = Vec::new(alloc);
    push_singles(value, &mut values)?;
    Ok(values)
}

// The value, or the items of a list and of the lists within it.
#[cycle(singles)]
#[tactic(auto, using(crate::proofs::Singles::singles_levels))]
fn push_singles(value: Tree, out: &mut Vec<Tree>) -> Result<(), NoMemory>
    ensures { OnOk result (out.new.items ≡ out.old.items ++ singles value) }
{
    match value {
        Tree::List(items) => push_joined(items, out),
        Tree::Null => push(out, Tree::Null),
        Tree::Bool(b) => push(out, Tree::Bool(b)),
        Tree::Num(n) => push(out, Tree::Num(n)),
        Tree::Text(text) => push(out, Tree::Text(text)),
        Tree::Map(entries) => push(out, Tree::Map(entries)),
    }
}

#[cycle(singles)]
#[tactic(auto, using(crate::proofs::Singles::singles_levels))]
fn push_joined(items: Items<Tree>, out: &mut Vec<Tree>) -> Result<(), NoMemory>
    ensures { OnOk result (out.new.items ≡ out.old.items ++ all_singles items) }
{
    for item in items.into_vec() {
        push_singles(item, out)?;
    }
    Ok(())
}
