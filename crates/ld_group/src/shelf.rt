//! Lists by number that are taken, each once.
ghost use Rattle.std.specs.Prelude.{◌≡◌, List, [], None, Some, map, IfOk, OnOk, slice_index_or, slice_set};
ghost use Rattle.ld_group.specs.Shelves.{IsLeftOf};

use ld_tree::{Items, NoMemory};
use std::alloc::Global;
use std::mem;

/// Lists by number, of which some are taken.
#[derive(Drop)]
pub struct Shelf<T> {
    pub lists: Vec<Option<Items<T>>>,
}

impl<T: Drop> Shelf<T> {
    pub fn new(alloc: Global, lists: Vec<Items<T>>) -> Result<Shelf<T>, NoMemory>
        ensures { IfOk result (λ shelf. IsLeftOf lists.items shelf.lists.items) }
    {
        Ok(Shelf {
            lists: shelved(alloc, lists)?,
        })
    }

    /// The list of a number, which is taken once. A number whose list isn't there gets `NoMemory`: whoever takes each
    /// number once, below the count of the lists, doesn't meet it.
    pub fn take(&mut self, number: usize) -> Result<Items<T>, NoMemory>
        ensures list { (lists : List (List T)) → IsLeftOf lists self.old.lists.items → IfOk result (λ list. list ≡ slice_index_or lists number []) }
        ensures left { (lists : List (List T)) → IsLeftOf lists self.old.lists.items → OnOk result (IsLeftOf lists self.new.lists.items) }
    {
        take_slot(&mut self.lists, number)
    }
}

fn shelved<T: Drop>(alloc: Global, lists: Vec<Items<T>>) -> Result<Vec<Option<Items<T>>>, NoMemory>
    ensures { IfOk result (λ shelved. shelved.items ≡ map Some lists.items) }
{
    let mut shelved = Vec::new(alloc);
    for list in lists {
        shelved.push(Some(list))?;
    }
    Ok(shelved)
}

fn take_slot<T: Drop>(
    slots: &mut Vec<Option<Items<T>>>,
    number: usize,
) -> Result<Items<T>, NoMemory>
    ensures list { IfOk result (λ list. slice_index_or slots.old.items number None ≡ Some list) }
    ensures rest { OnOk result (slots.new.items ≡ slice_set slots.old.items number None) }
{
    if number >= slots.len() {
        return Err(NoMemory);
    }
    let slot = &mut slots[number];
    match mem::replace(slot, None) {
        Some(list) => Ok(list),
        None => Err(NoMemory),
    }
}
