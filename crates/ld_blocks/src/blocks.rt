ghost use Rattle.std.specs.Prelude.{◌≡◌, ◌+◌, ◌*◌, ◌-◌, ◌<◌, ◌≤◌, [], ◌∷◌, ◌++◌, length, slice_get, option_copied, IsOk, IfOk, OnOk, OnErr, vec_len};
ghost use Rattle.ld_blocks.specs.Blocked.{IsBlocked, joined};

use ld_tree::NoMemory;
use std::alloc::Global;
use std::marker::Model;
use std::mem;

/// How many items a block holds.
const BLOCK: usize = 4096;

/// More blocks than any memory holds, so that the places of items can be counted.
const MOST_BLOCKS: usize = 4_294_967_296;

/// A list in blocks. Contracts see its items, and how many there is room for.
#[derive(Debug, Drop)]
pub struct Blocks<T> {
    /// The blocks that have no room left, in order.
    full: Vec<Vec<T>>,
    /// The block that comes after these, to which items are appended.
    last: Vec<T>,
    /// Empty blocks. There is room for them among the full ones.
    spare: Vec<Vec<T>>,
}

impl<T> Model for Blocks<T> {
    ghost use Rattle.ld_blocks.specs.Listed.{Listed, listed_code};

    ghost Value = { Listed T };

    ghost coded = { listed_code T.code };

    ghost use Rattle.ld_blocks.specs.Blocked.{listed, IsBlocked};

    ghost view = { λ b. listed b.full b.last b.spare };

    ghost invariant = { λ b. IsBlocked b.full b.last b.spare };
}

impl<T> Blocks<T> {
    /// The empty list, with room for one block.
    pub fn new(alloc: Global) -> Result<Blocks<T>, NoMemory>
        ensures { IfOk result (λ list. list ≡ record { items = []; capacity = 4096 }) }
    {
        let last = Vec::with_capacity(alloc, BLOCK)?;
        Ok(Blocks {
            full: Vec::new(alloc),
            last,
            spare: Vec::new(alloc),
        })
    }

    pub fn len(&self) -> usize
        ensures { result ≡ length self.now.items }
    {
        BLOCK * self.full.len() + self.last.len()
    }

    /// The item at the place, counted from 0.
    pub fn get(&self, place: usize) -> Option<&T>
        ensures { option_copied result ≡ slice_get self.now.items place }
    {
        match item_of(&self.full, place / BLOCK) {
            Some(block) => item_of(block, place % BLOCK),
            None => item_of(&self.last, place - BLOCK * self.full.len()),
        }
    }

    /// Takes room for this many more items. It takes no memory where the room is there.
    pub fn reserve(&mut self, additional: usize) -> Result<(), NoMemory>
        ensures items { self.new.items ≡ self.old.items }
        ensures room { OnOk result (length self.old.items + additional ≤ self.new.capacity) }
        ensures capacity { self.old.capacity ≤ self.new.capacity }
        ensures succeeds { length self.old.items + additional ≤ self.old.capacity → IsOk result }
    {
        while self.room() < additional {
            self.add_block()?;
        }
        Ok(())
    }

    /// Appends the item, for which there is room. Takes no memory.
    pub fn push(&mut self, item: T)
        requires { length self.old.items < self.old.capacity }
        ensures items { self.new.items ≡ self.old.items ++ item ∷ [] }
        ensures capacity { self.new.capacity ≡ self.old.capacity }
    {
        if self.last.len() == BLOCK {
            next_block(&mut self.full, &mut self.last, &mut self.spare);
        }
        self.last.push_reserved(item);
    }

    /// How many more items there is room for.
    fn room(&self) -> usize
        ensures { length self.now.items + result ≡ self.now.capacity }
    {
        BLOCK - self.last.len() + BLOCK * self.spare.len()
    }

    fn add_block(&mut self) -> Result<(), NoMemory>
        ensures ok { OnOk result (self.new ≡ record self.old { capacity = self.old.capacity + 4096 }) }
        ensures unchanged { OnErr result (self.new ≡ self.old) }
    {
        if self.full.len() + self.spare.len() + 1 >= MOST_BLOCKS {
            return Err(NoMemory);
        }
        let alloc = *self.full.allocator();
        self.full.reserve(self.spare.len() + 1)?;
        self.spare.reserve(1)?;
        let block = Vec::with_capacity(alloc, BLOCK)?;
        self.spare.push_reserved(block);
        Ok(())
    }
}

fn item_of<T>(block: &Vec<T>, place: usize) -> Option<&T>
    ensures { option_copied result ≡ slice_get block.now.items place }
{
    block.get(place)
}

/// A spare block comes after the last one, which is full.
fn next_block<T>(full: &mut Vec<Vec<T>>, last: &mut Vec<T>, spare: &mut Vec<Vec<T>>)
    requires blocked { IsBlocked full.old last.old spare.old }
    requires full { vec_len last.old ≡ 4096 }
    requires spare { 0 < vec_len spare.old }
    ensures blocked { IsBlocked full.new last.new spare.new }
    ensures items { joined full.new.items ++ last.new.items ≡ joined full.old.items ++ last.old.items }
    ensures empty { vec_len last.new ≡ 0 }
    ensures blocks { vec_len full.new + vec_len spare.new ≡ vec_len full.old + vec_len spare.old }
{
    if let Some(block) = spare.pop() {
        full.push_reserved(mem::replace(last, block));
    }
}
