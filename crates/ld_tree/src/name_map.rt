ghost use Rattle.std.specs.Prelude.{◌≡◌, [], length, slice_get, vec_capacity, IfOk, OnOk, OnErr, IfErr, Some, None, option_copied};
ghost use Rattle.std.specs.Map.{keys_of};
ghost use Rattle.std.specs.BTreeMap.{btree_map_len};
ghost use Rattle.std.specs.List.Sorted.{IsStrictlySortedBy-prop};
ghost use Rattle.ld_tree.specs.Names.{AreInOrder};
ghost use Rattle.ld_tree.specs.Maps.{empty, find as value_at, put as with_put, take_out as without};
ghost use Rattle.ld_tree.specs.Texts.{named};

use crate::entries::Entries;
use crate::no_memory::NoMemory;
use crate::text::Text;
use std::alloc::Global;
use std::collections::BTreeMap;
use std::collections::btree_map::Iter;
use std::marker::Model;
use std::mem;

/// A map at work: values by name, put in and taken out in any order, each in time logarithmic in the
/// number of names. Contracts see it as they see the `Entries` that it ends as.
#[derive(Debug, Drop)]
pub struct NameMap<T> {
    by_name: BTreeMap<String, T>,
    ghost in_order: { AreInOrder (keys_of (named by_name.entries)) } by { IsStrictlySortedBy-prop _ _ },
}

impl<T> Model for NameMap<T> {
    ghost use Rattle.ld_tree.specs.Names.{Sorted, sorted_code};
    ghost use Rattle.ld_tree.specs.Texts.{named};

    ghost Value = { Sorted T };

    ghost coded = { sorted_code T.code };

    ghost view = { λ m. (named m.by_name.entries, m.in_order) };
}

impl<T> NameMap<T> {
    pub fn new(alloc: Global) -> NameMap<T>
        ensures { result ≡ empty }
    {
        NameMap {
            by_name: BTreeMap::new(alloc),
        }
    }

    pub fn len(&self) -> usize
        ensures { result ≡ length self.now.0 }
    {
        self.by_name.len()
    }

    /// The value under the name.
    pub fn get(&self, name: &str) -> Option<&T>
        ensures { option_copied result ≡ value_at self.now name.now }
    {
        self.by_name.get(name)
    }

    /// Takes the name and its value away, where it is there.
    pub fn take_out(&mut self, name: &str) -> Option<T>
        ensures former { result ≡ value_at self.old name.now }
        ensures map { self.new ≡ without self.old name.now }
    {
        self.by_name.remove(name)
    }

    /// Puts one entry and gives the former one. Takes memory for a new name alone.
    pub fn put(&mut self, name: Text, value: T) -> Result<Option<T>, (Text, T, NoMemory)>
        ensures former { IfOk result (λ old. old ≡ value_at self.old name) }
        ensures map { OnOk result (self.new ≡ with_put self.old name value) }
        ensures given_back { IfErr result (λ e. (e.0 ≡ name) × (e.1 ≡ value)) }
        ensures absent { OnErr result (value_at self.old name ≡ None) }
        ensures unchanged { OnErr result (self.new ≡ self.old) }
    {
        match self.by_name.insert(name.into_string(), value) {
            Ok(former) => Ok(former),
            Err(failed) => {
                let (name, value) = failed.value;
                Err((Text::from_string(name), value, NoMemory))
            }
        }
    }

    /// Puts a value in the place of the one under the name, and gives that one; where the name isn't there
    /// the value comes back. Takes no memory.
    pub fn replace(&mut self, name: &str, value: T) -> Result<T, T>
        ensures former { IfOk result (λ old. value_at self.old name.now ≡ Some old) }
        ensures map { OnOk result (self.new ≡ with_put self.old name.now value) }
        ensures given_back { IfErr result (λ v. v ≡ value) }
        ensures absent { OnErr result (value_at self.old name.now ≡ None) }
        ensures unchanged { OnErr result (self.new ≡ self.old) }
    {
        match self.by_name.get_mut(name) {
            Some(place) => Ok(mem::replace(place, value)),
            None => Err(value),
        }
    }
}

impl<T: Drop> NameMap<T> {
    /// A map at work with the entries.
    pub fn from_entries(alloc: Global, entries: Entries<T>) -> Result<NameMap<T>, NoMemory>
        ensures { IfOk result (λ m. m ≡ entries) }
    {
        let mut map = NameMap::new(alloc);
        for (name, value) in entries.into_vec() {
            match map.put(name, value) {
                Ok(_) => {}
                Err((_, _, e)) => return Err(e),
            }
        }
        Ok(map)
    }

    /// The entries in order, in linear time. Where there is no memory for the list the map comes back.
    pub fn into_entries(self, alloc: Global) -> Result<Entries<T>, (NameMap<T>, NoMemory)>
        ensures ok { IfOk result (λ es. es ≡ self) }
        ensures given_back { IfErr result (λ e. e.0 ≡ self) }
    {
        match Vec::with_capacity(alloc, self.by_name.len()) {
            Ok(room) => {
                let NameMap { by_name } = self;
                Ok(Entries::from_sorted(moved_into(room, by_name)))
            }
            Err(_) => Err((self, NoMemory)),
        }
    }
}

// The entries in order, in a list that has room for them.
fn moved_into<T: Drop>(mut room: Vec<(Text, T)>, by_name: BTreeMap<String, T>) -> Vec<(Text, T)>
    requires is_empty { room.items ≡ [] }
    requires has_room { vec_capacity room ≡ btree_map_len by_name }
    ensures { result.items ≡ named by_name.entries }
{
    for (name, value) in by_name {
        room.push_reserved((Text::from_string(name), value));
    }
    room
}

impl<T> NameMap<T> {
    /// The entries in order.
    pub fn iter(&self) -> Iter<'_, String, T>
        ensures { named result ≡ self.now.0 }
    {
        self.by_name.iter()
    }

    /// The name at the place, in the order of names, in time linear in the place.
    pub fn name_at(&self, place: usize) -> Option<&str>
        ensures { option_copied result ≡ slice_get (keys_of self.now.0) place }
    {
        let mut left = place;
        for (name, _) in self.by_name.iter() {
            if left == 0 {
                return Some(name.as_str());
            }
            left -= 1;
        }
        None
    }
}
