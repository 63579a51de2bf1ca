ghost use Rattle.std.specs.Prelude.{◌≡◌, ◌≤◌, ◌<◌, ℕ, length, [], IfOk, OnOk, OnErr, IfErr, MatchResult, option_copied};
ghost use Rattle.std.specs.Map.{keys_of, lookup};
ghost use Rattle.std.specs.BTreeMap.{insert_entry, is_at};
ghost use Rattle.std.specs.List.Sorted.{IsStrictlySortedBy-prop};
ghost use Rattle.ld_tree.specs.Names.{AreInOrder, name_cmp, IsAt, IsPlace};
ghost use Rattle.ld_tree.specs.Maps.{find as value_at, put as with_put, take_out as without};
ghost use Rattle.std.specs.Cmp.Lexicographic.{pointwise, slice_cmp, slice_partial_cmp, lists_per, lists_equiv, lists_po, lists_total, lists_agrees, lists_ties};
ghost use Rattle.std.specs.Prelude.{◌&&◌, Some, nat_eq, refl};
ghost use Rattle.std.specs.Ordering.{nat_cmp, ordering_then, partial_ordering_then};
ghost use Rattle.std.specs.Cmp.Lexicographic.{nat_list_eq_equiv, nat_list_cmp_total, texts_ties, texts_po};
ghost use Rattle.std.specs.Cmp.{partial_equiv_from_equiv, on_per, on_equiv, on_po, on_total, and_per, and_equiv, then_po, then_total, then_agrees, both_tied};

use crate::no_memory::NoMemory;
use crate::text::Text;
use std::alloc::Global;
use std::cmp::Ordering;
use std::marker::Model;
use std::mem;

/// Values by name, as a JSON object has them (RFC 8259, section 4). The names are distinct and stand in
/// the order of code points, which contracts know of each value of this type, at every depth.
#[derive(Debug, Drop)]
pub struct Entries<T> {
    entries: Vec<(Text, T)>,
    ghost in_order: { AreInOrder (keys_of entries.items) } by { IsStrictlySortedBy-prop _ _ },
}

impl<T> Model for Entries<T> {
    ghost use Rattle.std.specs.Prelude.{List, ℕ};
    ghost use Rattle.std.specs.Coded.{coded_list, coded_ℕ, coded×};
    ghost use Rattle.std.specs.Map.{keys_of};
    ghost use Rattle.std.specs.List.Sorted.{IsStrictlySortedBy-prop};
    ghost use Rattle.ld_tree.specs.Names.{AreInOrder, Sorted, sorted_code};

    ghost Value = { Sorted T };

    ghost coded = { sorted_code T.code };

    ghost view = { λ e. (e.entries.items, e.in_order) };
}

// The place of the name, or the place where it belongs, by a search by halves.
fn find<T>(entries: &[(Text, T)], name: &str) -> Result<usize, usize>
    requires { AreInOrder (keys_of entries.now) }
    ensures { MatchResult result (IsAt name.now (keys_of entries.now)) (IsPlace name.now (keys_of entries.now)) }
{
    let mut low = 0;
    let mut high = entries.len();
    while low < high {
        let middle = low + (high - low) / 2;
        let entry = &entries[middle];
        match name.cmp(entry.0.as_str()) {
            Ordering::Less => high = middle,
            Ordering::Equal => return Ok(middle),
            Ordering::Greater => low = middle + 1,
        }
    }
    Err(low)
}

impl<T> Entries<T> {
    pub fn new(alloc: Global) -> Entries<T>
        ensures { result.0 ≡ [] }
    {
        Entries {
            entries: Vec::new(alloc),
        }
    }

    /// With room for this many entries, so that putting them takes no more memory.
    pub fn with_capacity(alloc: Global, capacity: usize) -> Result<Entries<T>, NoMemory>
        ensures { IfOk result (λ entries. entries.0 ≡ []) }
    {
        let entries = Vec::with_capacity(alloc, capacity)?;
        Ok(Entries { entries })
    }

    /// Takes no memory.
    pub fn from_sorted(entries: Vec<(Text, T)>) -> Entries<T>
        requires { AreInOrder (keys_of entries.items) }
        ensures { result.0 ≡ entries.items }
    {
        Entries { entries }
    }

    pub fn into_vec(self) -> Vec<(Text, T)>
        ensures { result.items ≡ self.0 }
    {
        let Entries { entries } = self;
        entries
    }

    pub fn as_slice(&self) -> &[(Text, T)]
        ensures value { result.now ≡ self.now.0 }
        ensures in_order { AreInOrder (keys_of self.now.0) }
    {
        self.entries.as_slice()
    }

    /// The value under the name. The search takes time logarithmic in the number of entries.
    pub fn get(&self, name: &str) -> Option<&T>
        ensures { option_copied result ≡ lookup (is_at (name_cmp name.now)) self.now.0 }
    {
        match find(self.entries.as_slice(), name) {
            Ok(at) => Some(&self.entries[at].1),
            Err(_) => None,
        }
    }
}

impl<T> Entries<T> {
    /// Takes the name and its value away, where it is there. The entries behind it move by one place, so
    /// this takes time linear in the number of entries; `NameMap` has one that is logarithmic.
    pub fn take_out(&mut self, name: &str) -> Option<T>
        ensures former { result ≡ value_at self.old name.now }
        ensures map { self.new ≡ without self.old name.now }
    {
        match find(self.entries.as_slice(), name) {
            Ok(at) => {
                let (_, former) = self.entries.remove(at);
                Some(former)
            }
            Err(_) => None,
        }
    }
}

impl<T: Drop> Entries<T> {
    /// Puts one entry and gives the former one. The search is logarithmic, and the entries behind a new
    /// name move by one place: names that come in order are appended, and a map of n names in any other
    /// order takes n² moves. `NameMap` builds it in n log n.
    pub fn put(&mut self, name: Text, value: T) -> Result<Option<T>, (Text, T, NoMemory)>
        ensures former { IfOk result (λ old. old ≡ lookup (is_at (name_cmp name)) self.old.0) }
        ensures entries { OnOk result (self.new.0 ≡ insert_entry name_cmp self.old.0 name value) }
        ensures map { OnOk result (self.new ≡ with_put self.old name value) }
        ensures given_back { IfErr result (λ e. (e.0 ≡ name) × (e.1 ≡ value)) }
        ensures unchanged { OnErr result (self.new ≡ self.old) }
    {
        match find(self.entries.as_slice(), name.as_str()) {
            Ok(at) => {
                let former = mem::replace(&mut self.entries[at].1, value);
                Ok(Some(former))
            }
            Err(at) => match self.entries.insert(at, (name, value)) {
                Ok(()) => Ok(None),
                Err(failed) => {
                    let (name, value) = failed.value;
                    Err((name, value, NoMemory))
                }
            },
        }
    }
}

impl<T: PartialEq> PartialEq for Entries<T> {
    ghost eq = { λ x y. pointwise (λ p q. pointwise nat_eq p.0 q.0 && T.eq p.1 q.1) x.0 y.0 };

    ghost laws = { on_per (λ x. x.0) (lists_per (and_per (on_per (λ p. p.0) (partial_equiv_from_equiv nat_list_eq_equiv)) (on_per (λ p. p.1) T.laws))) };

    fn eq(&self, other: &Entries<T>) -> bool {
        self.as_slice() == other.as_slice()
    }
}

impl<T: Eq> Eq for Entries<T> {
    ghost laws = { on_equiv (λ x. x.0) (lists_equiv (and_equiv (on_equiv (λ p. p.0) nat_list_eq_equiv) (on_equiv (λ p. p.1) T.Eq.laws))) };
}

impl<T: PartialOrd> PartialOrd for Entries<T> {
    ghost partial_cmp = { λ x y. slice_partial_cmp (λ p q. partial_ordering_then (Some (slice_cmp nat_cmp p.0 q.0)) (T.partial_cmp p.1 q.1)) x.0 y.0 };

    ghost laws = { on_po (λ x. x.0) (lists_po (then_po (on_po (λ p. p.0) texts_po) (on_po (λ p. p.1) T.PartialOrd.laws))) };

    fn partial_cmp(&self, other: &Entries<T>) -> Option<Ordering> {
        self.as_slice().partial_cmp(other.as_slice())
    }
}

impl<T: Ord> Ord for Entries<T> {
    ghost cmp = { λ x y. slice_cmp (λ p q. ordering_then (slice_cmp nat_cmp p.0 q.0) (T.cmp p.1 q.1)) x.0 y.0 };

    ghost total = { on_total (λ x. x.0) (lists_total (then_total (on_total (λ p. p.0) nat_list_cmp_total) (on_total (λ p. p.1) T.total))) };

    ghost matches_partial_cmp = { λ x y. lists_agrees (then_agrees (λ p q. refl) (λ p q. T.matches_partial_cmp p.1 q.1)) x.0 y.0 };

    ghost matches_eq = { λ x y. let V = T.cmp in
        lists_ties (λ p q. ordering_then (slice_cmp nat_cmp p.0 q.0) (V p.1 q.1)) (λ p q. both_tied _ _ (slice_cmp nat_cmp p.0 q.0) (V p.1 q.1) (texts_ties p.0 q.0) (T.matches_eq p.1 q.1)) x.0 y.0 };

    fn cmp(&self, other: &Entries<T>) -> Ordering {
        self.as_slice().cmp(other.as_slice())
    }
}
