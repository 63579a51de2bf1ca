//! The stored IRIs in the order of their versions, and which of them may go.
ghost use Rattle.std.specs.Prelude.{◌≡◌, ℕ, ◌≤◌, ◌<◌, List, [], ◌∷◌, length, slice_get, OnOk, OnErr, None, true, false, not, cond, is_some, ◌&&◌, ◌||◌, vec_len, vec_capacity};
ghost use Rattle.std.specs.List.Sorted.{IsStrictlySortedBy};
ghost use Rattle.std.specs.Ordering.{nat_cmp};
ghost use Rattle.std.specs.BTreeMap.{is_at};
ghost use Rattle.std.proofs.Props.{props};
ghost use Rattle.ld_history.specs.Words.{at_number};
ghost use Rattle.ld_history.specs.After as after;
ghost use Rattle.ld_history.specs.Order.{IsOrder, AreKnown, IsFree, without, has, is_version, version_of};

use crate::name::Name;
use crate::session::{Flying, Stored};
use ld_tree::NoMemory;
use std::alloc::Global;
use std::collections::{BTreeMap, BTreeSet};

/// The stored IRIs by the version that published them, and the versions of those that may go.
#[derive(Debug, Drop)]
pub(crate) struct Order {
    pub published: BTreeMap<u64, Name>,
    /// They rise. There is room for all that are published, so that listing one wants no memory.
    pub free: Vec<u64>,
    ghost sorted: { IsStrictlySortedBy nat_cmp free.items } by { Prim.hlevel props },
    ghost known: { AreKnown published.entries free.items } by { Prim.hlevel props },
    ghost room: { length published.entries ≤ vec_capacity free },
}

impl Order {
    pub fn new(alloc: Global) -> Order
        ensures published { result.published.entries ≡ [] }
        ensures free { result.free.items ≡ [] }
    {
        Order {
            published: BTreeMap::new(alloc),
            free: Vec::new(alloc),
        }
    }

    /// The IRI stands at a version at which none stood.
    pub fn list(&mut self, version: u64, iri: &Name) -> Result<(), NoMemory>
        requires { at_number self.old.published.entries version ≡ None }
        ensures ok { OnOk result (self.new.published.entries ≡ after.put_number self.old.published.entries version iri.now) }
        ensures unchanged { OnErr result (self.new.published.entries ≡ self.old.published.entries) }
        ensures free { self.new.free.items ≡ self.old.free.items }
    {
        let iri = iri.share()?;
        let room = (self.published.len() + 1).saturating_sub(self.free.len());
        self.free.reserve(room)?;
        self.published.insert(version, iri)?;
        Ok(())
    }

    /// Nothing stands at the version, where there is one.
    pub fn unlist(&mut self, version: Option<u64>)
        ensures published { self.new.published.entries ≡ without self.old.published.entries version }
        ensures free { (q : ℕ) → has self.new.free.items q ≡ (not (is_version version q) && has self.old.free.items q) }
    {
        if let Some(version) = version {
            self.published.remove(&version);
            drop_version(&mut self.free, version);
        }
    }

    /// Whether what stands at the version may go.
    pub fn mark(&mut self, version: u64, goes: bool)
        requires { is_some (at_number self.old.published.entries version) ≡ true }
        ensures published { self.new.published.entries ≡ self.old.published.entries }
        ensures free { (q : ℕ) → has self.new.free.items q ≡ cond (is_at (nat_cmp version) q) goes (has self.old.free.items q) }
    {
        if goes {
            add_version(&mut self.free, version);
        } else {
            drop_version(&mut self.free, version);
        }
    }

    /// The least version that may go.
    pub fn first(&self) -> Option<u64>
        ensures { result ≡ slice_get self.now.free.items 0 }
    {
        self.free.first().copied()
    }
}

/// The version is among those that rise.
fn add_version(free: &mut Vec<u64>, version: u64)
    requires sorted { IsStrictlySortedBy nat_cmp free.old.items }
    requires room { has free.old.items version ≡ false → vec_len free.old < vec_capacity free.old }
    ensures sorted { IsStrictlySortedBy nat_cmp free.new.items }
    ensures has { (q : ℕ) → has free.new.items q ≡ (is_at (nat_cmp version) q || has free.old.items q) }
    ensures capacity { vec_capacity free.old ≤ vec_capacity free.new }
{
    if let Err(place) = free.binary_search(&version) {
        // There is room for it.
        let _ = free.insert(place, version);
    }
}

/// The version isn't among those that rise.
fn drop_version(free: &mut Vec<u64>, version: u64)
    requires sorted { IsStrictlySortedBy nat_cmp free.old.items }
    ensures sorted { IsStrictlySortedBy nat_cmp free.new.items }
    ensures has { (q : ℕ) → has free.new.items q ≡ (not (is_at (nat_cmp version) q) && has free.old.items q) }
    ensures capacity { vec_capacity free.new ≡ vec_capacity free.old }
{
    if let Ok(place) = free.binary_search(&version) {
        free.remove(place);
    }
}

/// The version that published the IRI, where it is stored.
pub(crate) fn version_of(stored: &BTreeMap<Name, Stored>, iri: &Name) -> Option<u64>
    ensures { result ≡ version_of stored.now.entries iri.now }
{
    match stored.get(iri) {
        Some(stored) => Some(stored.version),
        None => None,
    }
}

/// Whether the IRI may go is looked up anew.
pub(crate) fn refresh(
    order: &mut Order,
    stored: &BTreeMap<Name, Stored>,
    holders: &BTreeMap<Name, BTreeSet<u32>>,
    revisions: &BTreeMap<Name, Flying>,
    iri: &Name,
)
    requires { IsOrder stored.now.entries order.old.published.entries }
    ensures published { order.new.published.entries ≡ order.old.published.entries }
    ensures free { (but : List (List ℕ)) → IsFree (iri.now ∷ but) order.old.published.entries order.old.free.items holders.now.entries revisions.now.entries → IsFree but order.new.published.entries order.new.free.items holders.now.entries revisions.now.entries }
{
    if let Some(version) = version_of(stored, iri) {
        let goes = !holders.contains_key(iri) && !revisions.contains_key(iri);
        order.mark(version, goes);
    }
}

/// The same of each of the IRIs.
pub(crate) fn refresh_all(
    order: &mut Order,
    stored: &BTreeMap<Name, Stored>,
    holders: &BTreeMap<Name, BTreeSet<u32>>,
    revisions: &BTreeMap<Name, Flying>,
    iris: &[Name],
)
    requires order { IsOrder stored.now.entries order.old.published.entries }
    requires free { IsFree iris.now order.old.published.entries order.old.free.items holders.now.entries revisions.now.entries }
    ensures published { order.new.published.entries ≡ order.old.published.entries }
    ensures free { IsFree [] order.new.published.entries order.new.free.items holders.now.entries revisions.now.entries }
{
    for iri in iris.iter() {
        refresh(order, stored, holders, revisions, iri);
    }
}
