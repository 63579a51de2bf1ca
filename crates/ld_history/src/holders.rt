//! Which sessions hold each IRI.
ghost use Rattle.std.specs.Prelude.{◌≡◌, ℕ, List, None, true, false, not, IfOk, OnOk, OnErr};
ghost use Rattle.ld_history.specs.Words.{same_iri, at_iri};
ghost use Rattle.std.specs.List.{list_any};
ghost use Rattle.ld_history.specs.Holders.{held_by, AreFilled, IsMarked, IsCleared, IsSame};

use crate::name::Name;
use ld_tree::NoMemory;
use std::alloc::Global;
use std::collections::{BTreeMap, BTreeSet};

/// The session holds the IRI now. Answers whether it didn't before.
pub(crate) fn list_holder(
    alloc: Global,
    holders: &mut BTreeMap<Name, BTreeSet<u32>>,
    iri: &Name,
    session: u32,
) -> Result<bool, NoMemory>
    requires { AreFilled holders.old.entries }
    ensures filled { AreFilled holders.new.entries }
    ensures first { IfOk result (λ first. first ≡ not (held_by holders.old.entries iri.now session)) }
    ensures listed { OnOk result (IsMarked holders.old.entries holders.new.entries iri.now session true) }
    ensures unchanged { OnErr result (IsSame holders.old.entries holders.new.entries) }
{
    match holders.get_mut(iri) {
        Some(set) => {
            let first = set.insert(session)?;
            Ok(first)
        }
        None => list_first(alloc, holders, iri, session),
    }
}

fn list_first(
    alloc: Global,
    holders: &mut BTreeMap<Name, BTreeSet<u32>>,
    iri: &Name,
    session: u32,
) -> Result<bool, NoMemory>
    requires filled { AreFilled holders.old.entries }
    requires absent { at_iri holders.old.entries iri.now ≡ None }
    ensures filled { AreFilled holders.new.entries }
    ensures first { IfOk result (λ first. first ≡ true) }
    ensures listed { OnOk result (IsMarked holders.old.entries holders.new.entries iri.now session true) }
    ensures unchanged { OnErr result (IsSame holders.old.entries holders.new.entries) }
{
    let mut set = BTreeSet::new(alloc);
    set.insert(session)?;
    let key = iri.share()?;
    holders.insert(key, set)?;
    Ok(true)
}

/// The session doesn't hold the IRI now.
pub(crate) fn unlist_holder(holders: &mut BTreeMap<Name, BTreeSet<u32>>, iri: &Name, session: u32)
    requires { AreFilled holders.old.entries }
    ensures filled { AreFilled holders.new.entries }
    ensures unlisted { IsMarked holders.old.entries holders.new.entries iri.now session false }
{
    if let Some(set) = holders.get_mut(iri) {
        set.remove(&session);
        if set.is_empty() {
            holders.remove(iri);
        }
    }
}

/// The session holds none of the IRIs now, which are all that it held.
pub(crate) fn unlist_all(holders: &mut BTreeMap<Name, BTreeSet<u32>>, held: &[Name], session: u32)
    requires filled { AreFilled holders.old.entries }
    requires held { (q : List ℕ) → held_by holders.old.entries q session ≡ list_any (λ iri. same_iri iri q) held.now }
    ensures filled { AreFilled holders.new.entries }
    ensures cleared { IsCleared holders.old.entries holders.new.entries session }
{
    for iri in held.iter() {
        unlist_holder(holders, iri, session);
    }
}

/// Takes back a listing, where the session wasn't listed before.
pub(crate) fn undo_listing(
    holders: &mut BTreeMap<Name, BTreeSet<u32>>,
    iri: &Name,
    session: u32,
    first: bool,
)
    requires filled { AreFilled holders.old.entries }
    requires listed { held_by holders.old.entries iri.now session ≡ true }
    ensures filled { AreFilled holders.new.entries }
    ensures undone { IsMarked holders.old.entries holders.new.entries iri.now session (not first) }
{
    if first {
        unlist_holder(holders, iri, session);
    }
}
