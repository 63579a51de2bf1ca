ghost use Rattle.std.specs.Prelude.{◌≡◌, OnOk, filter};
ghost use Rattle.std.specs.Ordering.{is_eq};
ghost use Rattle.ld_tree.specs.Names.{name_cmp};
ghost use Rattle.ld_inverse.specs.Groups.{IsGrouped, IsInOrder, group};
ghost use Rattle.ld_rec.specs.Slots.{slot};
ghost use Rattle.ld_inverse.specs.Orders.{slot_cmp};

use crate::slots::compare;
use ld_ctx::Containers;
use ld_rec::{Kind, Slot};
use ld_tree::{NoMemory, Text};

/// Sorts by slot, and keeps the order of those of one slot.
pub fn sort_offers(offers: &mut Vec<(Slot, Text)>) -> Result<(), NoMemory>
    ensures { OnOk result (IsGrouped slot_cmp offers.old.items offers.new.items) }
{
    offers.sort_by(|a, b| compare(
        &a.0,
        b.0.iri.as_str(),
        b.0.containers,
        b.0.kind,
        b.0.value.as_str(),
    ))?;
    Ok(())
}

/// The offers of one slot, by two searches by halves.
pub fn offers_of<'a>(
    offers: &'a [(Slot, Text)],
    iri: &str,
    containers: Containers,
    kind: Kind,
    value: &str,
) -> &'a [(Slot, Text)]
    ensures { IsInOrder slot_cmp offers.now → result.now ≡ group slot_cmp (slot iri.now containers kind value.now) offers.now }
{
    let start = offers.partition_point(|offer| compare(
        &offer.0, iri, containers, kind, value,
    ).is_lt());
    let rest = &offers[start..];
    let count = rest.partition_point(|offer| compare(
        &offer.0, iri, containers, kind, value,
    ).is_le());
    &rest[..count]
}

/// The offers of all slots of one IRI.
pub fn offers_under<'a>(offers: &'a [(Slot, Text)], iri: &str) -> &'a [(Slot, Text)]
    ensures { IsInOrder slot_cmp offers.now → result.now ≡ filter (λ o. is_eq (name_cmp o.0.iri iri.now)) offers.now }
{
    let start = offers.partition_point(|offer| offer.0.iri.as_str().cmp(iri).is_lt());
    let rest = &offers[start..];
    let count = rest.partition_point(|offer| offer.0.iri.as_str().cmp(iri).is_le());
    &rest[..count]
}
