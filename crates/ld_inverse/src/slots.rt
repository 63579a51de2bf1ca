ghost use Rattle.std.specs.Prelude.{◌≡◌};
ghost use Rattle.ld_inverse.specs.Orders.{containers_cmp, kind_cmp, slot_cmp};
ghost use Rattle.ld_rec.specs.Slots.{slot};

use ld_ctx::Containers;
use ld_rec::{Kind, Slot};
use std::cmp::Ordering;

fn compare_containers(a: Containers, b: Containers) -> Ordering
    ensures { result ≡ containers_cmp a b }
{
    a.cmp(&b)
}

fn compare_kinds(a: Kind, b: Kind) -> Ordering
    ensures { result ≡ kind_cmp a b }
{
    a.cmp(&b)
}

/// The order of slots: by IRI, then by containers, kind and value.
pub fn compare(one: &Slot, iri: &str, containers: Containers, kind: Kind, value: &str) -> Ordering
    ensures { result ≡ slot_cmp one.now (slot iri.now containers kind value.now) }
{
    one.iri
        .as_str()
        .cmp(iri)
        .then(compare_containers(one.containers, containers))
        .then(compare_kinds(one.kind, kind))
        .then(one.value.as_str().cmp(value))
}
