ghost use Rattle.std.specs.Prelude.{◌≡◌, ◌++◌, ℕ, List, IfOk, OnOk, map, option_copied};
ghost use Rattle.std.specs.Borrow.{Bor};
ghost use Rattle.ld_rec.specs.declared.slot.Kind.{Kind};
ghost use Rattle.std.specs.List.{flat_map};
ghost use Rattle.ld_rec.specs.Records.{def_of};
ghost use Rattle.ld_rec.specs.Slots.{offers, slot, offered_under, offered, slots as slots_of};

use ld_ctx::{Containers, Def, View};
use ld_rec::{Kind, Slot};
use ld_tree::{NoMemory, Text};
use std::alloc::Global;

// Each kind and value that the definition offers.
fn offers<'a>(
    alloc: Global,
    default: Option<&'a str>,
    def: &'a Def,
) -> Result<Vec<(Kind, &'a str)>, NoMemory>
    ensures { IfOk result (λ made. map (λ o. (o.0, o.1.now)) made.items ≡ offers (option_copied default.entry) def.now) }
{
    let mut made = vec![in alloc; (Kind::Any, "@none")]?;
    if def.reverse {
        made.push((Kind::Typed, "@reverse"))?;
        return Ok(made);
    }
    match (&def.typed, &def.language) {
        (Some(mapping), _) if mapping.as_str() == "@none" => {
            made.push((Kind::Typed, "@any"))?;
            made.push((Kind::Tag, "@any"))?;
        }
        (Some(mapping), _) => made.push((Kind::Typed, mapping.as_str()))?,
        (None, Some(Some(tag))) => made.push((Kind::Tag, tag.as_str()))?,
        (None, Some(None)) => made.push((Kind::Tag, "@null"))?,
        (None, None) => {
            made.push((Kind::Tag, default.unwrap_or("@none")))?;
            made.push((Kind::Tag, "@none"))?;
            made.push((Kind::Typed, "@none"))?;
        }
    }
    Ok(made)
}

fn new_slot(
    alloc: Global,
    iri: &str,
    containers: Containers,
    kind: Kind,
    value: &str,
) -> Result<Slot, NoMemory>
    ensures { IfOk result (λ made. made ≡ slot iri.now containers kind value.now) }
{
    Ok(Slot {
        iri: Text::from_str(alloc, iri)?,
        containers,
        kind,
        value: Text::from_str(alloc, value)?,
    })
}

// Appends what the term offers under its mapping.
fn push_offers(
    alloc: Global,
    slots: &mut Vec<(Slot, Text)>,
    term: &str,
    iri: &str,
    containers: Containers,
    offers: &[(Kind, &str)],
) -> Result<(), NoMemory>
    ensures { OnOk result (slots.new.items ≡ slots.old.items ++ map (λ (o : Kind × List ℕ). (slot iri.now containers o.0 o.1, term.now)) (map (λ (o : Kind × Bor (List ℕ)). (o.0, o.1.now)) offers.now)) }
{
    for (kind, value) in offers {
        let slot = new_slot(alloc, iri, containers, *kind, value)?;
        slots.push((slot, Text::from_str(alloc, term)?))?;
    }
    Ok(())
}

fn mapping_of(def: &Def) -> Option<&str>
    ensures { option_copied result ≡ def.now.mapping }
{
    match &def.mapping {
        Some(iri) => Some(iri.as_str()),
        None => None,
    }
}

fn push_offered(
    alloc: Global,
    slots: &mut Vec<(Slot, Text)>,
    default: Option<&str>,
    term: &str,
    def: Option<&Def>,
) -> Result<(), NoMemory>
    ensures { OnOk result (slots.new.items ≡ slots.old.items ++ offered (option_copied default.entry) term.now (option_copied def.entry)) }
{
    let Some(def) = def else {
        return Ok(());
    };
    let Some(iri) = mapping_of(def) else {
        return Ok(());
    };
    let offers = offers(alloc, default, def)?;
    push_offers(alloc, slots, term, iri, def.containers, offers.as_slice())
}

/// What each of the terms offers.
pub fn slots<V: View>(alloc: Global, ctx: &V, terms: &[&str]) -> Result<Vec<(Slot, Text)>, NoMemory>
    ensures { IfOk result (λ slots. slots.items ≡ flat_map (λ term. offered (V.flat ctx.now).own.language term (def_of (V.flat ctx.now) term)) (map (λ t. t.now) terms.now)) }
{
    let mut slots = Vec::new(alloc);
    for term in terms {
        push_offered(alloc, &mut slots, ctx.language(), term, ctx.def(term))?;
    }
    Ok(slots)
}
