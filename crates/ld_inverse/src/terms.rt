ghost use Rattle.std.specs.Prelude.{◌≡◌, IfOk, map};
ghost use Rattle.std.specs.Map.{keys_of};
ghost use Rattle.ld_inverse.specs.Orders.{mark};
ghost use Rattle.ld_rec.specs.Slots.{begins_character, characters, shortest_first, terms_of};

use ld_ctx::View;
use ld_tree::NoMemory;
use std::alloc::Global;
use std::collections::BTreeSet;

fn begins_character(byte: u8) -> bool
    ensures { result ≡ begins_character byte }
{
    byte < 0x80 || byte >= 0xc0
}

/// The number of characters.
pub fn characters(text: &str) -> usize
    ensures { result ≡ characters text.now }
{
    let bytes = text.as_bytes();
    bytes.iter().filter(|byte| begins_character(**byte)).count()
}

// The terms in code point order.
fn in_order<V: View>(alloc: Global, ctx: &V) -> Result<Vec<&str>, NoMemory>
    ensures { IfOk result (λ terms. map (λ t. t.now) terms.items ≡ keys_of (V.flat ctx.now).own.terms.0) }
{
    let mut terms = Vec::new(alloc);
    let mut place = 0;
    while let Some(term) = ctx.term_at(place) {
        terms.push(term)?;
        place += 1;
    }
    Ok(terms)
}

// The terms, each after its number of characters.
fn ordered<'a>(alloc: Global, terms: &[&'a str]) -> Result<BTreeSet<(usize, &'a str)>, NoMemory>
    ensures { IfOk result (λ sorted. map (λ t. (t.0, t.1.now)) sorted.keys ≡ map mark (shortest_first (map (λ t. t.now) terms.now))) }
{
    let mut sorted = BTreeSet::new(alloc);
    for place in (0..terms.len()).rev() {
        let term = terms[place];
        sorted.insert((characters(term), term))?;
    }
    Ok(sorted)
}

/// The terms, shortest first.
pub fn shortest_first<V: View>(alloc: Global, ctx: &V) -> Result<Vec<&str>, NoMemory>
    ensures { IfOk result (λ sorted. map (λ t. t.now) sorted.items ≡ terms_of (V.flat ctx.now)) }
{
    let terms = in_order(alloc, ctx)?;
    let sorted = ordered(alloc, terms.as_slice())?;
    Ok(sorted.into_iter().map(|(_, term)| term).collect(alloc)?)
}
