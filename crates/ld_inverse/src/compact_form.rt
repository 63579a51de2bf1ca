ghost use Rattle.std.specs.Prelude.{◌≡◌, Some, IfOk, map, nat_eq, true, find, drop, length};
ghost use Rattle.std.specs.List.{All, starts_with};
ghost use Rattle.ld_rec.specs.Records.{same_text};
ghost use Rattle.ld_inverse.specs.Inverses.{IsInverseOf};
ghost use Rattle.ld_rec.specs.Prefixes.{compact_form, counts, lesser, by_prefix as by_prefix_of};
ghost use Rattle.ld_rec.specs.Slots.{term_cmp};

use crate::inverse::Inverse;
use crate::lengths::below;
use crate::prefixes::prefixes_of;
use crate::terms::characters;
use ld_ctx::View;
use ld_tree::{Iri, NoMemory, Text};
use std::alloc::Global;
use std::cmp::Ordering;

fn compare_terms(a: &str, b: &str) -> Ordering
    ensures { result ≡ term_cmp a.now b.now }
{
    characters(a).cmp(&characters(b)).then(a.cmp(b))
}

fn shorter(a: Option<Text>, b: Option<Text>) -> Option<Text>
    ensures { result ≡ lesser a b }
{
    match (a, b) {
        (Some(a), Some(b)) => {
            if compare_terms(a.as_str(), b.as_str()).is_gt() {
                Some(b)
            } else {
                Some(a)
            }
        }
        (Some(a), None) => Some(a),
        (None, b) => b,
    }
}

/// What follows the mapping.
pub fn rest_after<'a>(iri: &'a str, mapping: &str) -> &'a str
    requires { starts_with nat_eq iri.now mapping.now ≡ true }
    ensures { result.now ≡ drop (length mapping.now) iri.now }
{
    match iri.strip_prefix(mapping) {
        Some(rest) => rest,
        None => "",
    }
}

// Term, colon and the rest of the IRI.
fn compact_form(alloc: Global, iri: &str, mapping: &str, term: &str) -> Result<Text, NoMemory>
    requires { starts_with nat_eq iri.now mapping.now ≡ true }
    ensures { IfOk result (λ text. text ≡ compact_form iri.now (mapping.now, term.now)) }
{
    let mut text = String::from_str(alloc, term)?;
    text.push_str(":")?;
    text.push_str(rest_after(iri, mapping))?;
    Ok(Text::from_string(text))
}

fn maps_to(mapping: &Option<Text>, iri: &str) -> bool
    ensures { result ≡ same_text mapping.now (Some iri.now) }
{
    match mapping {
        Some(mapping) => mapping.as_str() == iri,
        None => false,
    }
}

fn counts<V: View>(ctx: &V, iri: &str, has_value: bool, text: &str) -> bool
    ensures { result ≡ counts (V.flat ctx.now) iri.now has_value text.now }
{
    match ctx.def(text) {
        Some(def) => !has_value && maps_to(&def.mapping, iri),
        None => true,
    }
}

// The first candidate that counts: the prefixes have one mapping, which begins the IRI.
fn first_counting<V: View>(
    alloc: Global,
    ctx: &V,
    iri: &str,
    has_value: bool,
    prefixes: &[(Iri, Text)],
) -> Result<Option<Text>, NoMemory>
    requires { All (λ p. starts_with nat_eq iri.now p.0 ≡ true) prefixes.now }
    ensures { IfOk result (λ found. found ≡ find (counts (V.flat ctx.now) iri.now has_value) (map (compact_form iri.now) prefixes.now)) }
{
    for (mapping, term) in prefixes {
        let text = compact_form(alloc, iri, mapping.as_str(), term.as_str())?;
        if counts(ctx, iri, has_value, text.as_str()) {
            return Ok(Some(text));
        }
    }
    Ok(None)
}

/// The shortest compact IRI by a prefix, and of these the least. One look-up for
/// each front of the IRI at whose length some mapping ends.
pub fn by_prefix<V: View>(
    alloc: Global,
    ctx: &V,
    inverse: &Inverse,
    iri: &str,
    has_value: bool,
) -> Result<Option<Text>, NoMemory>
    requires { IsInverseOf inverse.now (V.flat ctx.now) }
    ensures { IfOk result (λ found. found ≡ by_prefix_of (V.flat ctx.now) iri.now has_value) }
{
    let mut best = None;
    for length in below(inverse.lengths.as_slice(), iri.len()) {
        let prefixes = prefixes_of(inverse.prefixes.as_slice(), &iri.as_bytes()[..*length]);
        let found = first_counting(alloc, ctx, iri, has_value, prefixes)?;
        best = shorter(best, found);
    }
    Ok(best)
}
