ghost use Rattle.std.specs.Prelude.{◌≡◌, ◌++◌, Some, IfOk, option_copied, string_bytes};
ghost use Rattle.ld_rec.specs.Iris.{iri_of, has_inner_colon, is_whole, joined, if_iri, is_keyword_mapping};
ghost use Rattle.ld_rec.specs.Places.{means};
ghost use Rattle.ld_rec.specs.Iris.{parts as parts_of, from_parts, from_base, from_vocab, from_form, from_term};
ghost use Rattle.ld_ctx.specs.Parts.{texts};

use crate::view::View;
use ld_iri::{is_iri, is_keyword, is_keyword_form, resolve};
use ld_rec::Def;
use ld_tree::{NoMemory, Text};
use std::alloc::Global;

/// IRI Expansion (JSON-LD 1.1 API, 5.2.2) without a local context; `relative` is its document relative.
/// None is null. Makes no text but its answer.
#[tactic(auto, unfolding(ld_rec::specs::Iris::iri_of))]
pub fn expand_iri<V: View>(
    alloc: Global,
    ctx: &V,
    value: &str,
    relative: bool,
    vocab: bool,
) -> Result<Option<Text>, NoMemory>
    ensures { IfOk result (λ iri. iri ≡ iri_of (V.flat ctx.now) value.now relative vocab) }
{
    if is_keyword(value) {
        return Ok(Some(Text::from_str(alloc, value)?));
    }
    if is_keyword_form(value) {
        return Ok(None);
    }
    from_term(alloc, ctx, ctx.def(value), value, relative, vocab)
}

/// Whether the text expands to the keyword by vocabulary (JSON-LD 1.1 API, 5.2.2).
pub fn means<V: View>(alloc: Global, ctx: &V, keyword: &str, text: &str) -> Result<bool, NoMemory>
    ensures { IfOk result (λ is. is ≡ means (V.flat ctx.now) keyword.now text.now) }
{
    match expand_iri(alloc, ctx, text, false, true)? {
        Some(iri) => Ok(iri.as_str() == keyword),
        None => Ok(false),
    }
}

/// Whether the IRI mapping is a keyword.
pub fn is_keyword_mapping(mapping: &Option<Text>) -> bool
    ensures { result ≡ is_keyword_mapping mapping.now }
{
    match mapping {
        Some(iri) => is_keyword(iri.as_str()),
        None => false,
    }
}

// Steps 4 and 5, and else the rest.
fn from_term<V: View>(
    alloc: Global,
    ctx: &V,
    def: Option<&Def>,
    value: &str,
    relative: bool,
    vocab: bool,
) -> Result<Option<Text>, NoMemory>
    ensures { IfOk result (λ iri. iri ≡ from_term (V.flat ctx.now) relative vocab (option_copied def.entry) value.now) }
{
    if let Some(def) = def {
        if vocab || is_keyword_mapping(&def.mapping) {
            return copy_mapping(alloc, &def.mapping);
        }
    }
    Ok(Some(from_form(alloc, ctx, value, relative, vocab)?))
}

fn copy_mapping(alloc: Global, mapping: &Option<Text>) -> Result<Option<Text>, NoMemory>
    ensures { IfOk result (λ copy. copy ≡ mapping.now) }
{
    match mapping {
        Some(iri) => Ok(Some(iri.try_copy(alloc)?)),
        None => Ok(None),
    }
}

// Steps 6 to 9.
fn from_form<V: View>(
    alloc: Global,
    ctx: &V,
    value: &str,
    relative: bool,
    vocab: bool,
) -> Result<Text, NoMemory>
    ensures { IfOk result (λ iri. iri ≡ from_form (V.flat ctx.now) relative vocab value.now) }
{
    match from_parts(alloc, ctx, value)? {
        Some(iri) => Ok(iri),
        None => from_vocab(alloc, ctx, value, relative, vocab),
    }
}

// Step 6.
fn from_parts<V: View>(alloc: Global, ctx: &V, value: &str) -> Result<Option<Text>, NoMemory>
    ensures { IfOk result (λ iri. iri ≡ from_parts (V.flat ctx.now) value.now (parts_of value.now)) }
{
    let Some((prefix, suffix)) = parts(value) else {
        return Ok(None);
    };
    if is_whole(prefix, suffix) {
        return Ok(Some(Text::from_str(alloc, value)?));
    }
    match joined(alloc, ctx.def(prefix), suffix)? {
        Some(iri) => Ok(Some(iri)),
        None => if_iri(alloc, value),
    }
}

/// Prefix and suffix of a text with a colon after its first character, round its first colon.
#[tactic(auto, unfolding(ld_rec::specs::Iris::parts))]
pub fn parts(text: &str) -> Option<(&str, &str)>
    ensures { texts result ≡ parts_of text.now }
{
    if has_inner_colon(text) {
        text.split_once(':')
    } else {
        None
    }
}

/// Whether there is a colon after the first character.
pub fn has_inner_colon(text: &str) -> bool
    ensures { result ≡ has_inner_colon text.now }
{
    text.as_bytes().iter().skip(1).any(|b| *b == b':')
}

/// Whether a text with these parts is an IRI or a blank node identifier as it is.
pub fn is_whole(prefix: &str, suffix: &str) -> bool
    ensures { result ≡ is_whole (prefix.now, suffix.now) }
{
    prefix == "_" || suffix.starts_with("//")
}

// Step 6.4.
fn joined(alloc: Global, def: Option<&Def>, suffix: &str) -> Result<Option<Text>, NoMemory>
    ensures { IfOk result (λ iri. iri ≡ joined (option_copied def.entry) suffix.now) }
{
    match def {
        Some(def) if def.prefix => match &def.mapping {
            Some(iri) => Ok(Some(concatenated(alloc, iri.as_str(), suffix)?)),
            None => Ok(None),
        },
        _ => Ok(None),
    }
}

fn concatenated(alloc: Global, front: &str, back: &str) -> Result<Text, NoMemory>
    ensures { IfOk result (λ text. text ≡ front.now ++ back.now) }
{
    let mut text = String::with_capacity(alloc, front.len().saturating_add(back.len()))?;
    text.push_str(front)?;
    text.push_str(back)?;
    Ok(Text::from_string(text))
}

fn if_iri(alloc: Global, value: &str) -> Result<Option<Text>, NoMemory>
    ensures { IfOk result (λ iri. iri ≡ if_iri value.now) }
{
    if is_iri(value) {
        Ok(Some(Text::from_str(alloc, value)?))
    } else {
        Ok(None)
    }
}

// Steps 7 to 9.
fn from_vocab<V: View>(
    alloc: Global,
    ctx: &V,
    value: &str,
    relative: bool,
    vocab: bool,
) -> Result<Text, NoMemory>
    ensures { IfOk result (λ iri. iri ≡ from_vocab (V.flat ctx.now) relative vocab (V.flat ctx.now).own.vocab value.now) }
{
    if vocab {
        if let Some(vocabulary) = ctx.vocab() {
            return concatenated(alloc, vocabulary, value);
        }
    }
    from_base(alloc, ctx.base(), value, relative)
}

fn from_base(
    alloc: Global,
    base: Option<&str>,
    value: &str,
    relative: bool,
) -> Result<Text, NoMemory>
    ensures { IfOk result (λ iri. iri ≡ from_base relative (option_copied base.entry) value.now) }
{
    match base {
        Some(base) if relative => Ok(Text::from_string(resolve(alloc, base, value)?)),
        _ => Text::from_str(alloc, value),
    }
}
