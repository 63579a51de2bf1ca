ghost use Rattle.std.specs.Prelude.{◌≡◌, Some, None, false, IfOk, List, map, length, drop, nat_eq, true, option_copied};
ghost use Rattle.std.specs.List.{starts_with};
ghost use Rattle.ld_iri.specs.Words.{is_iri};
ghost use Rattle.ld_rec.specs.Outcome.{Gives, GivesAs};
ghost use Rattle.ld_rec.specs.Promises.{IsBase};
ghost use Rattle.ld_rec.specs.Records.{Context, same_text};
ghost use Rattle.ld_rec.specs.Prefixes.{is_front};
ghost use Rattle.ld_rec.specs.Selection.{chosen};
ghost use Rattle.ld_rec.specs.Wishes.{is_reference_wish};
ghost use Rattle.ld_rec.specs.Compacting.{by_vocabulary, has_prefix_flag, is_prefix, is_confused, by_base, unless_confused, by_form, term_for, name_for, id_of, is_term_for, mapping_of, refers_by, selected, compact_iri};
ghost use Rattle.ld_inverse.specs.Inverses.{IsInverseOf};
ghost use Rattle.ld_inverse.specs.Questions.{question_of};

use crate::compact_form::{by_prefix, rest_after};
use crate::inverse::Inverse;
use crate::question::{Question, asked, is_reference_wish};
use crate::reading::text_at;
use ld_codes::Code;
use ld_ctx::{Def, Stop, View};
use ld_iri::{is_iri, relative, split};
use ld_tree::{NoMemory, Text, Tree};
use std::alloc::Global;

/// IRI Compaction (JSON-LD 1.1 API, 6.2.2) of an IRI, a keyword or a blank node identifier: a term for it
/// where `vocab` is set, chosen for the value that it stands before; else, with `vocab`, what follows the
/// vocabulary; else the shortest compact IRI; else, without `vocab`, a reference relative to the base, where
/// it is an IRI; else the text itself. Fails with `IRI confused with prefix` where nothing before that last
/// step was found for an IRI without an authority, whose scheme is a term that may be a prefix, and where
/// this holds of the value's `@id` while a term is chosen.
#[tactic(auto, unfolding(ld_rec::specs::Compacting::compact_iri))]
pub fn compact_iri<V: View>(
    alloc: Global,
    ctx: &V,
    inverse: &Inverse,
    iri: &str,
    value: Option<&Tree>,
    vocab: bool,
    reverse: bool,
) -> Result<Text, Stop>
    requires inverse { IsInverseOf inverse.now (V.flat ctx.now) }
    requires base { IsBase (V.flat ctx.now).own.base }
    ensures { Gives result (compact_iri (V.flat ctx.now) iri.now (option_copied value.entry) vocab reverse) }
{
    let has_value = value.is_some();
    match selected(alloc, ctx, inverse, iri, value, vocab, reverse)? {
        Some(term) => Ok(Text::from_str(alloc, term)?),
        None => by_form(alloc, ctx, inverse, iri, has_value, vocab),
    }
}

// Step 6.
fn by_vocabulary<'a, V: View>(ctx: &V, iri: &'a str, vocab: bool) -> Option<&'a str>
    ensures { option_copied result ≡ by_vocabulary (V.flat ctx.now) iri.now vocab (V.flat ctx.now).own.vocab }
{
    match ctx.vocab() {
        Some(vocabulary) if vocab && is_front(vocabulary, iri) => {
            let suffix = rest_after(iri, vocabulary);
            if ctx.def(suffix).is_some() {
                None
            } else {
                Some(suffix)
            }
        }
        _ => None,
    }
}

// Whether the front begins the text and isn't all of it.
fn is_front(front: &str, text: &str) -> bool
    ensures { result ≡ is_front front.now text.now }
{
    text.starts_with(front) && front.len() < text.len()
}

fn has_prefix_flag(def: Option<&Def>) -> bool
    ensures { result ≡ has_prefix_flag (option_copied def.entry) }
{
    match def {
        Some(def) => def.prefix,
        None => false,
    }
}

fn is_prefix<V: View>(ctx: &V, term: Option<&str>) -> bool
    ensures { result ≡ is_prefix (V.flat ctx.now) (option_copied term.entry) }
{
    match term {
        Some(term) => has_prefix_flag(ctx.def(term)),
        None => false,
    }
}

// Step 9.
fn is_confused<V: View>(ctx: &V, iri: &str) -> bool
    ensures { result ≡ is_confused (V.flat ctx.now) iri.now }
{
    let parts = split(iri);
    is_iri(iri) && !parts.authority.is_some() && is_prefix(ctx, parts.scheme)
}

// Step 10.
fn by_base<V: View>(alloc: Global, ctx: &V, iri: &str, vocab: bool) -> Result<Text, NoMemory>
    requires { IsBase (V.flat ctx.now).own.base }
    ensures { IfOk result (λ text. text ≡ by_base iri.now vocab (V.flat ctx.now).own.base) }
{
    match ctx.base() {
        Some(base) if !vocab && is_iri(iri) => Ok(Text::from_string(relative(alloc, base, iri)?)),
        _ => Text::from_str(alloc, iri),
    }
}

// Steps 9 and 10.
fn unless_confused<V: View>(alloc: Global, ctx: &V, iri: &str, vocab: bool) -> Result<Text, Stop>
    requires { IsBase (V.flat ctx.now).own.base }
    ensures { Gives result (unless_confused (V.flat ctx.now) iri.now vocab) }
{
    if is_confused(ctx, iri) {
        return Err(Stop::Code(Code::IriConfusedWithPrefix));
    }
    Ok(by_base(alloc, ctx, iri, vocab)?)
}

// Steps 6 to 11.
fn by_form<V: View>(
    alloc: Global,
    ctx: &V,
    inverse: &Inverse,
    iri: &str,
    has_value: bool,
    vocab: bool,
) -> Result<Text, Stop>
    requires inverse { IsInverseOf inverse.now (V.flat ctx.now) }
    requires base { IsBase (V.flat ctx.now).own.base }
    ensures { Gives result (by_form (V.flat ctx.now) iri.now has_value vocab) }
{
    if let Some(suffix) = by_vocabulary(ctx, iri, vocab) {
        return Ok(Text::from_str(alloc, suffix)?);
    }
    match by_prefix(alloc, ctx, inverse, iri, has_value)? {
        Some(text) => Ok(text),
        None => unless_confused(alloc, ctx, iri, vocab),
    }
}

fn select<'a>(
    inverse: &'a Inverse,
    iri: &str,
    question: &Question,
    preferred: &[&str],
) -> Option<&'a str>
    ensures { (context : Context) → IsInverseOf inverse.now context → option_copied result ≡ chosen context iri.now (question_of question.now).containers (question_of question.now).kind (map (λ p. p.now) preferred.now) }
{
    inverse.select(
        iri,
        question.containers.as_slice(),
        question.kind,
        preferred,
    )
}

// 4.17: no reference.
fn without_reference<'a>(inverse: &'a Inverse, iri: &str, question: &Question) -> Option<&'a str>
    ensures { (context : Context) → IsInverseOf inverse.now context → option_copied result ≡ term_for context iri.now (question_of question.now) None }
{
    if question.wish == "@reverse" {
        select(
            inverse,
            iri,
            question,
            &["@reverse", question.wish, "@none", "@any"],
        )
    } else {
        select(inverse, iri, question, &[question.wish, "@none", "@any"])
    }
}

// 4.16.1: a reference to what a term maps to.
fn by_vocab_first<'a>(inverse: &'a Inverse, iri: &str, question: &Question) -> Option<&'a str>
    ensures { (context : Context) → IsInverseOf inverse.now context → option_copied result ≡ term_for context iri.now (question_of question.now) (Some true) }
{
    if question.wish == "@reverse" {
        select(
            inverse,
            iri,
            question,
            &["@reverse", "@vocab", "@id", "@none", "@any"],
        )
    } else {
        select(inverse, iri, question, &["@vocab", "@id", "@none", "@any"])
    }
}

// 4.16.2: another reference.
fn by_id_first<'a>(inverse: &'a Inverse, iri: &str, question: &Question) -> Option<&'a str>
    ensures { (context : Context) → IsInverseOf inverse.now context → option_copied result ≡ term_for context iri.now (question_of question.now) (Some false) }
{
    if question.wish == "@reverse" {
        select(
            inverse,
            iri,
            question,
            &["@reverse", "@id", "@vocab", "@none", "@any"],
        )
    } else {
        select(inverse, iri, question, &["@id", "@vocab", "@none", "@any"])
    }
}

// Steps 4.15 to 4.21.
fn term_for<'a>(
    inverse: &'a Inverse,
    iri: &str,
    question: &Question,
    refers: Option<bool>,
) -> Option<&'a str>
    ensures { (context : Context) → IsInverseOf inverse.now context → option_copied result ≡ term_for context iri.now (question_of question.now) refers }
{
    match refers {
        None => without_reference(inverse, iri, question),
        Some(true) => by_vocab_first(inverse, iri, question),
        Some(false) => by_id_first(inverse, iri, question),
    }
}

// An IRI with vocab and no value.
fn name_for<V: View>(alloc: Global, ctx: &V, inverse: &Inverse, iri: &str) -> Result<Text, Stop>
    requires inverse { IsInverseOf inverse.now (V.flat ctx.now) }
    requires base { IsBase (V.flat ctx.now).own.base }
    ensures { Gives result (name_for (V.flat ctx.now) iri.now) }
{
    let question = asked(alloc, false, ctx.language(), None)?;
    match term_for(inverse, iri, &question, None) {
        Some(term) => Ok(Text::from_str(alloc, term)?),
        None => by_form(alloc, ctx, inverse, iri, false, true),
    }
}

fn id_of(value: Option<&Tree>) -> Option<&str>
    ensures { option_copied result ≡ id_of (option_copied value.entry) }
{
    match value {
        Some(value) => text_at(value, "@id"),
        None => None,
    }
}

fn maps_to(def: Option<&Def>, iri: &str) -> bool
    ensures { result ≡ same_text (mapping_of (option_copied def.entry)) (Some iri.now) }
{
    match def {
        Some(def) => match &def.mapping {
            Some(mapping) => mapping.as_str() == iri,
            None => false,
        },
        None => false,
    }
}

// Step 4.16, where a term maps to the IRI: whether the IRI under `@id` compacts to a term for it.
fn refers<V: View>(
    alloc: Global,
    ctx: &V,
    inverse: &Inverse,
    wish: &str,
    value: Option<&Tree>,
) -> Result<Option<bool>, Stop>
    requires inverse { IsInverseOf inverse.now (V.flat ctx.now) }
    requires base { IsBase (V.flat ctx.now).own.base }
    ensures { Gives result (refers_by (V.flat ctx.now) (is_reference_wish wish.now) (id_of (option_copied value.entry))) }
{
    match id_of(value) {
        Some(id) if is_reference_wish(wish) => {
            let name = name_for(alloc, ctx, inverse, id)?;
            Ok(Some(maps_to(ctx.def(name.as_str()), id)))
        }
        _ => Ok(None),
    }
}

// Step 4.
fn selected<'a, V: View>(
    alloc: Global,
    ctx: &V,
    inverse: &'a Inverse,
    iri: &str,
    value: Option<&Tree>,
    vocab: bool,
    reverse: bool,
) -> Result<Option<&'a str>, Stop>
    requires inverse { IsInverseOf inverse.now (V.flat ctx.now) }
    requires base { IsBase (V.flat ctx.now).own.base }
    ensures { GivesAs (λ term. option_copied term) result (selected (V.flat ctx.now) iri.now (option_copied value.entry) vocab reverse) }
{
    if !vocab || !inverse.maps(iri) {
        return Ok(None);
    }
    let question = asked(alloc, reverse, ctx.language(), value)?;
    let refers = refers(alloc, ctx, inverse, question.wish, value)?;
    Ok(term_for(inverse, iri, &question, refers))
}
