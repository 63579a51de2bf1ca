ghost use Rattle.std.specs.Prelude.{◌≡◌, ◌++◌, IfOk, option_copied, codes};
ghost use Rattle.ld_tree.specs.Maps.{find};
ghost use Rattle.ld_ctx.specs.Flat.{flat};
ghost use Rattle.ld_rec.specs.Outcome.{give};
ghost use Rattle.ld_rec.specs.Words.{lowered, opened, has};
ghost use Rattle.ld_rec.specs.Processing.{version_in, with_base, relative_base, base_in, base_unless_remote, with_vocab, by_vocab_iri, vocab_in, with_default_language, default_language_in, without_direction, propagate_in, protected_in, keywords_in};
ghost use Rattle.ld_term.specs.Comes.{Comes};
ghost use Rattle.ld_context.specs.Calls.{Makes};

use ld_codes::{Code, Keyword, Own};
use ld_ctx::{Ctx, Names, expand_iri};
use ld_iri::{is_blank, is_iri, resolve};
use ld_rec::Stop;
use ld_tree::{Entries, NoMemory, Num, Text, Tree};
use std::alloc::Global;

/// Step 5.5.
pub fn version_in(value: Option<&Tree>) -> Result<(), Stop>
    ensures { Comes give result (version_in (opened (option_copied value.entry))) }
{
    match value {
        None => Ok(()),
        Some(Tree::Num(Num::OneOne)) => Ok(()),
        Some(_) => Err(Stop::Code(Code::InvalidVersionValue)),
    }
}

fn with_base(ctx: Ctx, base: Option<Text>) -> Ctx
    ensures { flat result ≡ with_base base (flat ctx) }
{
    let mut ctx = ctx;
    ctx.base = base;
    ctx
}

// Steps 5.7.4 and 5.7.5.
fn relative_base(alloc: Global, ctx: Ctx, text: &str) -> Result<Ctx, Stop>
    ensures { Makes result (relative_base (flat ctx) text.now (flat ctx).own.base) }
{
    let Some(base) = &ctx.base else {
        return Err(Stop::Code(Code::InvalidBaseIri));
    };
    let iri = resolve(alloc, base.as_str(), text)?;
    if is_iri(iri.as_str()) {
        Ok(with_base(ctx, Some(Text::from_string(iri))))
    } else {
        Err(Stop::Code(Code::InvalidBaseIri))
    }
}

// Steps 5.7.2 to 5.7.5.
fn base_in(alloc: Global, ctx: Ctx, value: Option<&Tree>) -> Result<Ctx, Stop>
    ensures { Makes result (base_in (opened (option_copied value.entry)) (flat ctx)) }
{
    match value {
        None => Ok(ctx),
        Some(Tree::Null) => Ok(with_base(ctx, None)),
        Some(Tree::Text(text)) => {
            if is_iri(text.as_str()) {
                Ok(with_base(ctx, Some(text.try_copy(alloc)?)))
            } else {
                relative_base(alloc, ctx, text.as_str())
            }
        }
        Some(_) => Err(Stop::Code(Code::InvalidBaseIri)),
    }
}

// Step 5.7: not in a remote context.
fn base_unless_remote(
    alloc: Global,
    ctx: Ctx,
    remote: &Names,
    value: Option<&Tree>,
) -> Result<Ctx, Stop>
    ensures { Makes result (base_unless_remote remote.now (opened (option_copied value.entry)) (flat ctx)) }
{
    match remote.as_slice() {
        [] => base_in(alloc, ctx, value),
        _ => Ok(ctx),
    }
}

fn with_vocab(ctx: Ctx, vocab: Option<Text>) -> Ctx
    ensures { flat result ≡ with_vocab vocab (flat ctx) }
{
    let mut ctx = ctx;
    ctx.vocab = vocab;
    ctx
}

fn by_vocab_iri(ctx: Ctx, iri: Option<Text>) -> Result<Ctx, Stop>
    ensures { Makes result (by_vocab_iri iri (flat ctx)) }
{
    match iri {
        Some(iri) if is_iri(iri.as_str()) || is_blank(iri.as_str()) => {
            Ok(with_vocab(ctx, Some(iri)))
        }
        _ => Err(Stop::Code(Code::InvalidVocabMapping)),
    }
}

// Step 5.8.
fn vocab_in(alloc: Global, ctx: Ctx, value: Option<&Tree>) -> Result<Ctx, Stop>
    ensures { Makes result (vocab_in (opened (option_copied value.entry)) (flat ctx)) }
{
    match value {
        None => Ok(ctx),
        Some(Tree::Null) => Ok(with_vocab(ctx, None)),
        Some(Tree::Text(text)) => {
            let iri = expand_iri(alloc, &ctx, text.as_str(), true, true)?;
            by_vocab_iri(ctx, iri)
        }
        Some(_) => Err(Stop::Code(Code::InvalidVocabMapping)),
    }
}

// A language tag in lower case.
fn lowered(alloc: Global, tag: &str) -> Result<Text, NoMemory>
    ensures { IfOk result (λ text. text ≡ lowered tag.now) }
{
    Ok(Text::from_string(tag.to_ascii_lowercase(alloc)?))
}

fn with_language(ctx: Ctx, language: Option<Text>) -> Ctx
    ensures { flat result ≡ with_default_language language (flat ctx) }
{
    let mut ctx = ctx;
    ctx.language = language;
    ctx
}

// Step 5.9.
fn default_language_in(alloc: Global, ctx: Ctx, value: Option<&Tree>) -> Result<Ctx, Stop>
    ensures { Makes result (default_language_in (opened (option_copied value.entry)) (flat ctx)) }
{
    match value {
        None => Ok(ctx),
        Some(Tree::Null) => Ok(with_language(ctx, None)),
        Some(Tree::Text(tag)) => Ok(with_language(ctx, Some(lowered(alloc, tag.as_str())?))),
        Some(_) => Err(Stop::Code(Code::InvalidDefaultLanguage)),
    }
}

// Step 5.10: outside of this profile.
fn without_direction(ctx: Ctx, entries: &Entries<Tree>) -> Result<Ctx, Stop>
    ensures { Makes result (without_direction entries.now (flat ctx)) }
{
    if has(entries, "@direction") {
        Err(Stop::Own(Own::OutsideProfile(Keyword::Direction)))
    } else {
        Ok(ctx)
    }
}

/// Whether the map has the name.
pub fn has(entries: &Entries<Tree>, name: &str) -> bool
    ensures { result ≡ has entries.now name.now }
{
    entries.get(name).is_some()
}

// Step 5.11.
fn propagate_in(ctx: Ctx, value: Option<&Tree>) -> Result<Ctx, Stop>
    ensures { Makes result (propagate_in (opened (option_copied value.entry)) (flat ctx)) }
{
    match value {
        None => Ok(ctx),
        Some(Tree::Bool(_)) => Ok(ctx),
        Some(_) => Err(Stop::Code(Code::InvalidPropagateValue)),
    }
}

fn protection(value: Option<&Tree>) -> Result<bool, Stop>
    ensures { Comes give result (protected_in (opened (option_copied value.entry))) }
{
    match value {
        None => Ok(false),
        Some(Tree::Bool(protected)) => Ok(*protected),
        Some(_) => Err(Stop::Code(Code::InvalidProtectedValue)),
    }
}

/// Step 5.13: the `@protected` of the terms.
pub fn protected_in(entries: &Entries<Tree>) -> Result<bool, Stop>
    ensures { Comes give result (protected_in (opened (find entries.now (codes "@protected")))) }
{
    protection(entries.get("@protected"))
}

/// Steps 5.7 to 5.11.
pub fn keywords_in(
    alloc: Global,
    ctx: Ctx,
    remote: &Names,
    entries: &Entries<Tree>,
) -> Result<Ctx, Stop>
    ensures { Makes result (keywords_in remote.now entries.now (flat ctx)) }
{
    let based = base_unless_remote(alloc, ctx, remote, entries.get("@base"))?;
    let worded = vocab_in(alloc, based, entries.get("@vocab"))?;
    let spoken = default_language_in(alloc, worded, entries.get("@language"))?;
    let directed = without_direction(spoken, entries)?;
    propagate_in(directed, entries.get("@propagate"))
}
