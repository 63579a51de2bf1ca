//! The bodies of refusals.
ghost use Rattle.std.specs.Prelude.{◌≡◌, Some, IfOk, codes};
ghost use Rattle.ld_tree.specs.declared.tree.Tree.{Tree};
ghost use Rattle.ld_rec.specs.Kinds.{text_tree as tree_of_text};
ghost use Rattle.ld_answer.specs.Bodies.{at_body, code_body, load_fault_body, number_tree, own_about_body, own_body, own_text_body, read_body, refusal_body, too_many_body};

use crate::refusal::EnvelopeRefusal;
use ld_codes::{Code, Own};
use ld_expand_value::making::{empty, one_entry, put, text_tree, two_entries};
use ld_tree::{NoMemory, Num, Text, Tree};
use ld_tree_read::ReadRefusal;
use std::alloc::Global;

/// The body that names a code of the Recommendation: `{"code":"<text>"}`.
pub fn code_body(alloc: Global, code: Code) -> Result<Tree, NoMemory>
    ensures { IfOk result (λ body. body ≡ code_body code) }
{
    one_entry(alloc, "code", text_tree(alloc, code.text())?)
}

/// The body that names a refusal of this profile's own: `{"own":"nesting limit"}`, or
/// `{"keyword":"<keyword>","own":"outside profile"}`.
pub fn own_body(alloc: Global, own: Own) -> Result<Tree, NoMemory>
    ensures { IfOk result (λ body. body ≡ own_body own) }
{
    match own {
        Own::NestingLimit => own_text_body(alloc, "nesting limit"),
        Own::OutsideProfile(keyword) => {
            let keyword = text_tree(alloc, keyword.text())?;
            own_about_body(alloc, "keyword", keyword, "outside profile")
        }
    }
}

/// The body of a refusal that is this text alone: `{"own":"<text>"}`.
pub fn own_text_body(alloc: Global, own: &str) -> Result<Tree, NoMemory>
    ensures { IfOk result (λ body. body ≡ own_text_body own.now) }
{
    one_entry(alloc, "own", text_tree(alloc, own)?)
}

/// The body of a refusal that is about something: `{"<name>":<about>,"own":"<text>"}`.
pub fn own_about_body(alloc: Global, name: &str, about: Tree, own: &str) -> Result<Tree, NoMemory>
    ensures { IfOk result (λ body. body ≡ own_about_body name.now about own.now) }
{
    two_entries(alloc, name, about, "own", text_tree(alloc, own)?)
}

// A place in the input, or a count, which `min` never cuts: none is so great.
fn number_tree(n: u64) -> Tree
    ensures { result ≡ number_tree n }
{
    Tree::Num(Num::Whole(n.min(i64::MAX as u64) as i64))
}

fn at_body(alloc: Global, at: usize, own: &str) -> Result<Option<Tree>, NoMemory>
    ensures { IfOk result (λ body. body ≡ Some (at_body at own.now)) }
{
    Ok(Some(own_about_body(alloc, "at", number_tree(at as u64), own)?))
}

fn field_body(alloc: Global, name: &Text, own: &str) -> Result<Option<Tree>, NoMemory>
    ensures { IfOk result (λ body. body ≡ Some (own_about_body (codes "field") (tree_of_text name.now) own.now)) }
{
    let field = text_tree(alloc, name.as_str())?;
    Ok(Some(own_about_body(alloc, "field", field, own)?))
}

fn read_body(alloc: Global, refusal: ReadRefusal) -> Result<Option<Tree>, NoMemory>
    ensures { IfOk result (λ body. body ≡ read_body refusal) }
{
    match refusal {
        ReadRefusal::Syntax { at } => at_body(alloc, at, "syntax"),
        ReadRefusal::NotUtf8 { at } => at_body(alloc, at, "not utf-8"),
        ReadRefusal::Fraction { at } => at_body(alloc, at, "fractional number"),
        ReadRefusal::TooLarge { at } => at_body(alloc, at, "number too large"),
        ReadRefusal::TooDeep { at } => at_body(alloc, at, "too deep"),
        ReadRefusal::NoMemory => Ok(None),
    }
}

/// The body of a refused envelope: `{"at":<place>,"own":"<why no JSON text>"}`, `{"own":"not an envelope"}` or
/// `{"field":"<name>","own":"<what is wrong with it>"}`. Want of memory has none.
pub fn refusal_body(alloc: Global, refusal: &EnvelopeRefusal) -> Result<Option<Tree>, NoMemory>
    ensures { IfOk result (λ body. body ≡ refusal_body refusal.now) }
{
    match refusal {
        EnvelopeRefusal::Json(e) => read_body(alloc, *e),
        EnvelopeRefusal::NotAnEnvelope => Ok(Some(own_text_body(alloc, "not an envelope")?)),
        EnvelopeRefusal::UnknownField(name) => field_body(alloc, name, "unknown field"),
        EnvelopeRefusal::WrongKind(name) => field_body(alloc, name, "wrong kind"),
        EnvelopeRefusal::NoMemory => Ok(None),
    }
}

/// The body where more contexts are needed than a request holds: `{"iri":"<the missing one>","own":"too many contexts"}`.
pub fn too_many_body(alloc: Global, iri: &str) -> Result<Tree, NoMemory>
    ensures { IfOk result (λ body. body ≡ too_many_body iri.now) }
{
    own_about_body(alloc, "iri", text_tree(alloc, iri)?, "too many contexts")
}

/// The body where a load failed, with the loader's count of failures before and after it:
/// `{"after":<count>,"before":<count>,"flight":<number>,"iri":"<context>","own":"load fault"}`.
pub fn load_fault_body(
    alloc: Global,
    iri: &str,
    flight: u32,
    before: u64,
    after: u64,
) -> Result<Tree, NoMemory>
    ensures { IfOk result (λ body. body ≡ load_fault_body iri.now flight before after) }
{
    let mut entries = empty(alloc);
    put(alloc, &mut entries, "after", number_tree(after))?;
    put(alloc, &mut entries, "before", number_tree(before))?;
    put(alloc, &mut entries, "flight", number_tree(flight as u64))?;
    put(alloc, &mut entries, "iri", text_tree(alloc, iri)?)?;
    put(alloc, &mut entries, "own", text_tree(alloc, "load fault")?)?;
    Ok(Tree::Map(entries))
}
