ghost use Rattle.std.specs.Prelude.{◌≡◌, Ok, IfOk, option_copied, option_and_then};
ghost use Rattle.ld_rec.specs.Outcome.{Gives};
ghost use Rattle.ld_rec.specs.Words.{text_of as text_of_tree};
ghost use Rattle.ld_rec.specs.Places.{type_mapping_of};
ghost use Rattle.ld_rec.specs.Values.{value_expansion, identifier_by, identifier_of, identified, typed_value, tagged_value, language_of, untyped_value, is_datatype, if_datatype, value_by};

use crate::making::{one_entry, text_tree, two_entries};
use ld_ctx::{Def, Stop, View, expand_iri};
use ld_tree::{NoMemory, Text, Tree};
use std::alloc::Global;

/// Value Expansion (JSON-LD 1.1 API, 5.3.2) of a scalar under the property. None is null: a text that the type
/// mapping makes an identifier, and that expands to null.
#[tactic(auto, unfolding(ld_rec::specs::Values::value_expansion))]
pub fn expand_value<V: View>(
    alloc: Global,
    ctx: &V,
    property: &str,
    value: &Tree,
) -> Result<Option<Tree>, Stop>
    ensures { Gives result (Ok (value_expansion (V.flat ctx.now) property.now value.now)) }
{
    let def = ctx.def(property);
    match identifier_of(alloc, ctx, type_mapping_of(def), value)? {
        Some(iri) => Ok(identified(alloc, iri)?),
        None => Ok(Some(value_by(alloc, ctx, def, value)?)),
    }
}

fn type_mapping_of(def: Option<&Def>) -> Option<&str>
    ensures { option_copied result ≡ type_mapping_of (option_copied def.entry) }
{
    match def {
        Some(def) => match &def.typed {
            Some(typed) => Some(typed.as_str()),
            None => None,
        },
        None => None,
    }
}

// Steps 1 and 2: what the value is as an identifier, where it is one.
fn identifier_of<V: View>(
    alloc: Global,
    ctx: &V,
    typed: Option<&str>,
    value: &Tree,
) -> Result<Option<Option<Text>>, NoMemory>
    ensures { IfOk result (λ iri. iri ≡ identifier_of (V.flat ctx.now) (option_copied typed.entry) (text_of_tree value.now)) }
{
    match (typed, value) {
        (Some(typed), Tree::Text(text)) => identifier_by(alloc, ctx, typed, text.as_str()),
        _ => Ok(None),
    }
}

fn identifier_by<V: View>(
    alloc: Global,
    ctx: &V,
    typed: &str,
    text: &str,
) -> Result<Option<Option<Text>>, NoMemory>
    ensures { IfOk result (λ iri. iri ≡ identifier_by (V.flat ctx.now) typed.now text.now) }
{
    match typed {
        "@id" => Ok(Some(expand_iri(alloc, ctx, text, true, false)?)),
        "@vocab" => Ok(Some(expand_iri(alloc, ctx, text, true, true)?)),
        _ => Ok(None),
    }
}

fn identified(alloc: Global, iri: Option<Text>) -> Result<Option<Tree>, NoMemory>
    ensures { IfOk result (λ tree. tree ≡ identified iri) }
{
    match iri {
        Some(iri) => Ok(Some(one_entry(alloc, "@id", Tree::Text(iri))?)),
        None => Ok(None),
    }
}

// Steps 3 to 6.
fn value_by<V: View>(
    alloc: Global,
    ctx: &V,
    def: Option<&Def>,
    value: &Tree,
) -> Result<Tree, NoMemory>
    ensures { IfOk result (λ tree. tree ≡ value_by (V.flat ctx.now) (option_copied def.entry) value.now (option_and_then if_datatype (type_mapping_of (option_copied def.entry)))) }
{
    match type_mapping_of(def) {
        Some(typed) if is_datatype(typed) => typed_value(alloc, typed, value),
        _ => untyped_value(alloc, ctx, def, value),
    }
}

fn is_datatype(typed: &str) -> bool
    ensures { result ≡ is_datatype typed.now }
{
    !matches!(typed, "@id" | "@none" | "@vocab")
}

fn typed_value(alloc: Global, datatype: &str, value: &Tree) -> Result<Tree, NoMemory>
    ensures { IfOk result (λ tree. tree ≡ typed_value datatype.now value.now) }
{
    let datatype = text_tree(alloc, datatype)?;
    two_entries(alloc, "@value", value.try_copy(alloc)?, "@type", datatype)
}

// Step 5.
fn untyped_value<V: View>(
    alloc: Global,
    ctx: &V,
    def: Option<&Def>,
    value: &Tree,
) -> Result<Tree, NoMemory>
    ensures { IfOk result (λ tree. tree ≡ untyped_value (V.flat ctx.now) (option_copied def.entry) value.now (text_of_tree value.now)) }
{
    match value {
        Tree::Text(text) => tagged_value(
            alloc,
            text_tree(alloc, text.as_str())?,
            language_of(ctx, def),
        ),
        _ => tagged_value(alloc, value.try_copy(alloc)?, None),
    }
}

fn language_of<'a, V: View>(ctx: &'a V, def: Option<&'a Def>) -> Option<&'a str>
    ensures { option_copied result ≡ language_of (V.flat ctx.now) (option_copied def.entry) }
{
    match def {
        Some(def) => match &def.language {
            Some(Some(language)) => Some(language.as_str()),
            Some(None) => None,
            None => ctx.language(),
        },
        None => ctx.language(),
    }
}

/// A value object, with the language where there is one.
pub fn tagged_value(alloc: Global, value: Tree, tag: Option<&str>) -> Result<Tree, NoMemory>
    ensures { IfOk result (λ tree. tree ≡ tagged_value value (option_copied tag.entry)) }
{
    match tag {
        Some(tag) => two_entries(alloc, "@value", value, "@language", text_tree(alloc, tag)?),
        None => one_entry(alloc, "@value", value),
    }
}
