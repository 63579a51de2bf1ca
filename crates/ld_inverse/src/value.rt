ghost use Rattle.std.specs.Prelude.{◌≡◌, ◌++◌, ◌∷◌, [], Some, IfOk, OnOk, option_copied, codes};
ghost use Rattle.ld_rec.specs.Outcome.{Gives, GivesAs};
ghost use Rattle.ld_rec.specs.Promises.{IsBase};
ghost use Rattle.ld_rec.specs.Records.{same_text};
ghost use Rattle.ld_rec.specs.Places.{type_mapping_of};
ghost use Rattle.ld_rec.specs.Values.{language_of};
ghost use Rattle.ld_rec.specs.Words.{text_of};
ghost use Rattle.ld_rec.specs.Compacting.{compact_id, renamed, compact_text, compact_items, compact_types, entry_value, put_renamed, with_types, reference_in, by_reference, has_own_type, keeps_type, has_own_language, keeps_index, says_all, stays, by_value, compact_value};
ghost use Rattle.ld_tree.specs.Trees.{member};
ghost use Rattle.ld_inverse.specs.Inverses.{IsInverseOf};

use crate::inverse::Inverse;
use crate::iri::compact_iri;
use crate::reading::{are_reference_names, has, has_index, text_at};
use ld_ctx::{Def, Stop, View};
use ld_tree::{Entries, Items, NameMap, NoMemory, Text, Tree};
use std::alloc::Global;

/// Value Compaction (JSON-LD 1.1 API, 6.3.2) of a map in expanded form under the property: the IRI of a
/// reference, where the property's type mapping is `@id` or `@vocab`; the value of a value object that says
/// nothing which the property doesn't; else the map, its names compacted. Fails as [`compact_iri`] does.
#[tactic(auto, unfolding(ld_rec::specs::Compacting::compact_value))]
pub fn compact_value<V: View>(
    alloc: Global,
    ctx: &V,
    inverse: &Inverse,
    property: &str,
    value: &Tree,
) -> Result<Tree, Stop>
    requires inverse { IsInverseOf inverse.now (V.flat ctx.now) }
    requires base { IsBase (V.flat ctx.now).own.base }
    ensures { Gives result (compact_value (V.flat ctx.now) property.now value.now) }
{
    let def = ctx.def(property);
    match value {
        Tree::Map(entries) => match reference_in(value, entries) {
            Some(iri) => by_reference(alloc, ctx, inverse, def, entries, iri),
            None => by_value(alloc, ctx, inverse, def, value, entries),
        },
        other => Ok(other.try_copy(alloc)?),
    }
}

fn type_mapping_of(def: Option<&Def>) -> Option<&str>
    ensures { option_copied result ≡ type_mapping_of (option_copied def.entry) }
{
    match def {
        Some(def) => match &def.typed {
            Some(typed) => Some(typed.as_str()),
            None => None,
        },
        None => None,
    }
}

fn language_of<'a, V: View>(ctx: &'a V, def: Option<&'a Def>) -> Option<&'a str>
    ensures { option_copied result ≡ language_of (V.flat ctx.now) (option_copied def.entry) }
{
    match def {
        Some(def) => match &def.language {
            Some(Some(language)) => Some(language.as_str()),
            Some(None) => None,
            None => ctx.language(),
        },
        None => ctx.language(),
    }
}

// Whether the type mapping is the keyword.
fn is_typed(def: Option<&Def>, keyword: &str) -> bool
    ensures { result ≡ same_text (type_mapping_of (option_copied def.entry)) (Some keyword.now) }
{
    match type_mapping_of(def) {
        Some(typed) => typed == keyword,
        None => false,
    }
}

// ---- names and types

// A name, with vocab, or an identifier, with it or without.
fn compact_id<V: View>(
    alloc: Global,
    ctx: &V,
    inverse: &Inverse,
    vocab: bool,
    iri: &str,
) -> Result<Tree, Stop>
    requires inverse { IsInverseOf inverse.now (V.flat ctx.now) }
    requires base { IsBase (V.flat ctx.now).own.base }
    ensures { Gives result (compact_id (V.flat ctx.now) vocab iri.now) }
{
    let text = compact_iri(alloc, ctx, inverse, iri, None, vocab, false)?;
    Ok(Tree::Text(text))
}

fn compact_text<V: View>(
    alloc: Global,
    ctx: &V,
    inverse: &Inverse,
    tree: &Tree,
) -> Result<Tree, Stop>
    requires inverse { IsInverseOf inverse.now (V.flat ctx.now) }
    requires base { IsBase (V.flat ctx.now).own.base }
    ensures { Gives result (compact_text (V.flat ctx.now) tree.now (text_of tree.now)) }
{
    match tree {
        Tree::Text(text) => compact_id(alloc, ctx, inverse, true, text.as_str()),
        other => Ok(other.try_copy(alloc)?),
    }
}

fn push(names: &mut Vec<Tree>, name: Tree) -> Result<(), NoMemory>
    ensures { OnOk result (names.new.items ≡ names.old.items ++ name ∷ []) }
{
    names.push(name)?;
    Ok(())
}

fn compact_items<V: View>(
    alloc: Global,
    ctx: &V,
    inverse: &Inverse,
    items: &[Tree],
) -> Result<Vec<Tree>, Stop>
    requires inverse { IsInverseOf inverse.now (V.flat ctx.now) }
    requires base { IsBase (V.flat ctx.now).own.base }
    ensures { GivesAs (λ names. names.items) result (compact_items (V.flat ctx.now) items.now) }
{
    let mut names = Vec::with_capacity(alloc, items.len())?;
    for item in items {
        let name = compact_text(alloc, ctx, inverse, item)?;
        push(&mut names, name)?;
    }
    Ok(names)
}

// 8.1
fn compact_types<V: View>(
    alloc: Global,
    ctx: &V,
    inverse: &Inverse,
    types: &Tree,
) -> Result<Tree, Stop>
    requires inverse { IsInverseOf inverse.now (V.flat ctx.now) }
    requires base { IsBase (V.flat ctx.now).own.base }
    ensures { Gives result (compact_types (V.flat ctx.now) types.now) }
{
    match types {
        Tree::List(items) => {
            let names = compact_items(alloc, ctx, inverse, items.as_slice())?;
            Ok(Tree::List(Items::from_vec(names)))
        }
        other => compact_text(alloc, ctx, inverse, other),
    }
}

// The value of an entry, with the types in place of its own.
fn entry_value(
    alloc: Global,
    types: &Option<Tree>,
    name: &str,
    value: &Tree,
) -> Result<Tree, NoMemory>
    ensures { IfOk result (λ tree. tree ≡ entry_value types.now (name.now, value.now)) }
{
    match types {
        Some(types) if name == "@type" => types.try_copy(alloc),
        _ => value.try_copy(alloc),
    }
}

// One more entry, under its compacted name.
fn put_renamed<V: View>(
    alloc: Global,
    ctx: &V,
    inverse: &Inverse,
    types: &Option<Tree>,
    entry: &(Text, Tree),
    made: &mut NameMap<Tree>,
) -> Result<(), Stop>
    requires inverse { IsInverseOf inverse.now (V.flat ctx.now) }
    requires base { IsBase (V.flat ctx.now).own.base }
    ensures { GivesAs (λ _. made.new) result (put_renamed (V.flat ctx.now) types.now entry.now made.old) }
{
    let name = compact_iri(alloc, ctx, inverse, entry.0.as_str(), None, true, false)?;
    let value = entry_value(alloc, types, entry.0.as_str(), &entry.1)?;
    match made.put(name, value) {
        Ok(_) => Ok(()),
        Err((_, _, e)) => Err(e.into()),
    }
}

// 11: a map of n names takes time n log n.
fn renamed<V: View>(
    alloc: Global,
    ctx: &V,
    inverse: &Inverse,
    types: &Option<Tree>,
    entries: &Entries<Tree>,
) -> Result<Tree, Stop>
    requires inverse { IsInverseOf inverse.now (V.flat ctx.now) }
    requires base { IsBase (V.flat ctx.now).own.base }
    ensures { Gives result (renamed (V.flat ctx.now) types.now entries.now) }
{
    let mut made = NameMap::new(alloc);
    for entry in entries.as_slice() {
        put_renamed(alloc, ctx, inverse, types, entry, &mut made)?;
    }
    match made.into_entries(alloc) {
        Ok(entries) => Ok(Tree::Map(entries)),
        Err((_, e)) => Err(e.into()),
    }
}

// 8
fn with_types<V: View>(
    alloc: Global,
    ctx: &V,
    inverse: &Inverse,
    entries: &Entries<Tree>,
    types: Option<&Tree>,
) -> Result<Tree, Stop>
    requires inverse { IsInverseOf inverse.now (V.flat ctx.now) }
    requires base { IsBase (V.flat ctx.now).own.base }
    ensures { Gives result (with_types (V.flat ctx.now) entries.now (option_copied types.entry)) }
{
    match types {
        Some(types) => {
            let types = Some(compact_types(alloc, ctx, inverse, types)?);
            renamed(alloc, ctx, inverse, &types, entries)
        }
        None => renamed(alloc, ctx, inverse, &None, entries),
    }
}

// ---- references

// Whether the map is of `@id` alone, or with `@index`.
fn reference_in<'a>(value: &'a Tree, entries: &Entries<Tree>) -> Option<&'a str>
    ensures { option_copied result ≡ reference_in value.now entries.now }
{
    if are_reference_names(entries) {
        text_at(value, "@id")
    } else {
        None
    }
}

// 6
fn by_reference<V: View>(
    alloc: Global,
    ctx: &V,
    inverse: &Inverse,
    def: Option<&Def>,
    entries: &Entries<Tree>,
    iri: &str,
) -> Result<Tree, Stop>
    requires inverse { IsInverseOf inverse.now (V.flat ctx.now) }
    requires base { IsBase (V.flat ctx.now).own.base }
    ensures { Gives result (by_reference (V.flat ctx.now) (option_copied def.entry) entries.now iri.now) }
{
    if is_typed(def, "@id") {
        compact_id(alloc, ctx, inverse, false, iri)
    } else if is_typed(def, "@vocab") {
        compact_id(alloc, ctx, inverse, true, iri)
    } else {
        renamed(alloc, ctx, inverse, &None, entries)
    }
}

// ---- value objects

// 7
fn has_own_type(def: Option<&Def>, value: &Tree) -> bool
    ensures { result ≡ has_own_type (option_copied def.entry) value.now }
{
    match (text_at(value, "@type"), type_mapping_of(def)) {
        (Some(own), Some(typed)) => own == typed,
        _ => false,
    }
}

// 8
fn keeps_type(def: Option<&Def>, value: &Tree) -> bool
    ensures { result ≡ keeps_type (option_copied def.entry) value.now }
{
    is_typed(def, "@none") || (has(value, "@type") && !has_own_type(def, value))
}

fn is_same(a: Option<&str>, b: Option<&str>) -> bool
    ensures { result ≡ same_text (option_copied a.entry) (option_copied b.entry) }
{
    match (a, b) {
        (Some(a), Some(b)) => a == b,
        (None, None) => true,
        _ => false,
    }
}

// 9 and 10
fn has_own_language<V: View>(ctx: &V, def: Option<&Def>, value: &Tree, inner: &Tree) -> bool
    ensures { result ≡ has_own_language (V.flat ctx.now) (option_copied def.entry) value.now inner.now }
{
    match inner {
        Tree::Text(_) => is_same(text_at(value, "@language"), language_of(ctx, def)),
        _ => true,
    }
}

// 9.1 and 10.1
fn keeps_index(def: Option<&Def>, value: &Tree) -> bool
    ensures { result ≡ keeps_index (option_copied def.entry) value.now }
{
    let by_index = match def {
        Some(def) => def.containers.index,
        None => false,
    };
    !has_index(value) || by_index
}

fn says_all<V: View>(ctx: &V, def: Option<&Def>, value: &Tree, inner: &Tree) -> bool
    ensures { result ≡ says_all (V.flat ctx.now) (option_copied def.entry) value.now inner.now }
{
    !keeps_type(def, value) && has_own_language(ctx, def, value, inner) && keeps_index(def, value)
}

fn stays<V: View>(
    alloc: Global,
    ctx: &V,
    inverse: &Inverse,
    def: Option<&Def>,
    value: &Tree,
    entries: &Entries<Tree>,
) -> Result<Tree, Stop>
    requires inverse { IsInverseOf inverse.now (V.flat ctx.now) }
    requires base { IsBase (V.flat ctx.now).own.base }
    ensures { Gives result (stays (V.flat ctx.now) (option_copied def.entry) value.now entries.now) }
{
    if keeps_type(def, value) {
        with_types(alloc, ctx, inverse, entries, value.get("@type"))
    } else {
        renamed(alloc, ctx, inverse, &None, entries)
    }
}

fn by_value<V: View>(
    alloc: Global,
    ctx: &V,
    inverse: &Inverse,
    def: Option<&Def>,
    value: &Tree,
    entries: &Entries<Tree>,
) -> Result<Tree, Stop>
    requires inverse { IsInverseOf inverse.now (V.flat ctx.now) }
    requires base { IsBase (V.flat ctx.now).own.base }
    ensures { Gives result (by_value (V.flat ctx.now) (option_copied def.entry) value.now entries.now (member (codes "@value") value.now)) }
{
    match value.get("@value") {
        Some(inner) if has_own_type(def, value) || says_all(ctx, def, value, inner) => {
            Ok(inner.try_copy(alloc)?)
        }
        _ => stays(alloc, ctx, inverse, def, value, entries),
    }
}
