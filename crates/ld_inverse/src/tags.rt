//! The language and the type that the items of a list share (JSON-LD 1.1 API, 6.2.2, 4.7).
ghost use Rattle.std.specs.Prelude.{◌≡◌, option_copied, if◌then◌else◌};
ghost use Rattle.ld_rec.specs.Kinds.{is_value_object};
ghost use Rattle.ld_rec.specs.Wishes.{tags, if_same, common_type, common_language, list_wish, wish_by};

use crate::reading::{is_value_object, text_at};
use ld_rec::Kind;
use ld_tree::Tree;

// The item's own language and type.
fn tags(item: &Tree) -> (&str, &str)
    ensures { (result.0.now, result.1.now) ≡ tags item.now }
{
    if !is_value_object(item) {
        return ("@none", "@id");
    }
    match (text_at(item, "@language"), text_at(item, "@type")) {
        (Some(language), _) => (language, "@none"),
        (None, Some(typed)) => ("@none", typed),
        (None, None) => ("@null", "@none"),
    }
}

fn if_same<'a>(common: &'a str, own: &str) -> &'a str
    ensures { result.now ≡ if_same common.now own.now }
{
    if own == common { common } else { "@none" }
}

fn common_type<'a>(first: &'a str, items: &'a [Tree]) -> &'a str
    ensures { result.now ≡ common_type first.now items.now }
{
    let mut common = first;
    for item in items {
        common = if_same(common, tags(item).1);
    }
    common
}

fn next_language<'a>(common: &'a str, item: &Tree) -> &'a str
    ensures { result.now ≡ (if is_value_object item.now then if_same common.now (tags item.now).0 else common.now) }
{
    if is_value_object(item) {
        if_same(common, tags(item).0)
    } else {
        common
    }
}

fn common_language<'a>(first: &'a str, items: &'a [Tree]) -> &'a str
    ensures { result.now ≡ common_language first.now items.now }
{
    let mut common = first;
    for item in items {
        common = next_language(common, item);
    }
    common
}

fn wish_by<'a>(typed: &'a str, language: &'a str) -> (Kind, &'a str)
    ensures { (result.0, result.1.now) ≡ wish_by typed.now language.now }
{
    if typed == "@none" {
        (Kind::Tag, language)
    } else {
        (Kind::Typed, typed)
    }
}

/// What is wished for a list of these items, under a default language.
pub fn list_wish<'a>(default: Option<&'a str>, items: &'a [Tree]) -> (Kind, &'a str)
    ensures { (result.0, result.1.now) ≡ list_wish (option_copied default.entry) items.now }
{
    match items {
        [] => (Kind::Tag, default.unwrap_or("@none")),
        [first, rest @ ..] => {
            let (language, typed) = tags(first);
            wish_by(common_type(typed, rest), common_language(language, rest))
        }
    }
}
