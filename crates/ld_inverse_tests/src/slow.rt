//! Term selection without a table: every term is asked for each container and wish.
use ld_ctx::{Containers, Ctx, Def, View};
use ld_inverse::Kind;

// Whether the definition offers the value (JSON-LD 1.1 API, 4.3, under step 3).
fn offers(def: &Def, default: Option<&str>, kind: Kind, value: &str) -> bool {
    if kind == Kind::Any {
        return value == "@none";
    }
    if def.reverse {
        return kind == Kind::Typed && value == "@reverse";
    }
    match (&def.typed, &def.language) {
        (Some(typed), _) if typed.as_str() == "@none" => value == "@any",
        (Some(typed), _) => kind == Kind::Typed && value == typed.as_str(),
        (None, Some(Some(tag))) => kind == Kind::Tag && value == tag.as_str(),
        (None, Some(None)) => kind == Kind::Tag && value == "@null",
        (None, None) => {
            value == "@none" || (kind == Kind::Tag && value == default.unwrap_or("@none"))
        }
    }
}

fn maps_to(def: &Def, iri: &str) -> bool {
    match &def.mapping {
        Some(mapping) => mapping.as_str() == iri,
        None => false,
    }
}

fn is_before(a: &str, b: Option<&str>) -> bool {
    match b {
        Some(b) => {
            let (m, n) = (a.chars().count(), b.chars().count());
            m < n || (m == n && a < b)
        }
        None => true,
    }
}

fn first_to_offer<'a>(
    ctx: &'a Ctx,
    terms: &[&'a str],
    iri: &str,
    containers: Containers,
    kind: Kind,
    value: &str,
) -> Option<&'a str> {
    let mut first = None;
    for term in terms {
        if let Some(def) = ctx.def(term) {
            let is_offered = maps_to(def, iri)
                && def.containers == containers
                && offers(def, ctx.language(), kind, value);
            if is_offered && is_before(term, first) {
                first = Some(*term);
            }
        }
    }
    first
}

fn first_wish<'a>(
    ctx: &'a Ctx,
    terms: &[&'a str],
    iri: &str,
    containers: Containers,
    kind: Kind,
    wishes: &[&str],
) -> Option<&'a str> {
    for wish in wishes {
        let found = first_to_offer(ctx, terms, iri, containers, kind, wish);
        if found.is_some() {
            return found;
        }
    }
    None
}

/// The term that is chosen of these.
pub fn chosen<'a>(
    ctx: &'a Ctx,
    terms: &[&'a str],
    iri: &str,
    containers: &[Containers],
    kind: Kind,
    wishes: &[&str],
) -> Option<&'a str> {
    for tried in containers {
        let found = first_wish(ctx, terms, iri, *tried, kind, wishes);
        if found.is_some() {
            return found;
        }
    }
    None
}
