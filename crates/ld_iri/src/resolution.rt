ghost use Rattle.std.specs.Prelude.{◌≡◌, ◌++◌, List, ℕ, IfOk, OnOk, codes, string_bytes, option_copied};
ghost use Rattle.ld_iri.specs.Components.{marked, ended, recomposed};
ghost use Rattle.ld_iri.specs.Resolution.{folders, folder_segments, merged, target, resolved};
ghost use Rattle.ld_iri.specs.View.{components};

use crate::dots::without_dots;
use crate::parts::{Parts, split};
use ld_tree::NoMemory;
use std::alloc::Global;

// A path up to its last slash; `None` where it has no slash.
fn folder(path: &str) -> Option<&str>
    ensures { folders path.now ≡ folder_segments (option_copied result) }
{
    let at = path.rfind('/')?;
    Some(&path[..at])
}

// What a path of a reference is put behind (section 5.2.3).
fn merge_folder<'a>(base: &Parts<'a>) -> Option<&'a str>
    ensures { (path : List (List ℕ)) → merged (components base.now) path ≡ folder_segments (option_copied result) ++ path }
{
    if base.authority.is_some() && base.path.is_empty() {
        Some("")
    } else {
        folder(base.path)
    }
}

// The target's path (section 5.2.2).
fn target_path(alloc: Global, base: &Parts<'_>, reference: &Parts<'_>) -> Result<String, NoMemory>
    ensures { IfOk result (λ text. string_bytes text ≡ (target (components base.now) (components reference.now)).path) }
{
    if reference.scheme.is_some() || reference.authority.is_some() {
        return without_dots(alloc, None, reference.path);
    }
    if reference.path.is_empty() {
        return Ok(String::from_str(alloc, base.path)?);
    }
    if reference.path.starts_with('/') {
        return without_dots(alloc, None, reference.path);
    }
    without_dots(alloc, merge_folder(base), reference.path)
}

// The target (section 5.2.2) with the path as it was found.
fn with_path<'a>(base: &Parts<'a>, reference: &Parts<'a>, path: &'a str) -> Parts<'a>
    ensures { components result ≡ record (target (components base.now) (components reference.now)) { path = path.now } }
{
    if reference.scheme.is_some() {
        return Parts { path, ..*reference };
    }
    if reference.authority.is_some() {
        return Parts {
            scheme: base.scheme,
            path,
            ..*reference
        };
    }
    if reference.path.is_empty() {
        return Parts {
            path,
            query: reference.query.or(base.query),
            fragment: reference.fragment,
            ..*base
        };
    }
    Parts {
        path,
        query: reference.query,
        fragment: reference.fragment,
        ..*base
    }
}

pub(crate) fn push_marked(text: &mut String, mark: &str, part: Option<&str>) -> Result<(), NoMemory>
    ensures { OnOk result (string_bytes text.new ≡ string_bytes text.old ++ marked mark.now (option_copied part.entry)) }
{
    if let Some(part) = part {
        text.push_str(mark)?;
        text.push_str(part)?;
    }
    Ok(())
}

fn push_scheme(text: &mut String, scheme: Option<&str>) -> Result<(), NoMemory>
    ensures { OnOk result (string_bytes text.new ≡ string_bytes text.old ++ ended (option_copied scheme.entry) (codes ":")) }
{
    if let Some(scheme) = scheme {
        text.push_str(scheme)?;
        text.push_str(":")?;
    }
    Ok(())
}

// Appends the parts with their marks (section 5.3).
fn push_parts(text: &mut String, parts: &Parts<'_>) -> Result<(), NoMemory>
    ensures { OnOk result (string_bytes text.new ≡ string_bytes text.old ++ recomposed (components parts.now)) }
{
    push_scheme(text, parts.scheme)?;
    push_marked(text, "//", parts.authority)?;
    text.push_str(parts.path)?;
    push_marked(text, "?", parts.query)?;
    push_marked(text, "#", parts.fragment)
}

/// What the reference means under the base: RFC 3986, section 5.2, in its strict form, with
/// `remove_dot_segments` and no further normalisation. It answers for any base; where the base is of IRI
/// form, what comes is (`laws::resolved_is_iri`). The time is linear in the bytes of both.
pub fn resolve(alloc: Global, base: &str, reference: &str) -> Result<String, NoMemory>
    ensures { IfOk result (λ text. string_bytes text ≡ resolved base.now reference.now) }
{
    let capacity = base.len().saturating_add(reference.len()).saturating_add(1);
    let base = split(base);
    let reference = split(reference);
    let path = target_path(alloc, &base, &reference)?;
    let mut text = String::with_capacity(alloc, capacity)?;
    push_parts(&mut text, &with_path(&base, &reference, path.as_str()))?;
    Ok(text)
}
