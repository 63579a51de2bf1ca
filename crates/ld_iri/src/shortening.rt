ghost use Rattle.std.specs.Prelude.{◌≡◌, ◌++◌, IsTrue, IfOk, OnOk, string_bytes};
ghost use Rattle.ld_iri.specs.Words.{is_iri};
ghost use Rattle.ld_iri.specs.Resolution.{segments, folders};
ghost use Rattle.ld_iri.specs.Relative.{steps_up, way, needs_dot, path_reference, has_same_place, is_fragment_of, relative};
ghost use Rattle.ld_iri.specs.View.{components};

use crate::parts::{Parts, cut, split};
use crate::resolution::{push_marked, resolve};
use crate::words::is_keyword_form;
use ld_tree::NoMemory;
use std::alloc::Global;

// What is left of both paths behind the folders that both begin with.
fn left_over<'a>(base: &'a str, path: &'a str) -> (&'a str, &'a str)
    ensures { steps_up (folders result.0.now) ++ result.1.now ≡ way (folders base.entry.now) (segments path.entry.now) }
{
    let mut base_left = base;
    let mut path_left = path;
    while let Some((folder, base_rest)) = base_left.split_once('/') {
        let Some((segment, path_rest)) = path_left.split_once('/') else {
            return (base_left, path_left);
        };
        if folder != segment {
            return (base_left, path_left);
        }
        base_left = base_rest;
        path_left = path_rest;
    }
    (base_left, path_left)
}

// Appends `../` for each folder of the path.
fn push_steps_up(text: &mut String, path: &str) -> Result<(), NoMemory>
    ensures { OnOk result (string_bytes text.new ≡ string_bytes text.old ++ steps_up (folders path.now)) }
{
    let mut rest = path;
    while let Some((_, after)) = rest.split_once('/') {
        text.push_str("../")?;
        rest = after;
    }
    Ok(())
}

fn needs_dot(reference: &str) -> bool
    ensures { result ≡ needs_dot reference.now }
{
    let (first, _) = cut(reference, '/');
    let (first, _) = cut(first, '?');
    let (first, _) = cut(first, '#');
    let (_, behind_colon) = cut(first, ':');
    first.is_empty() || behind_colon.is_some() || is_keyword_form(reference)
}

fn path_reference(
    alloc: Global,
    base: &Parts<'_>,
    iri: &Parts<'_>,
    iri_len: usize,
) -> Result<String, NoMemory>
    ensures { IfOk result (λ text. string_bytes text ≡ path_reference (components base.now) (components iri.now)) }
{
    let (folders, rest) = left_over(base.path, iri.path);
    let capacity = folders.len().saturating_mul(3).saturating_add(iri_len);
    let mut text = String::with_capacity(alloc, capacity.saturating_add(2))?;
    push_steps_up(&mut text, folders)?;
    text.push_str(rest)?;
    push_marked(&mut text, "?", iri.query)?;
    push_marked(&mut text, "#", iri.fragment)?;
    if needs_dot(text.as_str()) {
        text.insert_str(0, "./")?;
    }
    Ok(text)
}

fn has_same_place(base: &Parts<'_>, iri: &Parts<'_>) -> bool
    ensures { result ≡ has_same_place (components base.now) (components iri.now) }
{
    base.scheme == iri.scheme && base.authority == iri.authority
}

fn is_fragment_of(base: &Parts<'_>, iri: &Parts<'_>) -> bool
    ensures { result ≡ is_fragment_of (components base.now) (components iri.now) }
{
    if base.path != iri.path {
        return false;
    }
    base.query == iri.query && iri.fragment.is_some()
}

/// The relative reference that stands for the IRI under the base (this project's own rule; both are of IRI
/// form). It is the IRI itself where scheme or authority differ, or where no path leads back to it; `#` and
/// the fragment where all else agrees; else the path from the base's last folder, with query and fragment,
/// and with `./` before it where it would be read as something else: it is empty, begins with `/`, `?` or
/// `#`, has a `:` in its first segment, or has the form of a keyword. The time is linear in the bytes of both.
pub fn relative(alloc: Global, base: &str, iri: &str) -> Result<String, NoMemory>
    requires base { IsTrue (is_iri base.now) }
    requires iri { IsTrue (is_iri iri.now) }
    ensures { IfOk result (λ text. string_bytes text ≡ relative base.now iri.now) }
{
    let from = split(base);
    let to = split(iri);
    if !has_same_place(&from, &to) {
        return Ok(String::from_str(alloc, iri)?);
    }
    if is_fragment_of(&from, &to) {
        let mut text = String::with_capacity(alloc, iri.len())?;
        push_marked(&mut text, "#", to.fragment)?;
        return Ok(text);
    }
    let reference = path_reference(alloc, &from, &to, iri.len())?;
    let reached = resolve(alloc, base, reference.as_str())?;
    if reached.as_str() == iri {
        Ok(reference)
    } else {
        Ok(String::from_str(alloc, iri)?)
    }
}
