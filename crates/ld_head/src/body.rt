//! The texts of bodies.
ghost use Rattle.std.specs.Prelude.{◌≡◌, [], ◌∷◌, ◌++◌, IfOk};
ghost use Rattle.std.specs.Fmt.{decimal};
ghost use Rattle.ld_tree.specs.CompactText.{text};
ghost use Rattle.ld_head.specs.Outcomes.{bad_own, body_of, own_body};

use crate::outcome::Outcome;
use itoa::Buffer;
use ld_tree::{NoMemory, Raw, Tree};
use ld_tree_write::{write_text, write_tree};
use std::alloc::Global;

/// The text of the outcome's body.
pub(crate) fn body_text(alloc: Global, outcome: &Outcome) -> Result<Raw, NoMemory>
    ensures { IfOk result (λ body. body ≡ text (body_of outcome.now)) }
{
    match outcome {
        Outcome::Result(tree)
        | Outcome::Code(tree)
        | Outcome::Own(tree)
        | Outcome::BadBody(tree)
        | Outcome::LoadFault(tree)
        | Outcome::TooMany(tree) => tree_text(alloc, tree),
        Outcome::Evicted { version } | Outcome::Revised { version } => {
            number_text(alloc, b"{\"version\":", *version, b"")
        }
        Outcome::Same { version } => {
            number_text(alloc, b"{\"own\":\"same\",\"version\":", *version, b"")
        }
        Outcome::StoreFull => own_text(alloc, "store full"),
        Outcome::ArchiveFull { bytes } => {
            number_text(alloc, b"{\"bytes\":", *bytes, b",\"own\":\"archive full\"")
        }
        Outcome::HistoryFull { events } => {
            number_text(
                alloc,
                b"{\"events\":",
                *events,
                b",\"own\":\"history full\"",
            )
        }
        Outcome::Held { session } => {
            number_text(
                alloc,
                b"{\"own\":\"held\",\"session\":",
                u64::from(*session),
                b"",
            )
        }
        Outcome::Revising { flight } => {
            number_text(
                alloc,
                b"{\"flight\":",
                u64::from(*flight),
                b",\"own\":\"revising\"",
            )
        }
        Outcome::Flying { flight } => {
            number_text(
                alloc,
                b"{\"flight\":",
                u64::from(*flight),
                b",\"own\":\"flying\"",
            )
        }
        Outcome::NotStored { version } => {
            number_text(
                alloc,
                b"{\"own\":\"not stored\",\"version\":",
                *version,
                b"",
            )
        }
        Outcome::NoMemory => own_text(alloc, "no memory"),
        Outcome::Bad { status } => own_text(alloc, bad_own(*status)),
    }
}

fn tree_text(alloc: Global, tree: &Tree) -> Result<Raw, NoMemory>
    ensures { IfOk result (λ body. body ≡ text tree.now) }
{
    let mut out = Vec::new(alloc);
    write_tree(tree, &mut out)?;
    Ok(Raw::from_vec(out))
}

fn own_text(alloc: Global, own: &str) -> Result<Raw, NoMemory>
    ensures { IfOk result (λ body. body ≡ text (own_body own.now)) }
{
    let mut out = Vec::from_slice(alloc, b"{\"own\":")?;
    write_text(own, &mut out)?;
    out.push(b'}')?;
    Ok(Raw::from_vec(out))
}

// A number with what stands before it, and what stands between it and the map's end.
fn number_text(alloc: Global, before: &[u8], number: u64, after: &[u8]) -> Result<Raw, NoMemory>
    ensures { IfOk result (λ body. body ≡ before.now ++ (decimal number ++ after.now) ++ 125 ∷ []) }
{
    let mut buffer = Buffer::new();
    let mut out = Vec::from_slice(alloc, before)?;
    out.extend_from_slice(buffer.format(number).as_bytes())?;
    out.extend_from_slice(after)?;
    out.push(b'}')?;
    Ok(Raw::from_vec(out))
}

/// Why a request is refused before its body is looked at.
fn bad_own(status: u16) -> &'static str
    ensures { result.now ≡ bad_own status }
{
    match status {
        404 => "no such path",
        405 => "method",
        411 => "length required",
        413 => "body too long",
        417 => "expectation",
        431 => "head too long",
        _ => "bad head",
    }
}
