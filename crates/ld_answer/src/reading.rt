ghost use Rattle.std.specs.Prelude.{◌≡◌, ℕ, List, Option, Some, None, true, IfOk, IfErr, option_and_then, option_copied, codes};
ghost use Rattle.ld_tree.specs.Maps.{find as value_at};
ghost use Rattle.ld_tree.specs.declared.tree.Tree.{Tree, out-Tree};
ghost use Rattle.ld_rec.specs.Words.{text_of, is_among};
ghost use Rattle.ld_answer.specs.Envelopes.{IsAccepted, IsRefused, IsRefusedBy, IsUnread, IsEnvelopeOf, bool_of, context_for, entries_fault, fields, first_name, has_required, is_of_wrong_kind, is_unknown, is_base_in, is_of_kind, or_true};
ghost use Rattle.ld_tree_read.specs.Steps.{Known};
ghost use Rattle.ld_answer.specs.Readings.{IsFault};
ghost use Rattle.ld_answer.specs.declared.refusal.EnvelopeRefusal.{EnvelopeRefusal};

use crate::envelope::Envelope;
use crate::op::Op;
use crate::refusal::EnvelopeRefusal;
use ld_iri::is_iri;
use ld_tree::{Entries, Iri, NoMemory, Text, Tree};
use ld_tree_read::{ReadRefusal, read_tree};
use std::alloc::Global;

/// Reads an envelope: a JSON object with the fields `document` (required, any value) and `base` (an IRI, or null for
/// none), and for compaction also `context` (required, any value) and `compactArrays` (a truth value; absent is true).
///
/// Refused are bytes that are no JSON text (`Json`), a text that is no object or lacks a required field
/// (`NotAnEnvelope`), the least name that is no field (`UnknownField`), and the least field whose value is of a wrong
/// kind (`WrongKind`), in this order.
pub fn read_envelope(alloc: Global, op: Op, bytes: &[u8]) -> Result<Envelope, EnvelopeRefusal>
    ensures accepted { IfOk result (IsAccepted op bytes.now) }
    ensures refused { IfErr result (IsRefused op bytes.now) }
{
    match read_tree(alloc, bytes) {
        Ok(Tree::Map(entries)) => envelope_of(alloc, op, entries),
        Ok(_) => Err(EnvelopeRefusal::NotAnEnvelope),
        Err(e) => Err(unread(e)),
    }
}

// Want of memory is an answer of its own.
pub(crate) fn unread(e: ReadRefusal) -> EnvelopeRefusal
    ensures { (fault : Tree → Option EnvelopeRefusal) (bytes : List ℕ) → Known e (IsUnread bytes e) → IsRefusedBy fault bytes result }
{
    match e {
        ReadRefusal::NoMemory => EnvelopeRefusal::NoMemory,
        ReadRefusal::Syntax { .. }
        | ReadRefusal::NotUtf8 { .. }
        | ReadRefusal::Fraction { .. }
        | ReadRefusal::TooLarge { .. }
        | ReadRefusal::TooDeep { .. } => EnvelopeRefusal::Json(e),
    }
}

fn envelope_of(alloc: Global, op: Op, entries: Entries<Tree>) -> Result<Envelope, EnvelopeRefusal>
    ensures sound { IfOk result (λ _. entries_fault op entries ≡ None) }
    ensures accepted { IfOk result (IsEnvelopeOf op entries) }
    ensures refused { IfErr result (IsFault (entries_fault op entries)) }
{
    match entries_fault(alloc, op, &entries)? {
        Some(fault) => Err(fault),
        None => Ok(taken_apart(alloc, op, entries)?),
    }
}

fn entries_fault(
    alloc: Global,
    op: Op,
    entries: &Entries<Tree>,
) -> Result<Option<EnvelopeRefusal>, NoMemory>
    ensures { IfOk result (λ fault. fault ≡ entries_fault op entries.now) }
{
    if !has_required(op, entries) {
        return Ok(Some(EnvelopeRefusal::NotAnEnvelope));
    }
    if let Some(name) = first_unknown(op, entries.as_slice()) {
        return Ok(Some(EnvelopeRefusal::UnknownField(Text::from_str(alloc, name)?)));
    }
    if let Some(name) = first_wrong(entries.as_slice()) {
        return Ok(Some(EnvelopeRefusal::WrongKind(Text::from_str(alloc, name)?)));
    }
    Ok(None)
}

fn has_required(op: Op, entries: &Entries<Tree>) -> bool
    ensures { result ≡ has_required op entries.now }
{
    match op {
        Op::Compact => entries.get("document").is_some() && entries.get("context").is_some(),
        Op::Expand | Op::Flatten => entries.get("document").is_some(),
    }
}

fn is_field(op: Op, name: &str) -> bool
    ensures { result ≡ is_among (fields op) name.now }
{
    match op {
        Op::Compact => {
            name == "base" || name == "compactArrays" || name == "context" || name == "document"
        }
        Op::Expand | Op::Flatten => name == "base" || name == "document",
    }
}

fn first_unknown(op: Op, entries: &[(Text, Tree)]) -> Option<&str>
    ensures { option_copied result ≡ first_name (is_unknown op) entries.now }
{
    for (name, _) in entries {
        if !is_field(op, name.as_str()) {
            return Some(name.as_str());
        }
    }
    None
}

fn is_of_kind(name: &str, value: &Tree) -> bool
    ensures { result ≡ is_of_kind (name.now, value.now) }
{
    if name == "base" {
        is_base(value)
    } else if name == "compactArrays" {
        matches!(value, Tree::Bool(_))
    } else {
        true
    }
}

fn is_base(value: &Tree) -> bool
    ensures { result ≡ is_base_in (out-Tree value.now) }
{
    match value {
        Tree::Null => true,
        Tree::Text(text) => is_iri(text.as_str()),
        _ => false,
    }
}

fn first_wrong(entries: &[(Text, Tree)]) -> Option<&str>
    ensures { option_copied result ≡ first_name is_of_wrong_kind entries.now }
{
    for (name, value) in entries {
        if !is_of_kind(name.as_str(), value) {
            return Some(name.as_str());
        }
    }
    None
}

// The parts of an envelope without a fault.
fn taken_apart(alloc: Global, op: Op, entries: Entries<Tree>) -> Result<Envelope, NoMemory>
    requires { entries_fault op entries ≡ None }
    ensures { IfOk result (IsEnvelopeOf op entries) }
{
    let base = base_of(alloc, &entries)?;
    let arrays = arrays_of(&entries);
    let mut rest = entries;
    let context = take_context(op, &mut rest);
    match rest.take_out("document") {
        Some(document) => Ok(Envelope {
            document,
            context,
            base,
            arrays,
        }),
        None => unreachable!(),
    }
}

// What to compact with, where the operation has it.
fn take_context(op: Op, entries: &mut Entries<Tree>) -> Option<Tree>
    ensures context { result ≡ context_for op entries.old }
    ensures document { value_at entries.new (codes "document") ≡ value_at entries.old (codes "document") }
{
    match op {
        Op::Compact => entries.take_out("context"),
        Op::Expand | Op::Flatten => None,
    }
}

fn base_of(alloc: Global, entries: &Entries<Tree>) -> Result<Option<Iri>, NoMemory>
    ensures { IfOk result (λ base. base ≡ option_and_then text_of (value_at entries.now (codes "base"))) }
{
    match entries.get("base") {
        Some(Tree::Text(text)) => Ok(Some(text.try_copy(alloc)?)),
        _ => Ok(None),
    }
}

fn arrays_of(entries: &Entries<Tree>) -> bool
    ensures { result ≡ or_true (option_and_then bool_of (value_at entries.now (codes "compactArrays"))) }
{
    match entries.get("compactArrays") {
        Some(Tree::Bool(arrays)) => *arrays,
        _ => true,
    }
}
