ghost use Rattle.std.specs.Prelude.{◌≡◌, Some, None, IfOk, IfErr, option_and_then, option_copied, codes};
ghost use Rattle.ld_tree.specs.Maps.{find as value_at};
ghost use Rattle.ld_rec.specs.Words.{text_of};
ghost use Rattle.ld_answer.specs.Envelopes.{first_name};
ghost use Rattle.ld_answer.specs.Readings.{IsFault};
ghost use Rattle.ld_answer.specs.Targets.{fields_fault, is_other, IsNoTarget, IsTarget};

use crate::reading::unread;
use crate::refusal::EnvelopeRefusal;
use ld_iri::is_iri;
use ld_tree::{Entries, Iri, Text, Tree};
use ld_tree_read::read_tree;
use std::alloc::Global;

/// Reads the IRI of the context that is to be revised or evicted: a JSON object with the one field `iri` (an IRI).
///
/// Refused are, as by [`crate::read_envelope`] and in the same order, bytes that are no JSON text (`Json`), a text that
/// is no object or lacks the field (`NotAnEnvelope`), the least name of another field (`UnknownField`), and a field that
/// is no IRI as text (`WrongKind`).
pub fn read_target(alloc: Global, bytes: &[u8]) -> Result<Iri, EnvelopeRefusal>
    ensures accepted { IfOk result (IsTarget bytes.now) }
    ensures refused { IfErr result (IsNoTarget bytes.now) }
{
    match read_tree(alloc, bytes) {
        Ok(Tree::Map(entries)) => target_of(alloc, &entries),
        Ok(_) => Err(EnvelopeRefusal::NotAnEnvelope),
        Err(e) => Err(unread(e)),
    }
}

fn target_of(alloc: Global, entries: &Entries<Tree>) -> Result<Iri, EnvelopeRefusal>
    ensures sound { IfOk result (λ _. fields_fault (value_at entries.now (codes "iri")) (first_name is_other entries.now.0) ≡ None) }
    ensures accepted { IfOk result (λ iri. option_and_then text_of (value_at entries.now (codes "iri")) ≡ Some iri) }
    ensures refused { IfErr result (IsFault (fields_fault (value_at entries.now (codes "iri")) (first_name is_other entries.now.0))) }
{
    let Some(value) = entries.get("iri") else {
        return Err(EnvelopeRefusal::NotAnEnvelope);
    };
    if let Some(name) = first_other(entries.as_slice()) {
        return Err(EnvelopeRefusal::UnknownField(Text::from_str(alloc, name)?));
    }
    match value {
        Tree::Text(text) if is_iri(text.as_str()) => Ok(text.try_copy(alloc)?),
        _ => Err(EnvelopeRefusal::WrongKind(Text::from_str(alloc, "iri")?)),
    }
}

fn first_other(entries: &[(Text, Tree)]) -> Option<&str>
    ensures { option_copied result ≡ first_name is_other entries.now }
{
    for (name, _) in entries {
        if name.as_str() != "iri" {
            return Some(name.as_str());
        }
    }
    None
}
