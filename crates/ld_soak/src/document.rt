//! The documents of a soak.
ghost use Rattle.std.specs.Prelude.{◌≡◌, ◌+◌, ◌≤◌, Some, None, IfOk, decimal, true};
ghost use Rattle.ld_rec.specs.Kinds.{text_tree as tree_of_text};
ghost use Rattle.ld_soak.specs.Soaks.{context_tree, document, node, node_iri};

use crate::context::CONTEXT_IRI;
use ld_answer::Envelope;
use ld_expand_value::making::{empty, put, text_tree, two_entries};
use ld_tree::{NoMemory, Text, Tree};
use std::alloc::Global;

/// The document of this number, to be compacted with the context that it names.
pub fn envelope(alloc: Global, number: u32) -> Result<Envelope, NoMemory>
    requires { number ≤ 65535 }
    ensures document { IfOk result (λ envelope. envelope.document ≡ document number) }
    ensures context { IfOk result (λ envelope. envelope.context ≡ Some context_tree) }
    ensures base { IfOk result (λ envelope. envelope.base ≡ None) }
    ensures arrays { IfOk result (λ envelope. envelope.arrays ≡ true) }
{
    Ok(Envelope {
        document: document(alloc, number)?,
        context: Some(text_tree(alloc, CONTEXT_IRI)?),
        base: None,
        arrays: true,
    })
}

fn document(alloc: Global, number: u32) -> Result<Tree, NoMemory>
    requires { number ≤ 65535 }
    ensures { IfOk result (λ tree. tree ≡ document number) }
{
    let mut entries = empty(alloc);
    put(
        alloc,
        &mut entries,
        "@context",
        text_tree(alloc, CONTEXT_IRI)?,
    )?;
    put(alloc, &mut entries, "@id", iri_tree(alloc, number)?)?;
    put(alloc, &mut entries, "n", name_tree(alloc, number)?)?;
    put(alloc, &mut entries, "k", node(alloc, number + 1)?)?;
    Ok(Tree::Map(entries))
}

// The node that another document is of.
fn node(alloc: Global, number: u32) -> Result<Tree, NoMemory>
    ensures { IfOk result (λ tree. tree ≡ node number) }
{
    two_entries(
        alloc,
        "@id",
        iri_tree(alloc, number)?,
        "n",
        text_tree(alloc, "x")?,
    )
}

fn name_tree(alloc: Global, number: u32) -> Result<Tree, NoMemory>
    ensures { IfOk result (λ tree. tree ≡ tree_of_text (decimal number)) }
{
    let name = format!(in alloc; "{number}")?;
    Ok(Tree::Text(Text::from_string(name)))
}

fn iri_tree(alloc: Global, number: u32) -> Result<Tree, NoMemory>
    ensures { IfOk result (λ tree. tree ≡ tree_of_text (node_iri number)) }
{
    let iri = format!(in alloc; "http://e/{number}")?;
    Ok(Tree::Text(Text::from_string(iri)))
}
