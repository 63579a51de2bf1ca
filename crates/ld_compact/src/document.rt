//! A document (JSON-LD 1.1 API, 9.1 `compact`).
ghost use Rattle.std.specs.Prelude.{◌≡◌, IfOk, OnOk, option_copied};
ghost use Rattle.ld_tree.specs.Maps.{put as with_entry};
ghost use Rattle.ld_tree.specs.declared.tree.Tree.{out-Tree};
ghost use Rattle.ld_rec.specs.Outcome.{Gives};
ghost use Rattle.ld_rec.specs.Promises.{IsBase};
ghost use Rattle.ld_compact.specs.Compaction.{compacted, own_context as context_in, document_becomes, top_entries as entries_at_top, graph_of, says_nothing as is_silent, with_context as tree_with};
ghost use Rattle.ld_compact.specs.Standing.{Stands, StandsMade};
ghost use Rattle.ld_compact.specs.Steps.{Answers, Decides, Keeps};

use crate::compaction::compact_element;
use crate::contexts::{apply, ready};
use crate::making::{Making, into_items};
use crate::names::put_under;
use crate::place::{Made, Place};
use ld_ctx::{Contexts, Stop, View};
use ld_inverse::Inverses;
use ld_tree::{Entries, Items, NoMemory, Text, Tree};
use std::alloc::Global;

/// The compacted form of an expanded document (JSON-LD 1.1 API, 9.1 `compact` and 6.1.2) over the documents that the
/// contexts stand for: always a map. `context` is a context, or a map that has one under `@context`; it is processed
/// over a fresh one for the base, and stands in the result unless it is null, `{}` or `[]`. With `arrays` (the option
/// `compactArrays`) an array of one item becomes that item where no container asks for an array. The refusals are
/// the definition's, in the algorithm's order: a code of the standard, a refusal of this profile's own, or the first
/// document that is asked for and isn't there. The time is that of the contexts and inverses asked for, one for each
/// context of the walk, and n log n in the document.
pub fn compact<W: Inverses>(
    alloc: Global,
    work: &mut W,
    expanded: &Tree,
    context: &Tree,
    base: Option<&str>,
    arrays: bool,
) -> Result<Tree, Stop>
    requires base { IsBase (option_copied base) }
    ensures answer { Gives result (compacted (W.stock work.old) expanded.now context.now (option_copied base.entry) arrays).result }
    ensures stock { W.stock work.new ≡ W.stock work.old }
    ensures keeps { (kept : W.Kept) → W.gave work.old kept → W.gave work.new kept }
{
    let fresh = work.fresh(alloc, base)?;
    let local = own_context(context);
    let kept = apply(alloc, work, &fresh, local, base, false, true)?;
    let made = ready(alloc, work, kept)?;
    compact_document(alloc, work, &made, expanded, local, arrays)
}

fn own_context(context: &Tree) -> &Tree
    ensures { result.now ≡ context_in context.now }
{
    match context.get("@context") {
        Some(own) => own,
        None => context,
    }
}

// In the context that was processed.
fn compact_document<W: Inverses>(
    alloc: Global,
    work: &mut W,
    made: &Made<W::Kept>,
    expanded: &Tree,
    local: &Tree,
    arrays: bool,
) -> Result<Tree, Stop>
    requires gave { W.gave work.old made.now.kept }
    requires stands { StandsMade W.Kept.flat made.now }
    ensures answer { Answers (W.stock work.old) result (document_becomes arrays expanded.now local.now (W.Kept.flat made.now.kept)) }
    ensures keeps { Keeps W.stock W.gave work.old work.new }
{
    let top = Place {
        view: &made.kept,
        inverse: &*made.inverse,
        behind: made.behind.as_slice(),
        property: None,
        arrays,
    };
    let tree = compact_element(alloc, work, &top, expanded)?;
    let entries = top_entries(alloc, &top, tree)?;
    Ok(with_context(alloc, local, entries)?)
}

// A map's entries, and anything else under `@graph`.
fn top_entries<K: View>(
    alloc: Global,
    top: &Place<'_, K>,
    tree: Tree,
) -> Result<Entries<Tree>, Stop>
    requires { Stands K.flat top.now }
    ensures { Decides result (entries_at_top (K.flat top.now.view.now) tree (out-Tree tree)) }
{
    match tree {
        Tree::Map(entries) => Ok(entries),
        Tree::List(items) => graph(alloc, top, items.into_vec()),
        Tree::Null => graph(alloc, top, into_items(alloc, Tree::Null)?),
        Tree::Bool(b) => graph(alloc, top, into_items(alloc, Tree::Bool(b))?),
        Tree::Num(n) => graph(alloc, top, into_items(alloc, Tree::Num(n))?),
        Tree::Text(text) => graph(alloc, top, into_items(alloc, Tree::Text(text))?),
    }
}

fn graph<K: View>(
    alloc: Global,
    top: &Place<'_, K>,
    items: Vec<Tree>,
) -> Result<Entries<Tree>, Stop>
    requires { Stands K.flat top.now }
    ensures { Decides result (graph_of (K.flat top.now.view.now) items.items) }
{
    let mut made = Making::new(alloc);
    if !items.is_empty() {
        let graph = Tree::List(Items::from_vec(items));
        put_under(alloc, top, "@graph", Some(graph), &mut made)?;
    }
    Ok(made.into_entries(alloc)?)
}

fn with_context(alloc: Global, local: &Tree, entries: Entries<Tree>) -> Result<Tree, NoMemory>
    ensures { IfOk result (λ tree. tree ≡ tree_with local.now entries) }
{
    let mut entries = entries;
    if !says_nothing(local) {
        put(
            &mut entries,
            Text::from_str(alloc, "@context")?,
            local.try_copy(alloc)?,
        )?;
    }
    Ok(Tree::Map(entries))
}

fn put(entries: &mut Entries<Tree>, name: Text, value: Tree) -> Result<(), NoMemory>
    ensures { OnOk result (entries.new ≡ with_entry entries.old name value) }
{
    match entries.put(name, value) {
        Ok(_) => Ok(()),
        Err((_, _, e)) => Err(e),
    }
}

fn says_nothing(local: &Tree) -> bool
    ensures { result ≡ is_silent (out-Tree local.now) }
{
    match local {
        Tree::Null => true,
        Tree::List(items) => items.as_slice().is_empty(),
        Tree::Map(entries) => entries.as_slice().is_empty(),
        Tree::Bool(_) => false,
        Tree::Num(_) => false,
        Tree::Text(_) => false,
    }
}
