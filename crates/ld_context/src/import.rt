ghost use Rattle.std.specs.Prelude.{◌≡◌, IfOk, OnOk};
ghost use Rattle.ld_tree.specs.Maps.{put as with_put, empty};
ghost use Rattle.ld_tree.specs.declared.tree.Tree.{out-Tree};
ghost use Rattle.ld_rec.specs.Outcome.{give};
ghost use Rattle.ld_rec.specs.Processing.{merged, imported_in, imported_from};
ghost use Rattle.ld_term.specs.Comes.{Comes};

use crate::keywords::has;
use crate::remote::context_in;
use ld_codes::Code;
use ld_rec::{Doc, Stop};
use ld_tree::{Entries, NameMap, NoMemory, Text, Tree};
use std::alloc::Global;

fn put_copy(
    alloc: Global,
    map: &mut NameMap<Tree>,
    name: &Text,
    value: &Tree,
) -> Result<(), NoMemory>
    ensures { OnOk result (map.new ≡ with_put map.old name.now value.now) }
{
    match map.put(name.try_copy(alloc)?, value.try_copy(alloc)?) {
        Ok(_) => Ok(()),
        Err((_, _, e)) => Err(e),
    }
}

fn copy_entries(alloc: Global, entries: &Entries<Tree>) -> Result<Entries<Tree>, NoMemory>
    ensures { IfOk result (λ copy. copy ≡ entries.now) }
{
    let mut copied = Vec::with_capacity(alloc, entries.as_slice().len())?;
    for (name, value) in entries.as_slice() {
        copied.push((name.try_copy(alloc)?, value.try_copy(alloc)?))?;
    }
    Ok(Entries::from_sorted(copied))
}

// Step 5.6.8: the item's entries in place of the imported map's.
fn merged(
    alloc: Global,
    imported: &Entries<Tree>,
    entries: &Entries<Tree>,
) -> Result<Entries<Tree>, NoMemory>
    ensures { IfOk result (λ both. both ≡ merged imported.now entries.now) }
{
    let mut map = NameMap::from_entries(alloc, copy_entries(alloc, imported)?)?;
    for (name, value) in entries.as_slice() {
        put_copy(alloc, &mut map, name, value)?;
    }
    match map.into_entries(alloc) {
        Ok(both) => Ok(both),
        Err((_, e)) => Err(e),
    }
}

// Steps 5.6.6 to 5.6.8.
fn imported_in(alloc: Global, entries: &Entries<Tree>, local: &Tree) -> Result<Entries<Tree>, Stop>
    ensures { Comes give result (imported_in entries.now (out-Tree local.now)) }
{
    match local {
        Tree::Map(imported) => {
            if has(imported, "@import") {
                Err(Stop::Code(Code::InvalidContextEntry))
            } else {
                Ok(merged(alloc, imported, entries)?)
            }
        }
        _ => Err(Stop::Code(Code::InvalidRemoteContext)),
    }
}

/// Steps 5.6.5 to 5.6.8: the entries over those of the document's context.
pub fn imported_from(
    alloc: Global,
    entries: &Entries<Tree>,
    doc: &Doc,
) -> Result<Entries<Tree>, Stop>
    ensures { Comes give result (imported_from entries.now doc.now) }
{
    let local = context_in(doc)?;
    imported_in(alloc, entries, local)
}
