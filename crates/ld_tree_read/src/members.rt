ghost use Rattle.std.specs.Prelude.{◌≡◌, [], IfOk, IsTrue};
ghost use Rattle.std.specs.Map.{keys_of};
ghost use Rattle.ld_tree.specs.Names.{AreInOrder};
ghost use Rattle.ld_tree.specs.Reading.{put_all};

use ld_tree::{Entries, NoMemory, Text, Tree};
use std::alloc::Global;
use std::cmp::Ordering;

/// Whether each name is before the next.
fn are_in_order(members: &[(Text, Tree)]) -> bool
    ensures { IsTrue result → AreInOrder (keys_of members.now) }
{
    for i in 1..members.len() {
        match members[i - 1].0.cmp(&members[i].0) {
            Ordering::Less => {}
            _ => return false,
        }
    }
    true
}

/// The members by name, put one after the other.
#[tactic(auto, using(crate::proofs::Stable::put_more))]
fn in_turn(alloc: Global, members: Vec<(Text, Tree)>) -> Result<Entries<Tree>, NoMemory>
    ensures { IfOk result (λ es. es.0 ≡ put_all [] members.items) }
{
    let mut entries = Entries::new(alloc);
    for (name, value) in members {
        match entries.put(name, value) {
            Ok(_) => {}
            Err((_, _, e)) => return Err(e),
        }
    }
    Ok(entries)
}

/// The members by name; of those with one name the last (RFC 8259 section 4).
///
/// Those that come in order, each name once, are the entries as they are. Else they are sorted, which keeps
/// the order of those with one name, and where a name is repeated each is put at the end, so that nothing
/// is moved.
pub fn entries_of(alloc: Global, mut members: Vec<(Text, Tree)>) -> Result<Entries<Tree>, NoMemory>
    ensures { IfOk result (λ es. es.0 ≡ put_all [] members.items) }
{
    if are_in_order(members.as_slice()) {
        return Ok(Entries::from_sorted(members));
    }
    members.sort_by(|a, b| a.0.cmp(&b.0))?;
    if are_in_order(members.as_slice()) {
        return Ok(Entries::from_sorted(members));
    }
    in_turn(alloc, members)
}
