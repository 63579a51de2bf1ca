ghost use Rattle.std.specs.Prelude.{◌≡◌, ◌-◌, ◌^◌, min, map};
ghost use Rattle.std.specs.Map.{values_of};
ghost use Rattle.ld_tree.specs.Trees.{depth_of, greatest};

use crate::entries::Entries;
use crate::items::Items;
use crate::tree::Tree;

impl Tree {
    /// 0 for a scalar, else one more than the greatest depth within; at most `u32::MAX`.
    #[cycle(depth)]
    pub fn depth(&self) -> u32
        ensures { result ≡ min (depth_of self.now) (2 ^ 32 - 1) }
    {
        match self {
            Tree::List(items) => items_depth(items).saturating_add(1),
            Tree::Map(entries) => entries_depth(entries).saturating_add(1),
            _ => 0,
        }
    }
}

#[cycle(depth)]
fn items_depth(items: &Items<Tree>) -> u32
    ensures { result ≡ min (greatest (map depth_of items.now)) (2 ^ 32 - 1) }
{
    let mut deepest = 0;
    for item in items.as_slice() {
        deepest = item.depth().max(deepest);
    }
    deepest
}

#[cycle(depth)]
fn entries_depth(entries: &Entries<Tree>) -> u32
    ensures { result ≡ min (greatest (values_of (map (λ e. (e.0, depth_of e.1)) entries.now.0))) (2 ^ 32 - 1) }
{
    let mut deepest = 0;
    for (_, value) in entries.as_slice() {
        deepest = value.depth().max(deepest);
    }
    deepest
}
