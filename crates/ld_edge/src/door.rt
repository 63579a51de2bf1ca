//! Doors: where links come from.
ghost use Rattle.std.specs.Prelude.{◌≡◌, ◌<◌, ◌≤◌, ◌+◌, None, IfOk, IfSome, OnOk, OnErr};
ghost use Rattle.ld_edge.specs.Doors.{Doorway, IsOneFewer, IsTold, IsUnused, Sides, with_link};
ghost use Rattle.ld_edge.specs.Faults.{last_count, NeverFalls, Rose};

use crate::outside::{Failed, Link};

/// Where links come from, and where they go back to.
pub trait Door {
    type L: Link;

    /// What is told of the links given, of those that came back and of those that are left, and how many calls failed.
    /// That count never falls, and stands still at 2^63 - 1.
    ghost doorway: { Self → Doorway };

    /// What is told of a link's two sides.
    ghost sides: { Self.L → Sides };

    /// The next link, where there is one. It may wait for one forever.
    fn next(&mut self) -> Result<Option<Self::L>, Failed>
        // Where a door tells its links, one that it gives tells its bytes, and nothing was read or written yet.
        ensures given { IfOk result (λ r. IfSome r (λ _. (doorway self.new).given ≡ (doorway self.old).given + 1)) }
        ensures left { IfOk result (λ r. IfSome r (λ _. IsOneFewer (doorway self.old).left (doorway self.new).left)) }
        ensures told { IfOk result (λ r. IfSome r (λ link. IfSome (doorway self.old).returned (λ _. IsTold (sides link)))) }
        ensures unused { IfOk result (λ r. IfSome r (λ link. IsUnused (sides link))) }

        // There is none only where none is left, as far as that is told.
        ensures end { IfOk result (λ r. r ≡ None → IfSome (doorway self.old).left (λ left. left ≡ 0)) }
        ensures none { IfOk result (λ r. r ≡ None → ((doorway self.new).given ≡ (doorway self.old).given) × ((doorway self.new).left ≡ (doorway self.old).left)) }
        ensures keeps_links { OnErr result (((doorway self.new).given ≡ (doorway self.old).given) × ((doorway self.new).left ≡ (doorway self.old).left)) }

        ensures keeps_back { (doorway self.new).back ≡ (doorway self.old).back }
        ensures keeps_returned { (doorway self.new).returned ≡ (doorway self.old).returned }
        ensures keeps_count { OnOk result ((doorway self.new).faults ≡ (doorway self.old).faults) }
        ensures rose { OnErr result (Rose (doorway self.old).faults (doorway self.new).faults) }
        ensures never_falls { NeverFalls (doorway self.old).faults (doorway self.new).faults };

    /// Takes a link back. Takes no memory.
    fn back(&mut self, link: Self::L)
        requires { (doorway self.old).back < (doorway self.old).given }
        ensures back { (doorway self.new).back ≡ (doorway self.old).back + 1 }
        ensures returned { (doorway self.new).returned ≡ with_link (doorway self.old).returned (sides link) }
        ensures keeps_given { (doorway self.new).given ≡ (doorway self.old).given }
        ensures keeps_left { (doorway self.new).left ≡ (doorway self.old).left }
        ensures keeps_count { (doorway self.new).faults ≡ (doorway self.old).faults };

    /// How many calls failed.
    fn faults(&self) -> u64
        ensures { result ≡ (doorway self.now).faults };

    ghost at_most_given: { (door : Self) → (doorway door).back ≤ (doorway door).given };

    ghost at_most_last: { (door : Self) → (doorway door).faults ≤ last_count };
}
