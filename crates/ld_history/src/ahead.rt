//! The room that is taken ahead, so that what ends something takes no memory.
ghost use Rattle.std.specs.Prelude.{◌≡◌, ◌+◌, ◌*◌, ◌≤◌, ◌++◌, ◌∷◌, [], List, ℕ, length, OnOk, IsTrue};
ghost use Rattle.ld_history.specs.declared.event.Entry.{Entry};
ghost use Rattle.ld_history.specs.declared.event.Given.{Given};
ghost use Rattle.ld_history.specs.declared.limits.Limits.{Limits};
ghost use Rattle.ld_history.specs.Legal.{Entries, Legal, is_allowed};
ghost use Rattle.ld_history.specs.Ahead.{promised, rise};
ghost use Rattle.ld_history.specs.Ready.{ahead};
ghost use Rattle.ld_history.specs.Seen.{seen};

use crate::event::Event;
use crate::name::Name;
use crate::tables::Tables;

/// An Opened promises two entries, and a request's first Pinned 320: so much at most the entries, with what each
/// request under way may still append of 320 and with one for each open session, rise at it. At no other entry do
/// they rise at all.
pub fn room_is_promised()
    ensures rises { (limits : Limits) (entries : Entries) (entry : Entry (List ℕ) Given) → limits.held ≤ 64 → Legal limits entries
        → IsTrue (is_allowed limits entries entry) → promised (entries ++ entry ∷ []) ≤ promised entries + rise entry.event }
{}

impl Event<Name> {
    /// How many entries it promises, itself among them.
    pub(crate) fn rise(&self) -> usize
        ensures { result ≡ rise self.now }
    {
        match self {
            Event::Opened { .. } => 2,
            Event::Pinned { attempt: 1, .. } => 320,
            _ => 0,
        }
    }
}

impl Tables {
    /// How many entries open sessions and requests under way are promised at most.
    pub(crate) fn ahead(&self) -> usize
        ensures { result ≡ ahead (seen self.now) }
    {
        320 * self.index.busy as usize + self.sessions.len()
    }
}
