//! What the items that were taken say together: the dialogue of the connection's bytes. A call does nothing.
ghost use Rattle.std.specs.Prelude.{◌≡◌, ◌≤◌, ℕ, true, false, List, [], ◌∷◌, ◌++◌};
ghost use Rattle.ld_edge.specs.Sides.{Incoming};
ghost use Rattle.ld_head.specs.Dialogues.{Dialogue, IsDialogue, Marked};
ghost use Rattle.ld_head.specs.declared.dialogue.Ending.{Ending};
ghost use Rattle.ld_head.specs.declared.dialogue.Ending.TheVariants.{Shut};
ghost use Rattle.ld_items.specs.Saying.{HaveSaid, after, is_due_next};
ghost use Rattle.ld_items.specs.Taking.{IsDue, Standing, Takes, marked, start};
ghost use Rattle.ld_items.specs.declared.arrivals.Arrived.{Arrived};
ghost use Rattle.ld_items.specs.declared.arrivals.Next.TheVariants as next;

/// One item after another is taken: they are those that the bytes say.
pub fn items_are_said()
    ensures none { HaveSaid [] [] start }
    ensures one_more { (came bytes went : List ℕ) (items : List Marked) (p q : Standing) (source : Incoming) (a : Arrived)
        → HaveSaid came items p → Takes p.items (p.pending ++ bytes) went q source (next.Item a) → a.marks.closes ≡ false
        → HaveSaid (came ++ bytes) (items ++ marked a ∷ []) q × (q.items ≤ 65535) }
{}

/// An item that closes is the last, and an ending is the dialogue's.
pub fn endings_are_said()
    ensures last { (came bytes went : List ℕ) (items : List Marked) (p q : Standing) (source : Incoming) (a : Arrived)
        → HaveSaid came items p → Takes p.items (p.pending ++ bytes) went q source (next.Item a) → a.marks.closes ≡ true
        → IsDialogue (came ++ bytes) (record { items = items ++ marked a ∷ []; ending = Shut }) }
    ensures ended { (came bytes went : List ℕ) (items : List Marked) (p q : Standing) (source : Incoming) (ending : Ending)
        → HaveSaid came items p → Takes p.items (p.pending ++ bytes) went q source (next.Ended ending)
        → IsDialogue (came ++ bytes) (record { items = items; ending = ending }) }
    ensures stood { (came bytes went : List ℕ) (items : List Marked) (p q : Standing) (source : Incoming) (ending : Ending)
        → HaveSaid came items p → Takes p.items (p.pending ++ bytes) went q source (next.ReadFault ending)
        → IsDialogue (came ++ bytes) (record { items = items; ending = ending }) }
{}

/// Where it goes no further, the items that were taken come first in what the bytes say; and where the interim text was
/// written, it is due for what comes next.
pub fn first_items_are_said()
    ensures first { (came bytes : List ℕ) (items : List Marked) (p : Standing) (d : Dialogue)
        → HaveSaid came items p → IsDialogue (came ++ bytes) d → (later : Dialogue) × (d ≡ after items later) }
    ensures due { (came bytes : List ℕ) (items : List Marked) (p : Standing) (d : Dialogue)
        → HaveSaid came items p → IsDue p.items (p.pending ++ bytes) → IsDialogue (came ++ bytes) d
        → (later : Dialogue) × (d ≡ after items later) × (is_due_next later ≡ true) }
{}
