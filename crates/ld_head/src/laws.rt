//! Laws of dialogues. A call does nothing.
ghost use Rattle.std.specs.Prelude.{◌≡◌, ◌+◌, ◌<◌, ◌++◌, ℕ, List, length};
ghost use Rattle.ld_head.specs.Dialogues.{Dialogue, IsDialogue, Speaks, Marked, before, Whole, front, Opens, Stops, GoesOn, opened_by, good};
ghost use Rattle.ld_head.specs.Heads.{Says, Accepts};
ghost use Rattle.ld_head.specs.declared.dialogue.Ending.TheVariants.{Inside};
ghost use Rattle.ld_head.specs.declared.head.Head.{Head};

/// The bytes of a connection say one dialogue at most.
pub fn one_dialogue()
    ensures { (bytes : List ℕ) (d e : Dialogue) → IsDialogue bytes d → IsDialogue bytes e → d ≡ e }
{}

/// The item that is read off the front is the dialogue's first, and what the bytes after it say is the dialogue's rest.
pub fn first_item_is_said()
    ensures { (n : ℕ) (bytes rest : List ℕ) (item : Marked) (d : Dialogue) → Opens n bytes (GoesOn item rest) → Speaks n bytes d
        → (later : Dialogue) × Speaks (n + 1) rest later × (d ≡ before item later) }
{}

/// A whole item means the same, whatever comes after it.
pub fn item_stays()
    ensures { (n : ℕ) (bytes head body more : List ℕ) (h : Head) → front bytes ≡ Whole head (body ++ more) → Says head (Accepts h)
        → length body ≡ h.length → Opens n bytes (opened_by (good n h body) more) }
{}

/// An input that ends inside a body ends inside an item, whose interim text is due where its head asks for it.
pub fn body_is_cut()
    ensures { (n : ℕ) (bytes head part : List ℕ) (h : Head) → front bytes ≡ Whole head part → Says head (Accepts h)
        → length part < h.length → Opens n bytes (Stops (Inside h.interim)) }
{}
