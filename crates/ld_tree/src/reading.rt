ghost use Rattle.std.specs.Prelude.{◌≡◌, ◌≤◌, ℕ, List, IsTrue};
ghost use Rattle.std.specs.Str.{IsUtf8};
ghost use Rattle.ld_tree.specs.Bounds.{fits, spelled};
ghost use Rattle.ld_tree.specs.Reading.{reads, past_mark};
ghost use Rattle.ld_tree.specs.Trees.{depth_of};
ghost use Rattle.ld_tree.specs.declared.tree.Tree.{Tree};

/// Bytes read as at most one tree (RFC 8259).
pub fn reads_once()
    ensures { (bytes : List ℕ) (s t : Tree) → reads bytes s → reads bytes t → s ≡ t }
{}

/// What reads as a tree is UTF-8, with a byte order mark and without (RFC 8259 section 8.1).
pub fn reads_utf8()
    ensures whole { (bytes : List ℕ) (t : Tree) → reads bytes t → IsUtf8 bytes }
    ensures past_mark { (bytes : List ℕ) (t : Tree) → reads bytes t → IsUtf8 (past_mark bytes) }
{}

/// A tree that is read is within bounds: its whole numbers have 64 bits, its texts and names are
/// UTF-8, and its lists and maps have at most 128 levels.
pub fn reads_within()
    ensures numbers { (bytes : List ℕ) (t : Tree) → reads bytes t → IsTrue (fits t) }
    ensures texts { (bytes : List ℕ) (t : Tree) → reads bytes t → IsTrue (spelled t) }
    ensures depth { (bytes : List ℕ) (t : Tree) → reads bytes t → depth_of t ≤ 128 }
{}
