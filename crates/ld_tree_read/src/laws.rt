ghost use Rattle.std.specs.Prelude.{◌≡◌, ◌≤◌, ◌++◌, ℕ, List, [], Some, None, true};
ghost use Rattle.ld_tree.specs.Bounds.{fits, spelled};
ghost use Rattle.ld_tree.specs.CompactText.{text};
ghost use Rattle.ld_tree.specs.Reading.{reads};
ghost use Rattle.ld_tree.specs.Trees.{depth_of};
ghost use Rattle.ld_tree.specs.declared.tree.Tree.{Tree};
ghost use Rattle.ld_tree_read.specs.Begun.{begun, is_text, Refuses, place, is_stop, IsLongest};
ghost use Rattle.ld_tree_read.specs.Grammar.{IsText};
ghost use Rattle.ld_tree_read.specs.Refusals.{first_refusal};
ghost use Rattle.ld_tree_read.specs.State.{start};
ghost use Rattle.ld_tree_read.specs.declared.refusal.ReadRefusal.{ReadRefusal as Refusal};

/// A prefix of the beginning of a text is one too.
pub fn prefix_begun()
    ensures { (bytes more : List ℕ) → begun (bytes ++ more) ≡ true → begun bytes ≡ true }
{}

/// A text is the beginning of one.
pub fn text_begun()
    ensures { (bytes : List ℕ) → is_text bytes ≡ true → begun bytes ≡ true }
{}

/// Each beginning of a text goes on to a text of the grammar.
pub fn begun_text()
    ensures { (bytes : List ℕ) → begun bytes ≡ true → (more : List ℕ) × IsText (bytes ++ more) }
{}

/// The first refusal stands in the bytes, and none stands before it; where there is none, none stands.
pub fn least()
    ensures first { (bytes : List ℕ) (e f : Refusal) → first_refusal bytes ≡ Some e → Refuses 0 [] start bytes f → place e ≤ place f }
    ensures stands { (bytes : List ℕ) (e : Refusal) → first_refusal bytes ≡ Some e → Refuses 0 [] start bytes e }
    ensures none { (bytes : List ℕ) (f : Refusal) → first_refusal bytes ≡ None → Refuses 0 [] start bytes f → ⊥ }
{}

/// Where bytes are no JSON text or no UTF-8, the place is the length of the longest prefix that begins a
/// text: that prefix does, the prefix of one byte more doesn't, and the whole is no text.
pub fn longest()
    ensures { (bytes : List ℕ) (e : Refusal) → is_stop e ≡ true → first_refusal bytes ≡ Some e → IsLongest [] start bytes (place e) }
{}

/// A text of the grammar is one by the places that its bytes lead to, and so is the beginning of one.
pub fn grammar_text()
    ensures { (bytes : List ℕ) → IsText bytes → is_text bytes ≡ true }
{}

/// Bytes that are a text by the places that they lead to are one of the grammar.
pub fn ruled_text()
    ensures { (bytes : List ℕ) → is_text bytes ≡ true → IsText bytes }
{}

/// Bytes in which nothing is refused are a text.
pub fn unrefused_text()
    ensures { (bytes : List ℕ) → first_refusal bytes ≡ None → is_text bytes ≡ true }
{}

/// The compact text of a tree reads as that tree, where it has at most 128 levels, its numbers have 64 bits and its
/// texts and names are UTF-8.
pub fn printed_reads()
    ensures { (t : Tree) → depth_of t ≤ 128 → fits t ≡ true → spelled t ≡ true → reads (text t) t }
{}

/// Bytes that read as a tree have no refusal.
pub fn reads_unrefused()
    ensures { (bytes : List ℕ) (t : Tree) → reads bytes t → first_refusal bytes ≡ None }
{}
