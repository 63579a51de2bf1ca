//! What makes the outcome of a script exact. Each law is a contract over all texts; the function that
//! carries it does nothing.
ghost use Rattle.std.specs.Prelude.{◌≡◌, ◌⊎◌, ℕ, List};
ghost use Rattle.ld_history.specs.declared.limits.Limits.{Limits};
ghost use Rattle.ld_script.specs.declared.line.Line.{Line};
ghost use Rattle.ld_script.specs.Scripts.{IsScript, IsBadAt};
ghost use Rattle.ld_script.specs.Printed.{IsOutput};

/// A text is a script of one list of lines, under one set of limits, so it prints one thing.
pub fn script_is_one()
    ensures limits { (text : List ℕ) (l m : Limits) (a b : List Line) → IsScript text l a → IsScript text m b → l ≡ m }
    ensures lines { (text : List ℕ) (l m : Limits) (a b : List Line) → IsScript text l a → IsScript text m b → a ≡ b }
    ensures output { (text a b : List ℕ) → IsOutput text a → IsOutput text b → a ≡ b }
{}

/// A text has one first bad line at most, and none where it is a script.
pub fn bad_line_is_one()
    ensures one { (text : List ℕ) (a b : ℕ) → IsBadAt text a → IsBadAt text b → a ≡ b }
    ensures no_script { (text : List ℕ) (limits : Limits) (lines : List Line) (line : ℕ) → IsScript text limits lines → IsBadAt text line → ⊥ }
{}

/// Each text is a script, or has a first bad line.
pub fn each_text_is_read()
    ensures { (text : List ℕ) → ((limits : Limits) × (lines : List Line) × IsScript text limits lines) ⊎ ((line : ℕ) × IsBadAt text line) }
{}
