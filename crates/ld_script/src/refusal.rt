use ld_tree::NoMemory;

/// Why a script prints nothing.
#[derive(Clone, Copy, Debug, PartialEq, Eq)]
pub enum ScriptRefusal {
    /// The text is no script. This is its first bad line, counted from 1.
    BadLine { line: u64 },
    NoMemory,
}

impl From<NoMemory> for ScriptRefusal {
    ghost use Rattle.std.specs.Prelude.{◌≡◌};
    ghost use Rattle.ld_script.specs.declared.refusal.ScriptRefusal.TheVariants as refusal;

    ghost from_gives = { λ e r. r ≡ refusal.NoMemory };

    fn from(_e: NoMemory) -> ScriptRefusal {
        ScriptRefusal::NoMemory
    }
}
