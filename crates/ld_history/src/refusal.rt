use ld_tree::NoMemory;

/// Why a step appends nothing.
#[derive(Clone, Copy, Debug, PartialEq, Eq)]
pub enum StepRefusal {
    /// The rules don't allow the entry after this history.
    NotAllowed,
    NoMemory,
}

impl From<NoMemory> for StepRefusal {
    ghost use Rattle.std.specs.Prelude.{◌≡◌};
    ghost use Rattle.ld_history.specs.declared.refusal.StepRefusal.TheVariants as refusal;

    ghost from_gives = { λ e r. r ≡ refusal.NoMemory };

    fn from(_e: NoMemory) -> StepRefusal {
        StepRefusal::NoMemory
    }
}
