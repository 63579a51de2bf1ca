//! Steps that the rules allow.
ghost use Rattle.std.specs.Prelude.{◌≡◌, IfOk, OnErr};
ghost use Rattle.std.specs.Prelude.{Ok, Err};
ghost use Rattle.ld_history.specs.declared.refusal.StepRefusal.TheVariants as refusal;

use ld_history::StepRefusal;
use ld_tree::NoMemory;

/// What an allowed step comes to: it is refused for want of memory alone.
pub(crate) fn allowed<A>(step: Result<A, StepRefusal>) -> Result<A, NoMemory>
    requires { step ≡ Err refusal.NotAllowed → ⊥ }
    ensures taken { IfOk result (λ answer. step ≡ Ok answer) }
    ensures refused { OnErr result (step ≡ Err refusal.NoMemory) }
{
    match step {
        Ok(answer) => Ok(answer),
        Err(StepRefusal::NoMemory) => Err(NoMemory),
        Err(StepRefusal::NotAllowed) => unreachable!(),
    }
}
