ghost use Rattle.std.specs.Prelude.{◌≡◌, IfOk};
ghost use Rattle.std.specs.Arc.{arc_value};
ghost use Rattle.ld_inverse.specs.Inverses.{IsInverseOf};

use crate::inverse::Inverse;
use ld_ctx::Contexts;
use ld_tree::NoMemory;
use std::alloc::Global;
use std::sync::Arc;

/// Gives contexts, and their inverses.
pub trait Inverses: Contexts {
    /// The inverse of a context that the object gave.
    fn inverse(&mut self, alloc: Global, kept: &Self::Kept) -> Result<Arc<Inverse>, NoMemory>
        requires { Self.gave self.old kept.now }
        ensures inverse { IfOk result (λ inverse. IsInverseOf (arc_value inverse) (Self.Kept.flat kept.now)) }
        ensures keeps { (other : Self.Kept) → Self.gave self.old other → Self.gave self.new other }
        ensures stock { Self.stock self.new ≡ Self.stock self.old };
}
