use ld_codes::{Code, Own};
use ld_tree::{Iri, NoMemory};
use std::alloc::{AllocError, AllocFailed};

/// Why there is no answer.
#[derive(Debug, Drop)]
pub enum Stop {
    /// The Recommendation's algorithm fails with this code.
    Code(Code),
    /// A refusal that is this profile's own.
    Own(Own),
    /// The first document that was asked for and that the stock lacks.
    Missing(Iri),
    /// An allocation failed. No definition gives it.
    NoMemory,
}

impl From<NoMemory> for Stop {
    ghost use Rattle.std.specs.Prelude.{◌≡◌};
    ghost use Rattle.ld_rec.specs.declared.stop.Stop.TheVariants as stop;

    ghost from_gives = { λ _ e. e ≡ stop.NoMemory };

    fn from(_e: NoMemory) -> Stop {
        Stop::NoMemory
    }
}

impl From<AllocError> for Stop {
    ghost use Rattle.std.specs.Prelude.{◌≡◌};
    ghost use Rattle.ld_rec.specs.declared.stop.Stop.TheVariants as stop;

    ghost from_gives = { λ _ e. e ≡ stop.NoMemory };

    fn from(_e: AllocError) -> Stop {
        Stop::NoMemory
    }
}
