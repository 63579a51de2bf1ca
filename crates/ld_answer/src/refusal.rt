ghost use Rattle.std.specs.Prelude.{◌≡◌};
ghost use Rattle.ld_answer.specs.declared.refusal.EnvelopeRefusal.TheVariants as r;

use ld_tree::{NoMemory, Text};
use ld_tree_read::ReadRefusal;
use thiserror::Error;

/// Why bytes are no envelope. Where several refusals could be given, the first listed here is.
#[derive(Debug, Drop, Error)]
pub enum EnvelopeRefusal {
    /// They are no JSON text.
    #[error("the input is no JSON text")]
    Json(ReadRefusal),
    /// The text is no object, or one without a field that has to be there.
    #[error("the input is not an envelope")]
    NotAnEnvelope,
    /// The least name, in code point order, that is no field.
    #[error("the envelope has an unknown field")]
    UnknownField(Text),
    /// The least field whose value is of a wrong kind.
    #[error("a field of the envelope is of a wrong kind")]
    WrongKind(Text),
    /// An allocation failed.
    #[error("out of memory")]
    NoMemory,
}

impl From<NoMemory> for EnvelopeRefusal {
    ghost from_gives = { λ _ e. e ≡ r.NoMemory };

    fn from(_e: NoMemory) -> EnvelopeRefusal {
        EnvelopeRefusal::NoMemory
    }
}
