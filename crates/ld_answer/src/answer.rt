use ld_codes::{Code, Own};
use ld_rec::Stop;
use ld_tree::{Iri, Tree};

/// What an envelope is answered.
#[derive(Debug, Drop)]
pub enum Answer {
    /// The document in the form that was asked for.
    Result(Tree),
    /// The algorithm's code (JSON-LD 1.1 API, 9.6).
    Code(Code),
    /// A refusal of this profile's own.
    Own(Own),
    /// The first document that the algorithm asks for and that isn't there.
    Missing(Iri),
    /// An allocation failed.
    NoMemory,
}

impl Answer {
    ghost use Rattle.std.specs.Prelude.{Ok, Err};
    ghost use Rattle.ld_answer.specs.Answers.{Tells};

    pub(crate) fn refusal(stop: Stop) -> Answer
        ensures { Tells result (Err stop) }
    {
        match stop {
            Stop::Code(code) => Answer::Code(code),
            Stop::Own(own) => Answer::Own(own),
            Stop::Missing(iri) => Answer::Missing(iri),
            Stop::NoMemory => Answer::NoMemory,
        }
    }
}
