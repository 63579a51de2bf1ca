//! What an evaluation comes to.
ghost use Rattle.std.specs.Prelude.{Result, IfOk};
ghost use Rattle.ld_answer.specs.Answers.{Tells};
ghost use Rattle.ld_rec.specs.declared.stop.Stop.{Stop};
ghost use Rattle.ld_tree.specs.declared.tree.Tree.{Tree};
ghost use Rattle.ld_talk.specs.Judging.{IsJudged};

use ld_answer::{Answer, code_body, own_body};
use ld_head::Outcome;
use ld_tree::{Iri, NoMemory};
use std::alloc::Global;

/// What an evaluation comes to.
#[derive(Debug, Drop)]
pub enum Judged {
    Outcome(Outcome),
    /// The context of this IRI is missing.
    Missing(Iri),
}

/// The outcome of an evaluation that gave this answer, or the context that it lacks.
pub fn judge(alloc: Global, answer: Answer) -> Result<Judged, NoMemory>
    ensures { IfOk result (λ j. (r : Result Tree Stop) → Tells answer r → IsJudged r j) }
{
    match answer {
        Answer::Result(tree) => Ok(Judged::Outcome(Outcome::Result(tree))),
        Answer::Code(code) => Ok(Judged::Outcome(Outcome::Code(code_body(alloc, code)?))),
        Answer::Own(own) => Ok(Judged::Outcome(Outcome::Own(own_body(alloc, own)?))),
        Answer::Missing(iri) => Ok(Judged::Missing(iri)),
        Answer::NoMemory => Err(NoMemory),
    }
}
