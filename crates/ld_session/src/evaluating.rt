//! What a document's envelope comes to over a version of the store.
ghost use Rattle.std.specs.Prelude.{IfOk};
ghost use Rattle.std.specs.Arc.{arc_value};
ghost use Rattle.ld_answer.specs.Answers.{answered, Tells};
ghost use Rattle.ld_store.specs.Snapshots.{stock_at};
ghost use Rattle.ld_talk.specs.Judging.{IsJudged};

use ld_answer::{Answer, Envelope, Op};
use ld_context::Plain;
use ld_store::Snapshot;
use ld_talk::{Judged, judge};
use ld_tree::NoMemory;
use std::alloc::Global;

fn answer_over(
    alloc: Global,
    snapshot: &Snapshot,
    op: Op,
    envelope: &Envelope,
) -> Result<Answer, NoMemory>
    ensures { IfOk result (λ answer. Tells answer (answered (stock_at snapshot.now) op envelope.now)) }
{
    let stock = snapshot.stock(alloc)?;
    let mut work = Plain::new(alloc, &stock);
    Ok(envelope.answer(alloc, op, &mut work))
}

/// The outcome of an evaluation over what the snapshot has, or the context that it lacks.
pub fn evaluate(
    alloc: Global,
    snapshot: &Snapshot,
    op: Op,
    envelope: &Envelope,
) -> Result<Judged, NoMemory>
    ensures { IfOk result (λ j. IsJudged (answered (stock_at snapshot.now) op envelope.now) j) }
{
    let answer = answer_over(alloc, snapshot, op, envelope)?;
    judge(alloc, answer)
}
