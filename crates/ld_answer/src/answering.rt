ghost use Rattle.std.specs.Prelude.{◌≡◌, option_copied};
ghost use Rattle.ld_rec.specs.Iris.{or_else};
ghost use Rattle.ld_rec.specs.Kinds.{null};
ghost use Rattle.ld_compact.specs.Compaction.{compacted};
ghost use Rattle.ld_answer.specs.Answers.{answered, formed, refused_by, Tells};
ghost use Rattle.ld_nodes.specs.Flat.{flattened};

use crate::answer::Answer;
use crate::envelope::Envelope;
use crate::op::Op;
use ld_compact::compact;
use ld_expand::expand;
use ld_inverse::Inverses;
use ld_nodes::flatten;
use ld_tree::Tree;
use std::alloc::Global;

impl Envelope {
    /// Answers the envelope with what the algorithms of the operation give over the documents that `work` stands for:
    /// their result, their code, a refusal of this profile's own, or the first document that isn't there.
    pub fn answer<W: Inverses>(&self, alloc: Global, op: Op, work: &mut W) -> Answer
        ensures answer { Tells result (answered (W.stock work.old) op self.now) }
        ensures stock { W.stock work.new ≡ W.stock work.old }
        ensures keeps { (kept : W.Kept) → W.gave work.old kept → W.gave work.new kept }
    {
        match expand(alloc, work, self.base(), &self.document) {
            Ok(expanded) => self.form(alloc, op, work, expanded),
            Err(stop) => Answer::refusal(stop),
        }
    }

    fn base(&self) -> Option<&str>
        ensures { option_copied result ≡ self.now.base }
    {
        match &self.base {
            Some(base) => Some(base.as_str()),
            None => None,
        }
    }

    // The expanded document in the form of the operation.
    fn form<W: Inverses>(&self, alloc: Global, op: Op, work: &mut W, expanded: Tree) -> Answer
        ensures answer { Tells result (formed (W.stock work.old) op self.now.context self.now.base self.now.arrays expanded) }
        ensures stock { W.stock work.new ≡ W.stock work.old }
        ensures keeps { (kept : W.Kept) → W.gave work.old kept → W.gave work.new kept }
    {
        match op {
            Op::Expand => Answer::Result(expanded),
            Op::Compact => self.compacted(alloc, work, &expanded),
            Op::Flatten => flattened_form(alloc, &expanded),
        }
    }

    fn compacted<W: Inverses>(&self, alloc: Global, work: &mut W, expanded: &Tree) -> Answer
        ensures answer { Tells result (compacted (W.stock work.old) expanded.now (or_else self.now.context null) self.now.base self.now.arrays).result }
        ensures stock { W.stock work.new ≡ W.stock work.old }
        ensures keeps { (kept : W.Kept) → W.gave work.old kept → W.gave work.new kept }
    {
        let nothing = Tree::Null;
        let context = match &self.context {
            Some(context) => context,
            None => &nothing,
        };
        match compact(alloc, work, expanded, context, self.base(), self.arrays) {
            Ok(compacted) => Answer::Result(compacted),
            Err(stop) => Answer::refusal(stop),
        }
    }
}

fn flattened_form(alloc: Global, expanded: &Tree) -> Answer
    ensures { Tells result (refused_by (flattened expanded.now)) }
{
    match flatten(alloc, expanded) {
        Ok(flattened) => Answer::Result(flattened),
        Err(stop) => Answer::refusal(stop),
    }
}
