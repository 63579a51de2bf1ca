ghost use Rattle.std.specs.Prelude.{◌≡◌, ◌+◌, ◌<◌, ◌≤◌, Result, IfOk, OnOk, length};
ghost use Rattle.ld_answer.specs.Answers.{answered, Tells};
ghost use Rattle.ld_answer.specs.declared.op.Op.TheVariants as ops;
ghost use Rattle.ld_rec.specs.declared.stop.Stop.{Stop};
ghost use Rattle.ld_tree.specs.CompactText.{text};
ghost use Rattle.ld_tree.specs.declared.tree.Tree.{Tree};
ghost use Rattle.ld_soak.specs.Soaks.{answer_length, text_length, AreLengths, AreSums, IsStock};
ghost use Rattle.ld_soak.specs.Steps.{AreBounded};

use crate::context::load_stock;
use crate::document::envelope;
use crate::sums::Sums;
use ld_answer::{Answer, Envelope, Op};
use ld_context::Plain;
use ld_ctx::Stock;
use ld_flight::Tower;
use ld_tree::{NoMemory, Tree};
use ld_tree_write::write_tree;
use std::alloc::Global;

/// Answers the documents 1 to `count`: each is expanded, compacted and flattened, over one stock.
pub fn soak(alloc: Global, count: u16) -> Result<Sums, NoMemory>
    ensures { IfOk result (AreSums count) }
{
    let mut sums = Sums::nothing();
    let stock = sums.load(alloc)?;
    sums.add_documents(alloc, &stock, count)?;
    Ok(sums)
}

impl Sums {
    fn nothing() -> Sums
        ensures { result ≡ record { documents = 0; loads = 0; expanded = 0; compacted = 0; flattened = 0; runs = 0 } }
    {
        Sums {
            documents: 0,
            loads: 0,
            expanded: 0,
            compacted: 0,
            flattened: 0,
            runs: 0,
        }
    }

    // Loads the context, once the first document was tried without it, as it would be by a first request. The trial
    // adds to the runs, and nothing else comes of it.
    fn load(&mut self, alloc: Global) -> Result<Stock, NoMemory>
        ensures stock { IfOk result IsStock }
        ensures others { OnOk result (record self.new { runs = self.old.runs } ≡ record self.old { loads = 1 }) }
    {
        let nothing_held = Stock::of(alloc, Vec::new(alloc))?;
        let _ = self.answer(alloc, &nothing_held, Op::Expand, &envelope(alloc, 1)?)?;
        let mut tower = Tower::new();
        let stock = load_stock(alloc, &mut tower)?;
        self.loads = tower.made();
        Ok(stock)
    }

    // Answers the documents that are left, up to this number.
    fn add_documents(&mut self, alloc: Global, stock: &Stock, count: u16) -> Result<(), NoMemory>
        requires within { self.old.documents ≤ count }
        requires lengths { AreLengths stock.now self.old }
        requires bounded { AreBounded self.old }
        ensures documents { OnOk result (self.new.documents ≡ count) }
        ensures loads { OnOk result (self.new.loads ≡ self.old.loads) }
        ensures lengths { OnOk result (AreLengths stock.now self.new) }
    {
        while self.documents < count {
            self.add_next(alloc, stock)?;
        }
        Ok(())
    }

    // Answers the next document.
    fn add_next(&mut self, alloc: Global, stock: &Stock) -> Result<(), NoMemory>
        requires more { self.old.documents < 65535 }
        requires bounded { AreBounded self.old }
        ensures documents { OnOk result (self.new.documents ≡ self.old.documents + 1) }
        ensures loads { OnOk result (self.new.loads ≡ self.old.loads) }
        ensures expanded { OnOk result (self.new.expanded ≡ self.old.expanded + answer_length stock.now ops.Expand (self.old.documents + 1)) }
        ensures compacted { OnOk result (self.new.compacted ≡ self.old.compacted + answer_length stock.now ops.Compact (self.old.documents + 1)) }
        ensures flattened { OnOk result (self.new.flattened ≡ self.old.flattened + answer_length stock.now ops.Flatten (self.old.documents + 1)) }
        ensures bounded { OnOk result (AreBounded self.new) }
    {
        let envelope = envelope(alloc, u32::from(self.documents) + 1)?;
        let expanded = self.answer(alloc, stock, Op::Expand, &envelope)?;
        let compacted = self.answer(alloc, stock, Op::Compact, &envelope)?;
        let flattened = self.answer(alloc, stock, Op::Flatten, &envelope)?;
        self.documents += 1;
        self.expanded += expanded as u128;
        self.compacted += compacted as u128;
        self.flattened += flattened as u128;
        Ok(())
    }

    // The length of what the envelope is answered. The runs that it took are added.
    fn answer(
        &mut self,
        alloc: Global,
        stock: &Stock,
        op: Op,
        envelope: &Envelope,
    ) -> Result<usize, NoMemory>
        ensures length { IfOk result (λ length. length ≡ text_length (answered stock.now op envelope.now)) }
        ensures others { record self.new { runs = self.old.runs } ≡ self.old }
    {
        let mut work = Plain::new(alloc, stock);
        let answer = envelope.answer(alloc, op, &mut work);
        self.runs = self.runs.saturating_add(work.runs().count);
        length_of(alloc, answer)
    }
}

// Where there is no result, nothing is counted.
fn length_of(alloc: Global, answer: Answer) -> Result<usize, NoMemory>
    ensures { IfOk result (λ length. (r : Result Tree Stop) → Tells answer r → length ≡ text_length r) }
{
    match answer {
        Answer::Result(tree) => printed_length(alloc, &tree),
        Answer::NoMemory => Err(NoMemory),
        Answer::Code(_) | Answer::Own(_) | Answer::Missing(_) => Ok(0),
    }
}

fn printed_length(alloc: Global, tree: &Tree) -> Result<usize, NoMemory>
    ensures { IfOk result (λ n. n ≡ length (text tree.now)) }
{
    let mut text = Vec::new(alloc);
    write_tree(tree, &mut text)?;
    Ok(text.len())
}
