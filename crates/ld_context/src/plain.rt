use crate::inputs::Inputs;
use crate::kept::Kept;
use crate::runs::Runs;
use crate::walk::process_with;
use ld_ctx::{Ask, Contexts, Ctx, Stock};
use ld_inverse::{BuildTicket, Inverse, Inverses, build};
use ld_rec::Stop;
use ld_tree::NoMemory;
use std::alloc::Global;
use std::sync::Arc;

/// Gives contexts and inverse contexts over a stock, and keeps none: each is made anew.
#[derive(Debug, Drop)]
pub struct Plain<'a> {
    stock: &'a Stock,
    runs: Runs,
}

impl<'a> Plain<'a> {
    ghost use Rattle.std.specs.Prelude.{◌≡◌, []};

    pub fn new(alloc: Global, stock: &'a Stock) -> Plain<'a>
        ensures stock { result.stock.now ≡ stock.now }
        ensures count { result.runs.count ≡ 0 }
        ensures read { result.runs.read ≡ [] }
    {
        Plain {
            stock,
            runs: Runs::new(alloc),
        }
    }

    /// What processing took so far.
    pub fn runs(&self) -> &Runs
        ensures { result.now ≡ self.now.runs }
    {
        &self.runs
    }
}

impl<'a> Contexts for Plain<'a> {
    ghost use Rattle.std.specs.Prelude.{◌≡◌, ◌+◌, ◌-◌, ◌^◌, ◌++◌, min, IfOk};
    ghost use Rattle.ld_rec.specs.Outcome.{GivesAs};
    ghost use Rattle.ld_rec.specs.Processing.{processed};
    ghost use Rattle.ld_ctx.specs.Asks.{asked};
    ghost use Rattle.ld_context.specs.Counts.{UnlessNoMemory};
    ghost use Rattle.ld_context.specs.Kept.{kept_flat};

    type Kept = Kept;

    ghost stock = { λ plain. plain.stock.now };

    ghost gave = { λ plain kept. Unit {0} };

    fn fresh(&mut self, alloc: Global, base: Option<&str>) -> Result<Kept, NoMemory> {
        Kept::of(alloc, Ctx::fresh(alloc, base)?)
    }

    fn context(&mut self, alloc: Global, ask: Ask<Kept>) -> Result<Kept, Stop>
        ensures answer { GivesAs kept_flat result (processed self.old.stock.now (asked kept_flat ask)).result }
        ensures count { UnlessNoMemory result (self.new.runs.count ≡ min (self.old.runs.count + (processed self.old.stock.now (asked kept_flat ask)).runs) (2 ^ 64 - 1)) }
        ensures read { UnlessNoMemory result (self.new.runs.read ≡ self.old.runs.read ++ (processed self.old.stock.now (asked kept_flat ask)).reads) }
        ensures gave { IfOk result (λ _. Unit {0}) }
        ensures keeps { (kept : Kept) → Unit {0} → Unit {0} }
        ensures stock { self.new.stock.now ≡ self.old.stock.now }
    {
        let Ask {
            active,
            local,
            base,
            remote,
            over,
            propagate,
            validate,
            depth,
        } = ask;
        let active = Ctx::of(alloc, &active)?;
        let inputs = Inputs {
            base,
            over,
            propagate,
            validate,
            depth,
        };
        let made = process_with(
            alloc,
            self.stock,
            &mut self.runs,
            active,
            &local,
            remote,
            inputs,
        )?;
        Ok(Kept::of(alloc, made)?)
    }

    ghost gave_behind = { λ plain kept gave previous is. tt };

    ghost gave_copies = { λ plain kept copy gave is. tt };
}

impl<'a> Inverses for Plain<'a> {
    fn inverse(&mut self, alloc: Global, kept: &Kept) -> Result<Arc<Inverse>, NoMemory> {
        match build(alloc, BuildTicket::own(), kept) {
            Ok(inverse) => Ok(inverse),
            Err((ticket, e)) => {
                let _ = ticket.end();
                Err(e)
            }
        }
    }
}
