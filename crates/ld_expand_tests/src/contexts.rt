ghost use Rattle.std.specs.Prelude.{◌≡◌, IfOk};
ghost use Rattle.ld_tree.specs.Maps.{empty};
ghost use Rattle.ld_rec.specs.declared.doc.Doc.{Doc};
ghost use Rattle.ld_rec.specs.Outcome.{GivesAs};
ghost use Rattle.ld_rec.specs.Processing.{processed};
ghost use Rattle.ld_ctx.specs.Asks.{asked};
ghost use Rattle.ld_ctx.specs.Flat.{flat};

use ld_ctx::{Ask, Contexts, Ctx, Stop};
use ld_tree::NoMemory;
use std::alloc::Global;

/// Contexts for documents that bring none: one to be processed finds no memory.
#[derive(Drop)]
pub struct Fresh;

impl Contexts for Fresh {
    type Kept = Ctx;

    ghost stock = { λ _. empty };

    ghost gave = { λ _ _. Unit {0} };

    ghost gave_behind = { λ _ _ _ _ _. tt };

    ghost gave_copies = { λ _ _ _ _ _. tt };

    fn fresh(&mut self, alloc: Global, base: Option<&str>) -> Result<Ctx, NoMemory> {
        Ctx::fresh(alloc, base)
    }

    fn context(&mut self, _alloc: Global, ask: Ask<Ctx>) -> Result<Ctx, Stop>
        requires { Unit {0} }
        ensures answer { GivesAs flat result (processed empty (asked flat ask)).result }
        ensures gave { IfOk result (λ _. Unit {0}) }
        ensures keeps { (kept : Ctx) → Unit {0} → Unit {0} }
        ensures stock { empty {T = Doc} ≡ empty }
    {
        drop(ask);
        Err(Stop::NoMemory)
    }
}
