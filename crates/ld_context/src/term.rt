ghost use Rattle.std.specs.Prelude.{◌≡◌, ◌<◌, Ok, IfOk};
ghost use Rattle.ld_ctx.specs.Flat.{flat};
ghost use Rattle.ld_rec.specs.Outcome.{Stock as Documents};
ghost use Rattle.ld_rec.specs.Records.{Context};
ghost use Rattle.ld_rec.specs.Terms.{Check as Checks};
ghost use Rattle.ld_term.specs.declared.run.Next.TheVariants.{Check as ToCheck};
ghost use Rattle.ld_term.specs.NextSizes.{next_size, waiting_size, NextFits, WaitingFits};
ghost use Rattle.ld_term.specs.Runs.{Resumes};
ghost use Rattle.ld_term.specs.Waits.{made_of, rest_of};
ghost use Rattle.ld_context.specs.Starts.{term_outcome, left_outcome, Starts};

use ld_ctx::Ctx;
use ld_rec::Stop;
use ld_term::{Defined, Next, Rest, Waiting, define, resume};
use ld_tree::{Entries, Tree};
use std::alloc::Global;

/// `define`, as it is over one stock.
pub fn start(
    alloc: Global,
    made: &mut Ctx,
    entries: &Entries<Tree>,
    name: &str,
    defined: &mut Defined,
    rest: &Rest,
) -> Result<Next, Stop>
    ensures gives { (check : Checks) (stock : Documents) → Starts (λ next. left_outcome check (rest_of rest.now) entries.now next (made_of made.new defined.new) stock) result (term_outcome check (rest_of rest.now) entries.now name.now (made_of made.old defined.old) stock) }
    ensures fits { IfOk result (λ next. NextFits entries.now.0 defined.new next) }
{
    define(alloc, made, entries, name, defined, rest)
}

/// `resume` where the scoped context was processed well, as it is over one stock.
pub fn go_on(
    alloc: Global,
    made: &mut Ctx,
    entries: &Entries<Tree>,
    waiting: Waiting,
    defined: &mut Defined,
    rest: &Rest,
) -> Result<Next, Stop>
    requires { WaitingFits entries.now.0 defined.old waiting }
    ensures gives { (check : Checks) (stock : Documents) (context : Context) → ((check (flat made.old) waiting.ready.scoped).run stock).result ≡ Ok context → Resumes (λ next. left_outcome check (rest_of rest.now) entries.now next (made_of made.new defined.new) stock) result ((check (flat made.old) waiting.ready.scoped).run stock) (left_outcome check (rest_of rest.now) entries.now (ToCheck waiting) (made_of made.old defined.old) stock) }
    ensures size { IfOk result (λ next. next_size entries.now.0 defined.new next < waiting_size entries.now.0 defined.old waiting) }
    ensures fits { IfOk result (λ next. NextFits entries.now.0 defined.new next) }
{
    resume(alloc, made, entries, waiting, defined, rest, Ok(()))
}
