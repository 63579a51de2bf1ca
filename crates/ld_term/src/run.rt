ghost use Rattle.std.specs.Prelude.{◌≡◌, ◌+◌, ◌*◌, ◌≤◌, ◌<◌, ◌++◌, ◌∷◌, [], length, IfOk, OnOk};
ghost use Rattle.ld_tree.specs.Names.{Sorted};
ghost use Rattle.ld_ctx.specs.Flat.{flat};
ghost use Rattle.ld_rec.specs.Outcome.{Stock, give};
ghost use Rattle.ld_rec.specs.Terms.{Check as Checks, Define, defined as defined_by, with_scoped};
ghost use Rattle.ld_term.specs.declared.half.Wait.TheVariants.{Value};
ghost use Rattle.ld_term.specs.Comes.{Comes};
ghost use Rattle.ld_term.specs.Waits.{made_of, rest_of, draft_of, aimed, from_half, from_wait, from_stack, closed_and_put, Goes};
ghost use Rattle.ld_term.specs.Runs.{from_next, from_waiting, Told, Resumes, scoped_stop};
ghost use Rattle.ld_term.specs.Sizes.{Grows, aim_weight, wait_weight, halves_of, names_left, weight, weights};
ghost use Rattle.ld_term.specs.NextSizes.{next_size, waiting_size, NextFits, WaitingFits};

use crate::begin::define_step;
use crate::ending::put_closed;
use crate::first::due_prefix;
use crate::half::{Aim, Half, Ready, Step, Task, Wait};
use crate::kinds::typed;
use crate::mapping::from_own;
use crate::named::{meant, named};
use crate::rest::Rest;
use crate::reverse::backed;
use crate::table::Defined;
use ld_codes::Code;
use ld_ctx::Ctx;
use ld_rec::Stop;
use ld_tree::{Entries, Iri, NoMemory, Text, Tree};
use std::alloc::Global;

/// A definition whose scoped context is to be checked, and those that wait for it.
#[derive(Debug, Drop)]
pub struct Waiting {
    pub ready: Ready,
    pub stack: Vec<Half>,
}

impl Waiting {
    /// The scoped context.
    pub fn scoped(&self) -> &Tree
        ensures { result.now ≡ self.now.ready.scoped }
    {
        &self.ready.scoped
    }
}

/// How far a definition has come.
#[derive(Debug, Drop)]
pub enum Next {
    /// The term is defined.
    Done,
    /// The scoped context of the Waiting is to be processed over the context as it is.
    Check(Waiting),
}

// What is left once a value's own names are defined.
fn aimed(
    alloc: Global,
    made: &mut Ctx,
    local: &Entries<Tree>,
    defined: &mut Defined,
    rest: &Rest,
    entries: &Entries<Tree>,
    task: Task,
    aim: Aim,
    value: &Text,
) -> Result<Step, Stop>
    ensures gives { (check : Checks) (define : Define) → Goes check define (rest_of rest.now) local.now (made_of made.new defined.new) result (aimed check define (rest_of rest.now) local.now task entries.now aim value.now (made_of made.old defined.old)) }
    ensures table { Grows defined.old defined.new }
    ensures size { IfOk result (λ step. weight step < aim_weight aim) }
{
    match aim {
        Aim::Typed => typed(alloc, made, local, defined, rest, entries, task, value),
        Aim::Backward => backed(alloc, made, defined, rest, entries, task, value),
        Aim::Named => named(alloc, made, local, defined, rest, entries, task, value),
        Aim::Means(iri) => meant(alloc, made, defined, rest, entries, task, &iri),
    }
}

// What is left of a half-made definition once its value is defined.
fn valued(
    alloc: Global,
    made: &mut Ctx,
    local: &Entries<Tree>,
    defined: &mut Defined,
    rest: &Rest,
    entries: Entries<Tree>,
    task: Task,
    aim: Aim,
    value: Text,
) -> Result<Step, Stop>
    ensures gives { (check : Checks) (define : Define) → Goes check define (rest_of rest.now) local.now (made_of made.new defined.new) result (from_wait check define (rest_of rest.now) local.now task entries (Value aim value) (made_of made.old defined.old)) }
    ensures table { Grows defined.old defined.new }
    ensures size { IfOk result (λ step. weight step < aim_weight aim + 2) }
{
    let prefix = due_prefix(alloc, made, local, defined, &value)?;
    match prefix {
        None => aimed(
            alloc, made, local, defined, rest, &entries, task, aim, &value,
        ),
        Some(name) => Ok(Step::Need(
            Half {
                task,
                entries,
                wait: Wait::Prefix(aim, value),
            },
            name,
        )),
    }
}

// What is left of a half-made definition once the name is defined that it waits for.
fn go_on(
    alloc: Global,
    made: &mut Ctx,
    local: &Entries<Tree>,
    defined: &mut Defined,
    rest: &Rest,
    half: Half,
) -> Result<Step, Stop>
    ensures gives { (check : Checks) (define : Define) → Goes check define (rest_of rest.now) local.now (made_of made.new defined.new) result (from_half check define (rest_of rest.now) local.now half (made_of made.old defined.old)) }
    ensures table { Grows defined.old defined.new }
    ensures size { IfOk result (λ step. weight step < wait_weight half.wait) }
{
    let Half {
        task,
        entries,
        wait,
    } = half;
    match wait {
        Wait::Value(aim, value) => valued(
            alloc, made, local, defined, rest, entries, task, aim, value,
        ),
        Wait::Prefix(aim, value) => aimed(
            alloc, made, local, defined, rest, &entries, task, aim, &value,
        ),
        Wait::Own => from_own(alloc, made, defined, rest, &entries, task),
    }
}

fn push_half(stack: &mut Vec<Half>, half: Half) -> Result<(), NoMemory>
    ensures { OnOk result (stack.new.items ≡ stack.old.items ++ half ∷ []) }
{
    match stack.push(half) {
        Ok(()) => Ok(()),
        Err(_) => Err(NoMemory),
    }
}

// Steps until the last definition is put or a scoped context is to be checked. The half-made definitions that
// wait for one another stand on the stack, the outermost first.
fn run(
    alloc: Global,
    made: &mut Ctx,
    local: &Entries<Tree>,
    defined: &mut Defined,
    rest: &Rest,
    stack: Vec<Half>,
    step: Step,
) -> Result<Next, Stop>
    requires { length stack.items + halves_of step + names_left local.now.0 defined.old ≤ length local.now.0 }
    ensures gives { (check : Checks) → Comes (λ next. from_next check (rest_of rest.now) local.now next (made_of made.new defined.new)) result (from_stack check (rest_of rest.now) local.now (length local.now.0) stack.items step (made_of made.old defined.old)) }
    ensures size { IfOk result (λ next. next_size local.now.0 defined.new next ≤ 13 * names_left local.now.0 defined.old + weights stack.items + weight step) }
    ensures fits { IfOk result (λ next. NextFits local.now.0 defined.new next) }
{
    let mut stack = stack;
    let mut step = step;
    loop {
        match step {
            Step::Done => match stack.pop() {
                None => return Ok(Next::Done),
                Some(half) => match go_on(alloc, made, local, defined, rest, half) {
                    Ok(next) => {
                        step = next;
                        continue;
                    }
                    Err(e) => return Err(e),
                },
            },
            Step::Need(half, name) => {
                push_half(&mut stack, half)?;
                match define_step(alloc, made, local, defined, rest, name) {
                    Ok(next) => {
                        step = next;
                        continue;
                    }
                    Err(e) => return Err(e),
                }
            }
            Step::Check(ready) => return Ok(Next::Check(Waiting { ready, stack })),
        }
    }
}

/// Begins the definition of a term of the local context (JSON-LD 1.1 API, 4.2.2). After an error the context that
/// is being made is given up. A context that is open takes logarithmic time for each definition.
pub fn define(
    alloc: Global,
    made: &mut Ctx,
    local: &Entries<Tree>,
    term: &str,
    defined: &mut Defined,
    rest: &Rest,
) -> Result<Next, Stop>
    // whatever scoped contexts give: what the definition gives is what is left after this call
    ensures gives { (check : Checks) → Comes (λ next. from_next check (rest_of rest.now) local.now next (made_of made.new defined.new)) result (defined_by check (rest_of rest.now) local.now term.now (made_of made.old defined.old)) }

    // how much is left to do, which each `resume` makes less
    ensures size { IfOk result (λ next. next_size local.now.0 defined.new next ≤ 13 * names_left local.now.0 defined.old) }
    ensures fits { IfOk result (λ next. NextFits local.now.0 defined.new next) }
{
    let name = Text::from_str(alloc, term)?;
    match define_step(alloc, made, local, defined, rest, name) {
        Ok(step) => run(alloc, made, local, defined, rest, Vec::new(alloc), step),
        Err(e) => Err(e),
    }
}

fn copy_base(alloc: Global, base: &Option<Iri>) -> Result<Option<Iri>, NoMemory>
    ensures { IfOk result (λ copy. copy ≡ base.now) }
{
    match base {
        Some(base) => Ok(Some(base.try_copy(alloc)?)),
        None => Ok(None),
    }
}

// Steps 21 to 28, where the scoped context was checked.
fn settle(
    alloc: Global,
    made: &mut Ctx,
    defined: &mut Defined,
    rest: &Rest,
    ready: Ready,
) -> Result<(), Stop>
    ensures gives { Comes (λ _. give (made_of made.new defined.new)) result (closed_and_put (rest_of rest.now) ready.task.term ready.entries ready.task.previous (with_scoped (rest_of rest.now) ready.scoped (draft_of ready.task (made_of made.old defined.old)))) }
    ensures table { Grows defined.old defined.new }
{
    let Ready {
        task,
        entries,
        scoped,
    } = ready;
    let mut task = task;
    let base = copy_base(alloc, &rest.base)?;
    task.def.scoped_base = base;
    task.def.scoped = Some(scoped);
    put_closed(alloc, made, defined, rest, &entries, task)
}

/// The error of a definition whose scoped context ends in an error: a code becomes `invalid scoped context`
/// (JSON-LD 1.1 API, 4.2.2, step 21.3).
pub fn scoped_stop(stop: Stop) -> Stop
    ensures { result ≡ scoped_stop stop }
{
    match stop {
        Stop::Code(_) => Stop::Code(Code::InvalidScopedContext),
        other => other,
    }
}

/// Goes on with a definition, once its scoped context was processed: `outcome` tells what came of it, over the
/// context as it is. Where that is an error this is one too, and a code becomes `invalid scoped context`.
pub fn resume(
    alloc: Global,
    made: &mut Ctx,
    local: &Entries<Tree>,
    waiting: Waiting,
    defined: &mut Defined,
    rest: &Rest,
    outcome: Result<(), Stop>,
) -> Result<Next, Stop>
    requires { WaitingFits local.now.0 defined.old waiting }

    // whatever a scoped context gives, where of this one it gives what is told
    ensures gives { (check : Checks) (stock : Stock) → Told outcome ((check (flat made.old) waiting.ready.scoped).run stock).result → Resumes (λ next. (from_next check (rest_of rest.now) local.now next (made_of made.new defined.new)).run stock) result ((check (flat made.old) waiting.ready.scoped).run stock) ((from_waiting check (rest_of rest.now) local.now waiting (made_of made.old defined.old)).run stock) }

    // less is left to do than before
    ensures size { IfOk result (λ next. next_size local.now.0 defined.new next < waiting_size local.now.0 defined.old waiting) }
    ensures fits { IfOk result (λ next. NextFits local.now.0 defined.new next) }
{
    match outcome {
        Err(e) => Err(scoped_stop(e)),
        Ok(()) => {
            let Waiting { ready, stack } = waiting;
            match settle(alloc, made, defined, rest, ready) {
                Ok(()) => run(alloc, made, local, defined, rest, stack, Step::Done),
                Err(e) => Err(e),
            }
        }
    }
}
