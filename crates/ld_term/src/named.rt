ghost use Rattle.std.specs.Prelude.{◌≡◌, ◌≤◌, ℕ, List, Bool, true, IfOk, OnOk};
ghost use Rattle.ld_tree.specs.Names.{Sorted};
ghost use Rattle.ld_tree.specs.Maps.{put as with_put};
ghost use Rattle.ld_tree.specs.declared.tree.Tree.{Tree, out-Tree};
ghost use Rattle.ld_rec.specs.Outcome.{give};
ghost use Rattle.ld_rec.specs.Terms as terms;
ghost use Rattle.ld_rec.specs.Terms.{Check, Define, if_means, ignored, marked, forward};
ghost use Rattle.ld_term.specs.declared.half.Aim.TheVariants.{Means, Named};
ghost use Rattle.ld_term.specs.Comes.{Comes};
ghost use Rattle.ld_term.specs.Waits.{made_of, rest_of, draft_of, aimed, iri_and_mapped, meant_and_mapped, text_and_mapped, kept_and_mapped, same_and_mapped, value_and_mapped, first_and_meant, first_and_named, Goes};
ghost use Rattle.ld_term.specs.Sizes.{Grows, weight};

use crate::first::{first_all, meaning, wait_for, wait_for_itself};
use crate::half::{Aim, Step, Task};
use crate::mapping::{mapped, own_and_mapped};
use crate::rest::Rest;
use crate::table::{Defined, mark};
use crate::words::{
    are_same, is_compound, is_iri_or_blank, is_keyword, is_only_form, is_prefix_of, is_same,
};
use ld_codes::Code;
use ld_ctx::Ctx;
use ld_rec::{Def, Stop};
use ld_tree::{Entries, NoMemory, Text, Tree};
use std::alloc::Global;

// Step 14.2.4.2.
fn if_means(alloc: Global, made: &Ctx, term: &Text, iri: &Text, def: Def) -> Result<Def, Stop>
    ensures { (table : Sorted Bool) → Comes (λ d. give (record { def = d; made = made_of made.now table })) result (if_means term.now iri.now (record { def = def; made = made_of made.now table })) }
{
    match meaning(alloc, made, term)? {
        Some(own) => {
            if are_same(&own, iri) {
                Ok(def)
            } else {
                Err(Stop::Code(Code::InvalidIriMapping))
            }
        }
        None => Err(Stop::Code(Code::InvalidIriMapping)),
    }
}

/// Steps 14.2.4.2 and 19 to 28.
pub fn meant(
    alloc: Global,
    made: &mut Ctx,
    defined: &mut Defined,
    rest: &Rest,
    entries: &Entries<Tree>,
    task: Task,
    iri: &Text,
) -> Result<Step, Stop>
    ensures gives { (check : Check) (define : Define) (local : Sorted Tree) (value : List ℕ) → Goes check define (rest_of rest.now) local (made_of made.new defined.new) result (aimed check define (rest_of rest.now) local task entries.now (Means iri.now) value (made_of made.old defined.old)) }
    ensures table { Grows defined.old defined.new }
    ensures size { IfOk result (λ step. weight step ≤ 1) }
{
    let Task {
        term,
        previous,
        def,
        simple,
    } = task;
    let def = if_means(alloc, made, &term, iri, def)?;
    let task = Task {
        term,
        previous,
        def,
        simple,
    };
    mapped(alloc, made, defined, rest, entries, task)
}

// Step 14.2.4.1: the table takes true for the term.
fn mark_term(alloc: Global, defined: &mut Defined, term: &Text) -> Result<(), NoMemory>
    ensures put { OnOk result (defined.new ≡ with_put defined.old term.now true) }
    ensures table { Grows defined.old defined.new }
{
    let name = term.try_copy(alloc)?;
    mark(defined, name, true)
}

// Steps 14.2.4.1, 14.2.4.2 and 19 to 28.
fn means_itself(
    alloc: Global,
    made: &mut Ctx,
    local: &Entries<Tree>,
    defined: &mut Defined,
    rest: &Rest,
    entries: &Entries<Tree>,
    task: Task,
    iri: Text,
) -> Result<Step, Stop>
    ensures gives { (check : Check) (define : Define) → Goes check define (rest_of rest.now) local.now (made_of made.new defined.new) result (first_and_meant check define (rest_of rest.now) local.now task entries.now iri (made_of made.old defined.old)) }
    ensures table { Grows defined.old defined.new }
    ensures size { IfOk result (λ step. weight step ≤ 5) }
{
    let before = first_all(alloc, made, local, defined, &task.term)?;
    match before {
        None => meant(alloc, made, defined, rest, entries, task, &iri),
        Some(before) => {
            let step = wait_for_itself(alloc, entries, task, Aim::Means(iri), before)?;
            Ok(step)
        }
    }
}

// Steps 14.2.4.1 to 28, of a compound term.
fn marked_and_meant(
    alloc: Global,
    made: &mut Ctx,
    local: &Entries<Tree>,
    defined: &mut Defined,
    rest: &Rest,
    entries: &Entries<Tree>,
    task: Task,
    iri: Text,
) -> Result<Step, Stop>
    ensures gives { (check : Check) (define : Define) → Goes check define (rest_of rest.now) local.now (made_of made.new defined.new) result (first_and_meant check define (rest_of rest.now) local.now task entries.now iri (marked task.term true (made_of made.old defined.old))) }
    ensures table { Grows defined.old defined.new }
    ensures size { IfOk result (λ step. weight step ≤ 5) }
{
    mark_term(alloc, defined, &task.term)?;
    means_itself(alloc, made, local, defined, rest, entries, task, iri)
}

// Steps 14.2.4 and 19 to 28.
fn meant_and_mapped(
    alloc: Global,
    made: &mut Ctx,
    local: &Entries<Tree>,
    defined: &mut Defined,
    rest: &Rest,
    entries: &Entries<Tree>,
    task: Task,
    iri: Text,
) -> Result<Step, Stop>
    ensures gives { (check : Check) (define : Define) → Goes check define (rest_of rest.now) local.now (made_of made.new defined.new) result (meant_and_mapped check define (rest_of rest.now) local.now task entries.now iri (made_of made.old defined.old)) }
    ensures table { Grows defined.old defined.new }
    ensures size { IfOk result (λ step. weight step ≤ 5) }
{
    if is_compound(&task.term) {
        marked_and_meant(alloc, made, local, defined, rest, entries, task, iri)
    } else {
        mapped(alloc, made, defined, rest, entries, task)
    }
}

/// Steps 14.2.3 to 28.
pub fn iri_and_mapped(
    alloc: Global,
    made: &mut Ctx,
    local: &Entries<Tree>,
    defined: &mut Defined,
    rest: &Rest,
    entries: &Entries<Tree>,
    task: Task,
    iri: Option<Text>,
) -> Result<Step, Stop>
    ensures gives { (check : Check) (define : Define) → Goes check define (rest_of rest.now) local.now (made_of made.new defined.new) result (iri_and_mapped check define (rest_of rest.now) local.now task entries.now iri (made_of made.old defined.old)) }
    ensures table { Grows defined.old defined.new }
    ensures size { IfOk result (λ step. weight step ≤ 5) }
{
    let Some(iri) = iri else {
        return Err(Stop::Code(Code::InvalidIriMapping));
    };
    if !(is_keyword(&iri) || is_iri_or_blank(&iri)) {
        return Err(Stop::Code(Code::InvalidIriMapping));
    }
    if is_same(&iri, "@context") {
        return Err(Stop::Code(Code::InvalidKeywordAlias));
    }
    let mut task = task;
    task.def.prefix = is_prefix_of(task.simple, &task.term, &iri);
    task.def.mapping = Some(iri.try_copy(alloc)?);
    meant_and_mapped(alloc, made, local, defined, rest, entries, task, iri)
}

/// Steps 14.2.3 to 28, where the value's own names are defined.
pub fn named(
    alloc: Global,
    made: &mut Ctx,
    local: &Entries<Tree>,
    defined: &mut Defined,
    rest: &Rest,
    entries: &Entries<Tree>,
    task: Task,
    value: &Text,
) -> Result<Step, Stop>
    ensures gives { (check : Check) (define : Define) → Goes check define (rest_of rest.now) local.now (made_of made.new defined.new) result (aimed check define (rest_of rest.now) local.now task entries.now Named value.now (made_of made.old defined.old)) }
    ensures table { Grows defined.old defined.new }
    ensures size { IfOk result (λ step. weight step ≤ 5) }
{
    let iri = meaning(alloc, made, value)?;
    iri_and_mapped(alloc, made, local, defined, rest, entries, task, iri)
}

/// The term is ignored, and counts as defined.
pub fn ignored(alloc: Global, made: &Ctx, defined: &mut Defined, term: &Text) -> Result<Step, Stop>
    ensures gives { (check : Check) (define : Define) (given : terms.Rest) (local : Sorted Tree) → Goes check define given local (made_of made.now defined.new) result (ignored term.now (made_of made.now defined.old)) }
    ensures table { Grows defined.old defined.new }
    ensures marked { OnOk result (defined.new ≡ with_put defined.old term.now true) }
    ensures size { IfOk result (λ step. weight step ≤ 1) }
{
    mark_term(alloc, defined, term)?;
    Ok(Step::Done)
}

// Steps 14.2.2 to 28, where the value hasn't only the form of a keyword.
fn first_and_named(
    alloc: Global,
    made: &mut Ctx,
    local: &Entries<Tree>,
    defined: &mut Defined,
    rest: &Rest,
    entries: &Entries<Tree>,
    task: Task,
    value: &Text,
) -> Result<Step, Stop>
    ensures gives { (check : Check) (define : Define) → Goes check define (rest_of rest.now) local.now (made_of made.new defined.new) result (first_and_named check define (rest_of rest.now) local.now task entries.now value.now (made_of made.old defined.old)) }
    ensures table { Grows defined.old defined.new }
    ensures size { IfOk result (λ step. weight step ≤ 9) }
{
    let before = first_all(alloc, made, local, defined, value)?;
    match before {
        None => named(alloc, made, local, defined, rest, entries, task, value),
        Some(before) => {
            let step = wait_for(alloc, entries, task, Aim::Named, value, before)?;
            Ok(step)
        }
    }
}

// Steps 14.2.2 to 28.
fn text_and_mapped(
    alloc: Global,
    made: &mut Ctx,
    local: &Entries<Tree>,
    defined: &mut Defined,
    rest: &Rest,
    entries: &Entries<Tree>,
    task: Task,
    value: &Text,
) -> Result<Step, Stop>
    ensures gives { (check : Check) (define : Define) → Goes check define (rest_of rest.now) local.now (made_of made.new defined.new) result (text_and_mapped check define (rest_of rest.now) local.now task entries.now value.now (made_of made.old defined.old)) }
    ensures table { Grows defined.old defined.new }
    ensures size { IfOk result (λ step. weight step ≤ 9) }
{
    if is_only_form(value) {
        ignored(alloc, made, defined, &task.term)
    } else {
        first_and_named(alloc, made, local, defined, rest, entries, task, value)
    }
}

// Steps 14.1 and 19 to 28.
fn kept_and_mapped(
    alloc: Global,
    made: &mut Ctx,
    defined: &mut Defined,
    rest: &Rest,
    entries: &Entries<Tree>,
    task: Task,
) -> Result<Step, Stop>
    ensures gives { (check : Check) (define : Define) (local : Sorted Tree) → Goes check define (rest_of rest.now) local (made_of made.new defined.new) result (kept_and_mapped check (rest_of rest.now) task entries.now (made_of made.old defined.old)) }
    ensures table { Grows defined.old defined.new }
    ensures size { IfOk result (λ step. weight step ≤ 1) }
{
    mapped(alloc, made, defined, rest, entries, task)
}

// Steps 15 to 28, of an `@id` that is the term.
fn same_and_mapped(
    alloc: Global,
    made: &mut Ctx,
    local: &Entries<Tree>,
    defined: &mut Defined,
    rest: &Rest,
    entries: &Entries<Tree>,
    task: Task,
) -> Result<Step, Stop>
    ensures gives { (check : Check) (define : Define) → Goes check define (rest_of rest.now) local.now (made_of made.new defined.new) result (same_and_mapped check define (rest_of rest.now) local.now task entries.now (made_of made.old defined.old)) }
    ensures table { Grows defined.old defined.new }
    ensures size { IfOk result (λ step. weight step ≤ 3) }
{
    own_and_mapped(alloc, made, local, defined, rest, entries, task)
}

// Steps 14.1 to 28.
fn value_and_mapped(
    alloc: Global,
    made: &mut Ctx,
    local: &Entries<Tree>,
    defined: &mut Defined,
    rest: &Rest,
    entries: &Entries<Tree>,
    task: Task,
    value: &Tree,
) -> Result<Step, Stop>
    ensures gives { (check : Check) (define : Define) → Goes check define (rest_of rest.now) local.now (made_of made.new defined.new) result (value_and_mapped check define (rest_of rest.now) local.now task entries.now (out-Tree value.now) (made_of made.old defined.old)) }
    ensures table { Grows defined.old defined.new }
    ensures size { IfOk result (λ step. weight step ≤ 9) }
{
    match value {
        Tree::Null => kept_and_mapped(alloc, made, defined, rest, entries, task),
        Tree::Text(value) => {
            if are_same(value, &task.term) {
                same_and_mapped(alloc, made, local, defined, rest, entries, task)
            } else {
                text_and_mapped(alloc, made, local, defined, rest, entries, task, value)
            }
        }
        _ => Err(Stop::Code(Code::InvalidIriMapping)),
    }
}

/// Steps 14 to 28.
pub fn forward(
    alloc: Global,
    made: &mut Ctx,
    local: &Entries<Tree>,
    defined: &mut Defined,
    rest: &Rest,
    entries: &Entries<Tree>,
    task: Task,
) -> Result<Step, Stop>
    ensures gives { (check : Check) (define : Define) → Goes check define (rest_of rest.now) local.now (made_of made.new defined.new) result (forward check define (rest_of rest.now) local.now task.term task.simple entries.now task.previous (draft_of task (made_of made.old defined.old))) }
    ensures table { Grows defined.old defined.new }
    ensures size { IfOk result (λ step. weight step ≤ 9) }
{
    match entries.get("@id") {
        None => own_and_mapped(alloc, made, local, defined, rest, entries, task),
        Some(value) => value_and_mapped(alloc, made, local, defined, rest, entries, task, value),
    }
}
