ghost use Rattle.std.specs.Prelude.{◌≡◌, ◌≤◌, IfOk, Some, option_copied, codes};
ghost use Rattle.ld_tree.specs.declared.tree.Tree.{Tree};
ghost use Rattle.ld_tree.specs.Names.{Sorted};
ghost use Rattle.ld_tree.specs.Maps.{find};
ghost use Rattle.ld_rec.specs.Outcome.{give};
ghost use Rattle.ld_rec.specs.Records.{no_containers};
ghost use Rattle.ld_rec.specs.Words.{opened, text_of};
ghost use Rattle.ld_rec.specs.Terms.{Check, Define, reverse_container, reversed, reversed_to, backward_to, backward, either_way};
ghost use Rattle.ld_term.specs.declared.half.Aim.TheVariants.{Backward};
ghost use Rattle.ld_term.specs.Comes.{Comes};
ghost use Rattle.ld_term.specs.Waits.{made_of, rest_of, draft_of, aimed, first_and_backed, Goes};
ghost use Rattle.ld_term.specs.Sizes.{Grows, weight};

use crate::ending::{finished, has};
use crate::first::{first_all, meaning, wait_for};
use crate::half::{Aim, Step, Task};
use crate::named::{forward, ignored};
use crate::rest::Rest;
use crate::table::Defined;
use crate::words::{is_iri_or_blank, is_keyword_form, is_same, text_of};
use ld_codes::Code;
use ld_ctx::Ctx;
use ld_rec::{Containers, Stop};
use ld_tree::{Entries, Text, Tree};
use std::alloc::Global;

/// No container.
pub fn no_containers() -> Containers
    ensures { result ≡ no_containers }
{
    Containers {
        graph: false,
        id: false,
        index: false,
        language: false,
        list: false,
        set: false,
        types: false,
    }
}

// Step 13.5: the containers that a reverse property may have.
fn reverse_container(value: Option<&Tree>) -> Option<Containers>
    ensures { result ≡ reverse_container (opened (option_copied value.entry)) }
{
    let mut containers = no_containers();
    match value {
        None => Some(containers),
        Some(Tree::Null) => Some(containers),
        Some(Tree::Text(text)) => {
            if is_same(text, "@set") {
                containers.set = true;
                return Some(containers);
            }
            if is_same(text, "@index") {
                containers.index = true;
                return Some(containers);
            }
            None
        }
        Some(_) => None,
    }
}

// Steps 13.5 to 13.7.
fn reversed(
    alloc: Global,
    made: &mut Ctx,
    defined: &mut Defined,
    rest: &Rest,
    task: Task,
    iri: Text,
    containers: Option<Containers>,
) -> Result<(), Stop>
    ensures gives { Comes (λ _. give (made_of made.new defined.new)) result (reversed (rest_of rest.now) task.term task.previous iri (draft_of task (made_of made.old defined.old)) containers) }
    ensures table { Grows defined.old defined.new }
{
    let Some(containers) = containers else {
        return Err(Stop::Code(Code::InvalidReverseProperty));
    };
    let Task {
        term,
        previous,
        def,
        simple: _,
    } = task;
    let mut def = def;
    def.mapping = Some(iri);
    def.reverse = true;
    def.containers = containers;
    finished(alloc, made, defined, rest, term, previous, def)
}

// Steps 13.4 to 13.7.
fn reversed_to(
    alloc: Global,
    made: &mut Ctx,
    defined: &mut Defined,
    rest: &Rest,
    entries: &Entries<Tree>,
    task: Task,
    iri: Option<Text>,
) -> Result<(), Stop>
    ensures gives { Comes (λ _. give (made_of made.new defined.new)) result (reversed_to (rest_of rest.now) task.term entries.now task.previous iri (draft_of task (made_of made.old defined.old))) }
    ensures table { Grows defined.old defined.new }
{
    let Some(iri) = iri else {
        return Err(Stop::Code(Code::InvalidIriMapping));
    };
    if !is_iri_or_blank(&iri) {
        return Err(Stop::Code(Code::InvalidIriMapping));
    }
    let containers = reverse_container(entries.get("@container"));
    reversed(alloc, made, defined, rest, task, iri, containers)
}

/// Steps 13.4 to 13.7, where the value's own names are defined.
pub fn backed(
    alloc: Global,
    made: &mut Ctx,
    defined: &mut Defined,
    rest: &Rest,
    entries: &Entries<Tree>,
    task: Task,
    value: &Text,
) -> Result<Step, Stop>
    ensures gives { (check : Check) (define : Define) (local : Sorted Tree) → Goes check define (rest_of rest.now) local (made_of made.new defined.new) result (aimed check define (rest_of rest.now) local task entries.now Backward value.now (made_of made.old defined.old)) }
    ensures table { Grows defined.old defined.new }
    ensures size { IfOk result (λ step. weight step ≤ 1) }
{
    let iri = meaning(alloc, made, value)?;
    reversed_to(alloc, made, defined, rest, entries, task, iri)?;
    Ok(Step::Done)
}

// Steps 13.4 to 13.7.
fn first_and_backed(
    alloc: Global,
    made: &mut Ctx,
    local: &Entries<Tree>,
    defined: &mut Defined,
    rest: &Rest,
    entries: &Entries<Tree>,
    task: Task,
    value: &Text,
) -> Result<Step, Stop>
    ensures gives { (check : Check) (define : Define) → Goes check define (rest_of rest.now) local.now (made_of made.new defined.new) result (first_and_backed check define (rest_of rest.now) local.now task entries.now value.now (made_of made.old defined.old)) }
    ensures table { Grows defined.old defined.new }
    ensures size { IfOk result (λ step. weight step ≤ 5) }
{
    let before = first_all(alloc, made, local, defined, value)?;
    match before {
        None => backed(alloc, made, defined, rest, entries, task, value),
        Some(before) => {
            let step = wait_for(alloc, entries, task, Aim::Backward, value, before)?;
            Ok(step)
        }
    }
}

// Steps 13.3 to 13.7.
fn backward_text(
    alloc: Global,
    made: &mut Ctx,
    local: &Entries<Tree>,
    defined: &mut Defined,
    rest: &Rest,
    entries: &Entries<Tree>,
    task: Task,
    value: &Text,
) -> Result<Step, Stop>
    ensures gives { (check : Check) (define : Define) → Goes check define (rest_of rest.now) local.now (made_of made.new defined.new) result (backward_to define (rest_of rest.now) local.now task.term entries.now task.previous (Some value.now) (draft_of task (made_of made.old defined.old))) }
    ensures table { Grows defined.old defined.new }
    ensures size { IfOk result (λ step. weight step ≤ 5) }
{
    if is_keyword_form(value) {
        ignored(alloc, made, defined, &task.term)
    } else {
        first_and_backed(alloc, made, local, defined, rest, entries, task, value)
    }
}

// Steps 13.2 to 13.7.
fn backward_to(
    alloc: Global,
    made: &mut Ctx,
    local: &Entries<Tree>,
    defined: &mut Defined,
    rest: &Rest,
    entries: &Entries<Tree>,
    task: Task,
    value: Option<&Text>,
) -> Result<Step, Stop>
    ensures gives { (check : Check) (define : Define) → Goes check define (rest_of rest.now) local.now (made_of made.new defined.new) result (backward_to define (rest_of rest.now) local.now task.term entries.now task.previous (option_copied value.entry) (draft_of task (made_of made.old defined.old))) }
    ensures table { Grows defined.old defined.new }
    ensures size { IfOk result (λ step. weight step ≤ 5) }
{
    let Some(value) = value else {
        return Err(Stop::Code(Code::InvalidIriMapping));
    };
    backward_text(alloc, made, local, defined, rest, entries, task, value)
}

// Step 13.
fn backward(
    alloc: Global,
    made: &mut Ctx,
    local: &Entries<Tree>,
    defined: &mut Defined,
    rest: &Rest,
    entries: &Entries<Tree>,
    task: Task,
    value: &Tree,
) -> Result<Step, Stop>
    ensures gives { (check : Check) (define : Define) → Goes check define (rest_of rest.now) local.now (made_of made.new defined.new) result (backward define (rest_of rest.now) local.now task.term entries.now task.previous value.now (draft_of task (made_of made.old defined.old))) }
    ensures table { Grows defined.old defined.new }
    ensures size { IfOk result (λ step. weight step ≤ 5) }
{
    if has(entries, "@id") || has(entries, "@nest") {
        return Err(Stop::Code(Code::InvalidReverseProperty));
    }
    backward_to(
        alloc,
        made,
        local,
        defined,
        rest,
        entries,
        task,
        text_of(value),
    )
}

/// Steps 13 to 28.
pub fn either_way(
    alloc: Global,
    made: &mut Ctx,
    local: &Entries<Tree>,
    defined: &mut Defined,
    rest: &Rest,
    entries: &Entries<Tree>,
    task: Task,
) -> Result<Step, Stop>
    ensures gives { (check : Check) (define : Define) → Goes check define (rest_of rest.now) local.now (made_of made.new defined.new) result (either_way check define (rest_of rest.now) local.now task.term task.simple entries.now task.previous (find entries.now (codes "@reverse")) (draft_of task (made_of made.old defined.old))) }
    ensures table { Grows defined.old defined.new }
    ensures size { IfOk result (λ step. weight step ≤ 9) }
{
    match entries.get("@reverse") {
        Some(value) => backward(alloc, made, local, defined, rest, entries, task, value),
        None => forward(alloc, made, local, defined, rest, entries, task),
    }
}
