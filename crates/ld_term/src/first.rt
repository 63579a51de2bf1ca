ghost use Rattle.std.specs.Prelude.{◌≡◌, ◌≤◌, ◌+◌, ◌||◌, IfOk, Some, true, false, is_some};
ghost use Rattle.ld_tree.specs.Names.{Sorted};
ghost use Rattle.ld_tree.specs.declared.tree.Tree.{Tree};
ghost use Rattle.ld_iri.specs.Words.{is_keyword_form};
ghost use Rattle.ld_rec.specs.Words.{is_keyword};
ghost use Rattle.ld_rec.specs.Iris.{iri_of, parts};
ghost use Rattle.ld_rec.specs.Records.{def_of};
ghost use Rattle.ld_ctx.specs.Flat.{flat};
ghost use Rattle.ld_rec.specs.Terms as terms;
ghost use Rattle.ld_rec.specs.Terms.{Made, Check, Define, first_of_form, first_prefix, first_all};
ghost use Rattle.ld_term.specs.Comes.{Same};
ghost use Rattle.ld_term.specs.Waits.{made_of, first_by, first_named, first_and_aimed, from_step};
ghost use Rattle.ld_term.specs.Sizes.{weight, aim_weight};

use crate::half::{Aim, Before, Half, Step, Task, Wait, copy_entries};
use crate::table::{Defined, is_due};
use ld_ctx::{Ctx, View, expand_iri, is_whole, parts};
use ld_iri::{is_keyword, is_keyword_form};
use ld_tree::{Entries, NoMemory, Text, Tree};
use std::alloc::Global;

/// What the value expands to by vocabulary.
pub fn meaning(alloc: Global, made: &Ctx, value: &Text) -> Result<Option<Text>, NoMemory>
    ensures { IfOk result (λ iri. iri ≡ iri_of (flat made.now) value.now false true) }
{
    expand_iri(alloc, made, value.as_str(), false, true)
}

fn is_term(made: &Ctx, name: &Text) -> bool
    ensures { result ≡ is_some (def_of (flat made.now) name.now) }
{
    made.def(name.as_str()).is_some()
}

// 5.2.2, step 6.3: the prefix that is to be defined before a value is expanded that isn't to be defined itself.
fn due_prefix_in(
    alloc: Global,
    made: &Ctx,
    local: &Entries<Tree>,
    defined: &Defined,
    value: &Text,
) -> Result<Option<Text>, NoMemory>
    ensures { IfOk result (λ name. (define : Define) → first_prefix define local.now (parts value.now) (made_of made.now defined.now) ≡ first_named define name (made_of made.now defined.now)) }
{
    let Some((prefix, suffix)) = parts(value.as_str()) else {
        return Ok(None);
    };
    if is_whole(prefix, suffix) {
        return Ok(None);
    }
    if is_due(local, made, defined, prefix) {
        Ok(Some(Text::from_str(alloc, prefix)?))
    } else {
        Ok(None)
    }
}

/// 5.2.2, steps 4 to 6.3.
pub fn due_prefix(
    alloc: Global,
    made: &Ctx,
    local: &Entries<Tree>,
    defined: &Defined,
    value: &Text,
) -> Result<Option<Text>, NoMemory>
    ensures { IfOk result (λ name. (define : Define) → first_of_form define local.now value.now (made_of made.now defined.now) ≡ first_named define name (made_of made.now defined.now)) }
{
    if is_term(made, value) {
        return Ok(None);
    }
    due_prefix_in(alloc, made, local, defined, value)
}

fn is_no_name(value: &Text) -> bool
    ensures { result ≡ (is_keyword value.now || is_keyword_form value.now) }
{
    let value = value.as_str();
    is_keyword(value) || is_keyword_form(value)
}

fn is_due_itself(local: &Entries<Tree>, made: &Ctx, defined: &Defined, value: &Text) -> bool
    ensures { result ≡ terms.is_due local.now value.now (made_of made.now defined.now) }
{
    is_due(local, made, defined, value.as_str())
}

/// 5.2.2, steps 1 to 6.3: what is to be defined before the value is expanded.
pub fn first_all(
    alloc: Global,
    made: &Ctx,
    local: &Entries<Tree>,
    defined: &Defined,
    value: &Text,
) -> Result<Option<Before>, NoMemory>
    ensures { IfOk result (λ before. (define : Define) → Same (first_all define local.now value.now (made_of made.now defined.now)) (first_by define local.now value.now before (made_of made.now defined.now))) }
{
    if is_no_name(value) {
        return Ok(None);
    }
    if is_due_itself(local, made, defined, value) {
        return Ok(Some(Before::Itself));
    }
    match due_prefix(alloc, made, local, defined, value)? {
        None => Ok(None),
        Some(name) => Ok(Some(Before::Prefix(name))),
    }
}

/// The step by which a definition waits for what is to be defined before its value is expanded.
pub fn wait_for(
    alloc: Global,
    entries: &Entries<Tree>,
    task: Task,
    aim: Aim,
    value: &Text,
    before: Before,
) -> Result<Step, NoMemory>
    ensures waits { IfOk result (λ step. (check : Check) (define : Define) (rest : terms.Rest) (local : Sorted Tree) (made : Made) → Same (first_and_aimed check define rest local task entries.now aim value.now (Some before) made) (from_step check define rest local step made)) }
    ensures size { IfOk result (λ step. weight step ≤ aim_weight aim + 3) }
{
    let entries = copy_entries(alloc, entries)?;
    let waits = value.try_copy(alloc)?;
    match before {
        Before::Itself => {
            let name = value.try_copy(alloc)?;
            Ok(Step::Need(
                Half {
                    task,
                    entries,
                    wait: Wait::Value(aim, waits),
                },
                name,
            ))
        }
        Before::Prefix(name) => Ok(Step::Need(
            Half {
                task,
                entries,
                wait: Wait::Prefix(aim, waits),
            },
            name,
        )),
    }
}

/// The same of the term itself, which a definition's mapping has to be.
pub fn wait_for_itself(
    alloc: Global,
    entries: &Entries<Tree>,
    task: Task,
    aim: Aim,
    before: Before,
) -> Result<Step, NoMemory>
    ensures waits { IfOk result (λ step. (check : Check) (define : Define) (rest : terms.Rest) (local : Sorted Tree) (made : Made) → Same (first_and_aimed check define rest local task entries.now aim task.term (Some before) made) (from_step check define rest local step made)) }
    ensures size { IfOk result (λ step. weight step ≤ aim_weight aim + 3) }
{
    let entries = copy_entries(alloc, entries)?;
    let waits = task.term.try_copy(alloc)?;
    match before {
        Before::Itself => {
            let name = task.term.try_copy(alloc)?;
            Ok(Step::Need(
                Half {
                    task,
                    entries,
                    wait: Wait::Value(aim, waits),
                },
                name,
            ))
        }
        Before::Prefix(name) => Ok(Step::Need(
            Half {
                task,
                entries,
                wait: Wait::Prefix(aim, waits),
            },
            name,
        )),
    }
}
