ghost use Rattle.std.specs.Prelude.{◌≡◌, ◌≤◌, Bool, Some, None, IfOk, option_copied, codes};
ghost use Rattle.ld_tree.specs.declared.tree.Tree.{Tree, out-Tree};
ghost use Rattle.ld_tree.specs.Names.{Sorted};
ghost use Rattle.ld_tree.specs.Maps.{find, put as with_put, empty};
ghost use Rattle.ld_rec.specs.Outcome.{give};
ghost use Rattle.ld_rec.specs.Records.{new_def};
ghost use Rattle.ld_rec.specs.Words.{opened};
ghost use Rattle.ld_rec.specs.Terms.{Check, Define, with_type, meaning_in, protected_in, drafted, by_value};
ghost use Rattle.ld_term.specs.declared.half.Aim.TheVariants.{Typed};
ghost use Rattle.ld_term.specs.Comes.{Comes};
ghost use Rattle.ld_term.specs.Waits.{made_of, rest_of, draft_of, aimed, first_and_typed, type_and_rest, Goes};
ghost use Rattle.ld_term.specs.Sizes.{Grows, weight};

use crate::first::{first_all, meaning, wait_for};
use crate::half::{Aim, Step, Task};
use crate::rest::Rest;
use crate::reverse::{either_way, no_containers};
use crate::table::Defined;
use crate::words::is_type_mapping;
use ld_codes::Code;
use ld_ctx::Ctx;
use ld_rec::{Def, Stop};
use ld_tree::{Entries, NoMemory, Text, Tree};
use std::alloc::Global;

// Steps 12.2 to 12.5, where the value's own names are defined.
fn with_type(alloc: Global, made: &Ctx, value: &Text, def: Def) -> Result<Def, Stop>
    ensures { (table : Sorted Bool) → Comes (λ d. give (record { def = d; made = made_of made.now table })) result (with_type (meaning_in (made_of made.now table) value.now) (record { def = def; made = made_of made.now table })) }
{
    let meaning = meaning(alloc, made, value)?;
    let Some(iri) = meaning else {
        return Err(Stop::Code(Code::InvalidTypeMapping));
    };
    if !is_type_mapping(&iri) {
        return Err(Stop::Code(Code::InvalidTypeMapping));
    }
    let mut def = def;
    def.typed = Some(iri);
    Ok(def)
}

/// Steps 12.2 to 28, where the value's own names are defined.
pub fn typed(
    alloc: Global,
    made: &mut Ctx,
    local: &Entries<Tree>,
    defined: &mut Defined,
    rest: &Rest,
    entries: &Entries<Tree>,
    task: Task,
    value: &Text,
) -> Result<Step, Stop>
    ensures gives { (check : Check) (define : Define) → Goes check define (rest_of rest.now) local.now (made_of made.new defined.new) result (aimed check define (rest_of rest.now) local.now task entries.now Typed value.now (made_of made.old defined.old)) }
    ensures table { Grows defined.old defined.new }
    ensures size { IfOk result (λ step. weight step ≤ 9) }
{
    let Task {
        term,
        previous,
        def,
        simple,
    } = task;
    let def = with_type(alloc, made, value, def)?;
    let task = Task {
        term,
        previous,
        def,
        simple,
    };
    either_way(alloc, made, local, defined, rest, entries, task)
}

// Steps 12.2 to 28.
fn first_and_typed(
    alloc: Global,
    made: &mut Ctx,
    local: &Entries<Tree>,
    defined: &mut Defined,
    rest: &Rest,
    entries: &Entries<Tree>,
    task: Task,
    value: &Text,
) -> Result<Step, Stop>
    ensures gives { (check : Check) (define : Define) → Goes check define (rest_of rest.now) local.now (made_of made.new defined.new) result (first_and_typed check define (rest_of rest.now) local.now task entries.now value.now (made_of made.old defined.old)) }
    ensures table { Grows defined.old defined.new }
    ensures size { IfOk result (λ step. weight step ≤ 13) }
{
    let before = first_all(alloc, made, local, defined, value)?;
    match before {
        None => typed(alloc, made, local, defined, rest, entries, task, value),
        Some(before) => {
            let step = wait_for(alloc, entries, task, Aim::Typed, value, before)?;
            Ok(step)
        }
    }
}

// Steps 13 to 28, of a term without a type mapping.
fn untyped(
    alloc: Global,
    made: &mut Ctx,
    local: &Entries<Tree>,
    defined: &mut Defined,
    rest: &Rest,
    entries: &Entries<Tree>,
    task: Task,
) -> Result<Step, Stop>
    ensures gives { (check : Check) (define : Define) → Goes check define (rest_of rest.now) local.now (made_of made.new defined.new) result (type_and_rest check define (rest_of rest.now) local.now task entries.now None (made_of made.old defined.old)) }
    ensures table { Grows defined.old defined.new }
    ensures size { IfOk result (λ step. weight step ≤ 9) }
{
    either_way(alloc, made, local, defined, rest, entries, task)
}

// Steps 12 to 28, of a term with a type mapping.
fn typed_by(
    alloc: Global,
    made: &mut Ctx,
    local: &Entries<Tree>,
    defined: &mut Defined,
    rest: &Rest,
    entries: &Entries<Tree>,
    task: Task,
    value: &Tree,
) -> Result<Step, Stop>
    ensures gives { (check : Check) (define : Define) → Goes check define (rest_of rest.now) local.now (made_of made.new defined.new) result (type_and_rest check define (rest_of rest.now) local.now task entries.now (Some (out-Tree value.now)) (made_of made.old defined.old)) }
    ensures table { Grows defined.old defined.new }
    ensures size { IfOk result (λ step. weight step ≤ 13) }
{
    match value {
        Tree::Text(value) => first_and_typed(
            alloc, made, local, defined, rest, entries, task, value,
        ),
        _ => Err(Stop::Code(Code::InvalidTypeMapping)),
    }
}

// Steps 12 to 28, by the value.
fn type_and_rest(
    alloc: Global,
    made: &mut Ctx,
    local: &Entries<Tree>,
    defined: &mut Defined,
    rest: &Rest,
    entries: &Entries<Tree>,
    task: Task,
    value: Option<&Tree>,
) -> Result<Step, Stop>
    ensures gives { (check : Check) (define : Define) → Goes check define (rest_of rest.now) local.now (made_of made.new defined.new) result (type_and_rest check define (rest_of rest.now) local.now task entries.now (opened (option_copied value.entry)) (made_of made.old defined.old)) }
    ensures table { Grows defined.old defined.new }
    ensures size { IfOk result (λ step. weight step ≤ 13) }
{
    match value {
        None => untyped(alloc, made, local, defined, rest, entries, task),
        Some(value) => typed_by(alloc, made, local, defined, rest, entries, task, value),
    }
}

// Steps 12 to 28.
fn typed_entries(
    alloc: Global,
    made: &mut Ctx,
    local: &Entries<Tree>,
    defined: &mut Defined,
    rest: &Rest,
    entries: &Entries<Tree>,
    task: Task,
) -> Result<Step, Stop>
    ensures gives { (check : Check) (define : Define) → Goes check define (rest_of rest.now) local.now (made_of made.new defined.new) result (type_and_rest check define (rest_of rest.now) local.now task entries.now (opened (find entries.now (codes "@type"))) (made_of made.old defined.old)) }
    ensures table { Grows defined.old defined.new }
    ensures size { IfOk result (λ step. weight step ≤ 13) }
{
    type_and_rest(
        alloc,
        made,
        local,
        defined,
        rest,
        entries,
        task,
        entries.get("@type"),
    )
}

// Step 11, by the value.
fn protected_in(protected: bool, value: Option<&Tree>) -> Result<bool, Stop>
    ensures { Comes give result (protected_in protected (opened (option_copied value.entry))) }
{
    match value {
        None => Ok(protected),
        Some(Tree::Bool(own)) => Ok(*own),
        Some(_) => Err(Stop::Code(Code::InvalidProtectedValue)),
    }
}

// Step 11.
fn own_protected(protected: bool, entries: &Entries<Tree>) -> Result<bool, Stop>
    ensures { Comes give result (protected_in protected (opened (find entries.now (codes "@protected")))) }
{
    protected_in(protected, entries.get("@protected"))
}

// Step 10: a new term definition.
fn new_def(protected: bool) -> Def
    ensures { result ≡ new_def protected }
{
    Def {
        mapping: None,
        prefix: false,
        protected,
        reverse: false,
        typed: None,
        language: None,
        direction: None,
        containers: no_containers(),
        scoped: None,
        scoped_base: None,
    }
}

fn new_task(term: Text, simple: bool, previous: Option<Def>, protected: bool) -> Task
    ensures { result ≡ record { term = term; simple = simple; previous = previous; def = new_def protected } }
{
    Task {
        term,
        simple,
        previous,
        def: new_def(protected),
    }
}

// Steps 10 to 28.
fn drafted(
    alloc: Global,
    made: &mut Ctx,
    local: &Entries<Tree>,
    defined: &mut Defined,
    rest: &Rest,
    entries: &Entries<Tree>,
    term: Text,
    simple: bool,
    previous: Option<Def>,
) -> Result<Step, Stop>
    ensures gives { (check : Check) (define : Define) → Goes check define (rest_of rest.now) local.now (made_of made.new defined.new) result (drafted check define (rest_of rest.now) local.now term simple entries.now previous (made_of made.old defined.old)) }
    ensures table { Grows defined.old defined.new }
    ensures size { IfOk result (λ step. weight step ≤ 13) }
{
    let protected = own_protected(rest.protected, entries)?;
    let task = new_task(term, simple, previous, protected);
    typed_entries(alloc, made, local, defined, rest, entries, task)
}

fn new_entries(alloc: Global) -> Entries<Tree>
    ensures { result ≡ empty }
{
    Entries::new(alloc)
}

// Steps 7 and 8: what stands for a value that is no map.
fn only_id(alloc: Global, value: Tree) -> Result<Entries<Tree>, NoMemory>
    ensures { IfOk result (λ entries. entries ≡ with_put empty (codes "@id") value) }
{
    let name = Text::from_str(alloc, "@id")?;
    let mut entries = new_entries(alloc);
    match entries.put(name, value) {
        Ok(_) => Ok(entries),
        Err((_, _, e)) => Err(e),
    }
}

/// Steps 7 to 28.
pub fn by_value(
    alloc: Global,
    made: &mut Ctx,
    local: &Entries<Tree>,
    defined: &mut Defined,
    rest: &Rest,
    term: Text,
    value: &Tree,
    previous: Option<Def>,
) -> Result<Step, Stop>
    ensures gives { (check : Check) (define : Define) → Goes check define (rest_of rest.now) local.now (made_of made.new defined.new) result (by_value check define (rest_of rest.now) local.now term (out-Tree value.now) previous (made_of made.old defined.old)) }
    ensures table { Grows defined.old defined.new }
    ensures size { IfOk result (λ step. weight step ≤ 13) }
{
    match value {
        Tree::Null => {
            let entries = only_id(alloc, Tree::Null)?;
            drafted(
                alloc, made, local, defined, rest, &entries, term, false, previous,
            )
        }
        Tree::Text(text) => {
            let entries = only_id(alloc, Tree::Text(text.try_copy(alloc)?))?;
            drafted(
                alloc, made, local, defined, rest, &entries, term, true, previous,
            )
        }
        Tree::Map(entries) => drafted(
            alloc, made, local, defined, rest, entries, term, false, previous,
        ),
        _ => Err(Stop::Code(Code::InvalidTermDefinition)),
    }
}
