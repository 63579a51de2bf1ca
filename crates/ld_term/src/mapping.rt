ghost use Rattle.std.specs.Prelude.{◌≡◌, ◌≤◌, ◌++◌, Bool, Some, IfOk, option_copied};
ghost use Rattle.ld_tree.specs.Names.{Sorted};
ghost use Rattle.ld_tree.specs.declared.tree.Tree.{Tree};
ghost use Rattle.ld_ctx.specs.Flat.{flat};
ghost use Rattle.ld_ctx.specs.Parts.{texts};
ghost use Rattle.ld_rec.specs.Iris.{parts};
ghost use Rattle.ld_rec.specs.Outcome.{give};
ghost use Rattle.ld_rec.specs.Records.{def_of};
ghost use Rattle.ld_rec.specs.Terms.{Made, Check, Define, mapped, by_vocab, by_meaning, by_term, joined_or};
ghost use Rattle.ld_term.specs.Comes.{Comes};
ghost use Rattle.ld_term.specs.Waits.{made_of, rest_of, draft_of, own_mapping, from_own, own_and_mapped, term_and_mapped, Goes};
ghost use Rattle.ld_term.specs.Sizes.{Grows, weight};

use crate::containers::containers_in;
use crate::ending::ended;
use crate::first::meaning;
use crate::half::{Half, Step, Task, Wait, copy_entries};
use crate::rest::Rest;
use crate::table::{Defined, is_due};
use crate::words::{has_slash, is_iri, is_same};
use ld_codes::Code;
use ld_ctx::{Ctx, View, parts};
use ld_rec::{Def, Stop};
use ld_tree::{Entries, NoMemory, Text, Tree};
use std::alloc::Global;

/// Steps 19 to 28.
pub fn mapped(
    alloc: Global,
    made: &mut Ctx,
    defined: &mut Defined,
    rest: &Rest,
    entries: &Entries<Tree>,
    task: Task,
) -> Result<Step, Stop>
    ensures gives { (check : Check) (define : Define) (local : Sorted Tree) → Goes check define (rest_of rest.now) local (made_of made.new defined.new) result (mapped check (rest_of rest.now) task.term entries.now task.previous (draft_of task (made_of made.old defined.old))) }
    ensures table { Grows defined.old defined.new }
    ensures size { IfOk result (λ step. weight step ≤ 1) }
{
    let Task {
        term,
        previous,
        def,
        simple,
    } = task;
    let def = containers_in(alloc, entries.get("@container"), def)?;
    let task = Task {
        term,
        previous,
        def,
        simple,
    };
    ended(alloc, made, defined, rest, entries, task)
}

fn joined_text(alloc: Global, front: &str, back: &str) -> Result<Text, NoMemory>
    ensures { IfOk result (λ text. text ≡ front.now ++ back.now) }
{
    let mut text = String::with_capacity(alloc, front.len().saturating_add(back.len()))?;
    text.push_str(front)?;
    text.push_str(back)?;
    Ok(Text::from_string(text))
}

// Step 18.
fn by_vocab(alloc: Global, term: &Text, vocab: Option<&str>, def: Def) -> Result<Def, Stop>
    ensures { (made : Made) → Comes (λ d. give (record { def = d; made = made })) result (by_vocab term.now (option_copied vocab.entry) (record { def = def; made = made })) }
{
    match vocab {
        None => Err(Stop::Code(Code::InvalidIriMapping)),
        Some(vocab) => {
            let mut def = def;
            def.mapping = Some(joined_text(alloc, vocab, term.as_str())?);
            Ok(def)
        }
    }
}

// Step 16.2.
fn by_meaning(meaning: Option<Text>, def: Def) -> Result<Def, Stop>
    ensures { (made : Made) → Comes (λ d. give (record { def = d; made = made })) result (by_meaning meaning (record { def = def; made = made })) }
{
    let Some(iri) = meaning else {
        return Err(Stop::Code(Code::InvalidIriMapping));
    };
    if !is_iri(&iri) {
        return Err(Stop::Code(Code::InvalidIriMapping));
    }
    let mut def = def;
    def.mapping = Some(iri);
    Ok(def)
}

// Steps 16 to 18.
fn by_term(alloc: Global, made: &Ctx, term: &Text, def: Def) -> Result<Def, Stop>
    ensures { (table : Sorted Bool) → Comes (λ d. give (record { def = d; made = made_of made.now table })) result (by_term term.now (record { def = def; made = made_of made.now table })) }
{
    if has_slash(term) {
        let meaning = meaning(alloc, made, term)?;
        return by_meaning(meaning, def);
    }
    if is_same(term, "@type") {
        let mut def = def;
        def.mapping = Some(term.try_copy(alloc)?);
        return Ok(def);
    }
    by_vocab(alloc, term, made.vocab(), def)
}

// Steps 16 to 28.
fn term_and_mapped(
    alloc: Global,
    made: &mut Ctx,
    defined: &mut Defined,
    rest: &Rest,
    entries: &Entries<Tree>,
    task: Task,
) -> Result<Step, Stop>
    ensures gives { (check : Check) (define : Define) (local : Sorted Tree) → Goes check define (rest_of rest.now) local (made_of made.new defined.new) result (term_and_mapped check (rest_of rest.now) task entries.now (made_of made.old defined.old)) }
    ensures table { Grows defined.old defined.new }
    ensures size { IfOk result (λ step. weight step ≤ 1) }
{
    let Task {
        term,
        previous,
        def,
        simple,
    } = task;
    let def = by_term(alloc, made, &term, def)?;
    let task = Task {
        term,
        previous,
        def,
        simple,
    };
    mapped(alloc, made, defined, rest, entries, task)
}

fn parts_of(term: &Text) -> Option<(&str, &str)>
    ensures { texts result ≡ parts term.now }
{
    parts(term.as_str())
}

// Steps 15.2 and 15.3.
fn joined_or(alloc: Global, term: &Text, suffix: &str, def: Option<&Def>) -> Result<Text, NoMemory>
    ensures { IfOk result (λ iri. iri ≡ joined_or term.now suffix.now (option_copied def.entry)) }
{
    match def {
        None => term.try_copy(alloc),
        Some(def) => match &def.mapping {
            Some(iri) => joined_text(alloc, iri.as_str(), suffix),
            None => term.try_copy(alloc),
        },
    }
}

fn own_mapping(alloc: Global, made: &Ctx, term: &Text) -> Result<Text, NoMemory>
    ensures { IfOk result (λ iri. iri ≡ own_mapping (flat made.now) term.now (parts term.now)) }
{
    match parts_of(term) {
        None => term.try_copy(alloc),
        Some((prefix, suffix)) => joined_or(alloc, term, suffix, made.def(prefix)),
    }
}

/// Steps 15.2, 15.3 and 19 to 28.
pub fn from_own(
    alloc: Global,
    made: &mut Ctx,
    defined: &mut Defined,
    rest: &Rest,
    entries: &Entries<Tree>,
    task: Task,
) -> Result<Step, Stop>
    ensures gives { (check : Check) (define : Define) (local : Sorted Tree) → Goes check define (rest_of rest.now) local (made_of made.new defined.new) result (from_own check (rest_of rest.now) task entries.now (made_of made.old defined.old)) }
    ensures table { Grows defined.old defined.new }
    ensures size { IfOk result (λ step. weight step ≤ 1) }
{
    let mut task = task;
    let iri = own_mapping(alloc, made, &task.term)?;
    task.def.mapping = Some(iri);
    mapped(alloc, made, defined, rest, entries, task)
}

/// Steps 15 to 28.
pub fn own_and_mapped(
    alloc: Global,
    made: &mut Ctx,
    local: &Entries<Tree>,
    defined: &mut Defined,
    rest: &Rest,
    entries: &Entries<Tree>,
    task: Task,
) -> Result<Step, Stop>
    ensures gives { (check : Check) (define : Define) → Goes check define (rest_of rest.now) local.now (made_of made.new defined.new) result (own_and_mapped check define (rest_of rest.now) local.now task entries.now (made_of made.old defined.old)) }
    ensures table { Grows defined.old defined.new }
    ensures size { IfOk result (λ step. weight step ≤ 3) }
{
    match parts_of(&task.term) {
        None => term_and_mapped(alloc, made, defined, rest, entries, task),
        Some((prefix, _)) => {
            if is_due(local, made, defined, prefix) {
                let name = Text::from_str(alloc, prefix)?;
                let entries = copy_entries(alloc, entries)?;
                return Ok(Step::Need(
                    Half {
                        task,
                        entries,
                        wait: Wait::Own,
                    },
                    name,
                ));
            }
            from_own(alloc, made, defined, rest, entries, task)
        }
    }
}
