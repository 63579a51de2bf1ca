ghost use Rattle.std.specs.Prelude.{◌≡◌, ◌≤◌, IfOk, option_copied};
ghost use Rattle.std.specs.List.{list_any};
ghost use Rattle.ld_rec.specs.Iris.{is_colon};
ghost use Rattle.ld_rec.specs.Outcome.{give};
ghost use Rattle.ld_rec.specs.Words.{is_among, names_are_among, lowered, opened, has};
ghost use Rattle.ld_rec.specs.Terms.{Made, Check, Define, ended, kept_or, finished, entry_names, only_known, has_slash, has_colon_or_slash, prefixed, prefix_in, without_direction, without_nest, without_index, language_in, language_unless_typed};
ghost use Rattle.ld_term.specs.Comes.{Comes};
ghost use Rattle.ld_term.specs.Waits.{made_of, rest_of, draft_of, spoken, unnested, flagged, closed, closed_and_put, from_scoped, Goes};
ghost use Rattle.ld_tree.specs.Names.{Sorted};
ghost use Rattle.ld_tree.specs.declared.tree.Tree.{Tree};
ghost use Rattle.ld_term.specs.Sizes.{Grows, weight};

use crate::half::{Ready, Step, Task, copy_entries};
use crate::rest::Rest;
use crate::table::{Defined, put_def};
use ld_codes::{Code, Keyword, Own};
use ld_ctx::{Ctx, is_keyword_mapping};
use ld_rec::{Def, Stop};
use ld_tree::{Entries, NoMemory, Text, Tree};
use std::alloc::Global;

// Step 27.
fn kept_or(previous: Option<Def>, def: Def) -> Result<Def, Stop>
    ensures { Comes give result (kept_or previous def) }
{
    match previous {
        None => Ok(def),
        Some(previous) => {
            if !previous.protected {
                Ok(def)
            } else if previous.is_same(&def) {
                Ok(previous)
            } else {
                Err(Stop::Code(Code::ProtectedTermRedefinition))
            }
        }
    }
}

/// Steps 27 and 28.
pub fn finished(
    alloc: Global,
    made: &mut Ctx,
    defined: &mut Defined,
    rest: &Rest,
    term: Text,
    previous: Option<Def>,
    def: Def,
) -> Result<(), Stop>
    ensures gives { Comes (λ _. give (made_of made.new defined.new)) result (finished (rest_of rest.now) term previous (record { def = def; made = made_of made.old defined.old })) }
    ensures table { Grows defined.old defined.new }
{
    if rest.over {
        put_def(alloc, made, defined, term, def)?;
        return Ok(());
    }
    let def = kept_or(previous, def)?;
    put_def(alloc, made, defined, term, def)?;
    Ok(())
}

fn is_entry_name(name: &str) -> bool
    ensures { result ≡ is_among entry_names name.now }
{
    name == "@id"
        || name == "@reverse"
        || name == "@container"
        || name == "@context"
        || name == "@direction"
        || name == "@index"
        || name == "@language"
        || name == "@nest"
        || name == "@prefix"
        || name == "@protected"
        || name == "@type"
}

fn has_only_entry_names(entries: &Entries<Tree>) -> bool
    ensures { result ≡ names_are_among entry_names entries.now }
{
    for (name, _) in entries.as_slice() {
        if !is_entry_name(name.as_str()) {
            return false;
        }
    }
    true
}

// Step 26.
fn only_known(entries: &Entries<Tree>, def: Def) -> Result<Def, Stop>
    ensures { (made : Made) → Comes (λ d. give (record { def = d; made = made })) result (only_known entries.now (record { def = def; made = made })) }
{
    if has_only_entry_names(entries) {
        Ok(def)
    } else {
        Err(Stop::Code(Code::InvalidTermDefinition))
    }
}

/// Whether the text has a slash.
pub fn has_slash(text: &str) -> bool
    ensures { result ≡ has_slash text.now }
{
    text.as_bytes().iter().any(|byte| *byte == b'/')
}

fn has_colon(text: &str) -> bool
    ensures { result ≡ list_any is_colon text.now }
{
    text.as_bytes().iter().any(|byte| *byte == b':')
}

/// Whether the text has a colon or a slash.
pub fn has_colon_or_slash(text: &str) -> bool
    ensures { result ≡ has_colon_or_slash text.now }
{
    has_colon(text) || has_slash(text)
}

// Step 25, where the term may have a prefix flag.
fn prefixed(is_prefix: bool, def: Def) -> Result<Def, Stop>
    ensures { (made : Made) → Comes (λ d. give (record { def = d; made = made })) result (prefixed is_prefix (record { def = def; made = made })) }
{
    if is_prefix && is_keyword_mapping(&def.mapping) {
        return Err(Stop::Code(Code::InvalidTermDefinition));
    }
    let mut def = def;
    def.prefix = is_prefix;
    Ok(def)
}

// Step 25.
fn prefix_in(term: &str, value: Option<&Tree>, def: Def) -> Result<Def, Stop>
    ensures { (made : Made) → Comes (λ d. give (record { def = d; made = made })) result (prefix_in term.now (opened (option_copied value.entry)) (record { def = def; made = made })) }
{
    match value {
        None => Ok(def),
        Some(Tree::Bool(is_prefix)) => {
            if has_colon_or_slash(term) {
                Err(Stop::Code(Code::InvalidTermDefinition))
            } else {
                prefixed(*is_prefix, def)
            }
        }
        Some(_) => {
            if has_colon_or_slash(term) {
                Err(Stop::Code(Code::InvalidTermDefinition))
            } else {
                Err(Stop::Code(Code::InvalidPrefixValue))
            }
        }
    }
}

// Step 23: outside of this profile.
fn without_direction(entries: &Entries<Tree>, def: Def) -> Result<Def, Stop>
    ensures { (made : Made) → Comes (λ d. give (record { def = d; made = made })) result (without_direction entries.now (record { def = def; made = made })) }
{
    if has(entries, "@direction") {
        Err(Stop::Own(Own::OutsideProfile(Keyword::Direction)))
    } else {
        Ok(def)
    }
}

// Step 24: outside of this profile.
fn without_nest(entries: &Entries<Tree>, def: Def) -> Result<Def, Stop>
    ensures { (made : Made) → Comes (λ d. give (record { def = d; made = made })) result (without_nest entries.now (record { def = def; made = made })) }
{
    if has(entries, "@nest") {
        Err(Stop::Own(Own::OutsideProfile(Keyword::Nest)))
    } else {
        Ok(def)
    }
}

/// Step 20: outside of this profile.
pub fn without_index(entries: &Entries<Tree>, def: Def) -> Result<Def, Stop>
    ensures { (made : Made) → Comes (λ d. give (record { def = d; made = made })) result (without_index entries.now (record { def = def; made = made })) }
{
    if has(entries, "@index") {
        Err(Stop::Own(Own::OutsideProfile(Keyword::Index)))
    } else {
        Ok(def)
    }
}

/// Whether the map has the name.
pub fn has(entries: &Entries<Tree>, name: &str) -> bool
    ensures { result ≡ has entries.now name.now }
{
    entries.get(name).is_some()
}

// A language tag in lower case.
fn lowered(alloc: Global, tag: &str) -> Result<Text, NoMemory>
    ensures { IfOk result (λ text. text ≡ lowered tag.now) }
{
    Ok(Text::from_string(tag.to_ascii_lowercase(alloc)?))
}

// Step 22, where there is no type mapping.
fn language_in(alloc: Global, value: Option<&Tree>, def: Def) -> Result<Def, Stop>
    ensures { (made : Made) → Comes (λ d. give (record { def = d; made = made })) result (language_in (opened (option_copied value.entry)) (record { def = def; made = made })) }
{
    let mut def = def;
    match value {
        None => Ok(def),
        Some(Tree::Null) => {
            def.language = Some(None);
            Ok(def)
        }
        Some(Tree::Text(tag)) => {
            def.language = Some(Some(lowered(alloc, tag.as_str())?));
            Ok(def)
        }
        Some(_) => Err(Stop::Code(Code::InvalidLanguageMapping)),
    }
}

// Step 22.
fn language_unless_typed(alloc: Global, entries: &Entries<Tree>, def: Def) -> Result<Def, Stop>
    ensures { (made : Made) → Comes (λ d. give (record { def = d; made = made })) result (language_unless_typed entries.now (record { def = def; made = made })) }
{
    if has(entries, "@type") {
        Ok(def)
    } else {
        language_in(alloc, entries.get("@language"), def)
    }
}

// Steps 22 and 23.
fn spoken(alloc: Global, entries: &Entries<Tree>, def: Def) -> Result<Def, Stop>
    ensures { (made : Made) → Comes (λ d. give (record { def = d; made = made })) result (spoken entries.now (record { def = def; made = made })) }
{
    let def = language_unless_typed(alloc, entries, def)?;
    without_direction(entries, def)
}

// Steps 22 to 24.
fn unnested(alloc: Global, entries: &Entries<Tree>, def: Def) -> Result<Def, Stop>
    ensures { (made : Made) → Comes (λ d. give (record { def = d; made = made })) result (unnested entries.now (record { def = def; made = made })) }
{
    let def = spoken(alloc, entries, def)?;
    without_nest(entries, def)
}

// Steps 22 to 25.
fn flagged(alloc: Global, term: &Text, entries: &Entries<Tree>, def: Def) -> Result<Def, Stop>
    ensures { (made : Made) → Comes (λ d. give (record { def = d; made = made })) result (flagged term.now entries.now (record { def = def; made = made })) }
{
    let def = unnested(alloc, entries, def)?;
    prefix_in(term.as_str(), entries.get("@prefix"), def)
}

// Steps 22 to 26.
fn closed(alloc: Global, term: &Text, entries: &Entries<Tree>, def: Def) -> Result<Def, Stop>
    ensures { (made : Made) → Comes (λ d. give (record { def = d; made = made })) result (closed term.now entries.now (record { def = def; made = made })) }
{
    let def = flagged(alloc, term, entries, def)?;
    only_known(entries, def)
}

/// Steps 22 to 28.
pub fn put_closed(
    alloc: Global,
    made: &mut Ctx,
    defined: &mut Defined,
    rest: &Rest,
    entries: &Entries<Tree>,
    task: Task,
) -> Result<(), Stop>
    ensures gives { Comes (λ _. give (made_of made.new defined.new)) result (closed_and_put (rest_of rest.now) task.term entries.now task.previous (draft_of task (made_of made.old defined.old))) }
    ensures table { Grows defined.old defined.new }
{
    let Task {
        term,
        previous,
        def,
        simple: _,
    } = task;
    let def = closed(alloc, &term, entries, def)?;
    finished(alloc, made, defined, rest, term, previous, def)
}

// Steps 21 to 28.
fn scoped_or_put(
    alloc: Global,
    made: &mut Ctx,
    defined: &mut Defined,
    rest: &Rest,
    entries: &Entries<Tree>,
    task: Task,
) -> Result<Step, Stop>
    ensures gives { (check : Check) (define : Define) (local : Sorted Tree) → Goes check define (rest_of rest.now) local (made_of made.new defined.new) result (from_scoped check (rest_of rest.now) task.term entries.now task.previous (draft_of task (made_of made.old defined.old))) }
    ensures table { Grows defined.old defined.new }
    ensures size { IfOk result (λ step. weight step ≤ 1) }
{
    match entries.get("@context") {
        None => {
            put_closed(alloc, made, defined, rest, entries, task)?;
            Ok(Step::Done)
        }
        Some(scoped) => {
            let entries = copy_entries(alloc, entries)?;
            let scoped = scoped.try_copy(alloc)?;
            Ok(Step::Check(Ready {
                task,
                entries,
                scoped,
            }))
        }
    }
}

/// Steps 20 to 28.
pub fn ended(
    alloc: Global,
    made: &mut Ctx,
    defined: &mut Defined,
    rest: &Rest,
    entries: &Entries<Tree>,
    task: Task,
) -> Result<Step, Stop>
    ensures gives { (check : Check) (define : Define) (local : Sorted Tree) → Goes check define (rest_of rest.now) local (made_of made.new defined.new) result (ended check (rest_of rest.now) task.term entries.now task.previous (draft_of task (made_of made.old defined.old))) }
    ensures table { Grows defined.old defined.new }
    ensures size { IfOk result (λ step. weight step ≤ 1) }
{
    let Task {
        term,
        previous,
        def,
        simple,
    } = task;
    let def = without_index(entries, def)?;
    let task = Task {
        term,
        previous,
        def,
        simple,
    };
    scoped_or_put(alloc, made, defined, rest, entries, task)
}
