ghost use Rattle.std.specs.Prelude.{◌≡◌, ◌≤◌, ◌+◌, ◌-◌, ◌^◌, ◌++◌, ◌∷◌, [], min, true, false, IfOk, OnOk, Some, option_copied};
ghost use Rattle.ld_tree.specs.Maps.{empty};
ghost use Rattle.ld_tree.specs.declared.tree.Tree.{out-Tree};
ghost use Rattle.ld_tree.specs.declared.tree.Tree.TheOpen.{Tree-F};
ghost use Rattle.ld_ctx.specs.Asks.{asked};
ghost use Rattle.ld_ctx.specs.Flat.{flat};
ghost use Rattle.ld_rec.specs.Outcome.{GivesAs, each, give};
ghost use Rattle.ld_rec.specs.Processing.{Again, processed, processed_in, process_step, item_step, by_item, against, loadable, by_remote, dereferenced, by_map, import_in, by_import, by_entries, terms_in, check_by, unless_keyword, context_keywords};
ghost use Rattle.ld_rec.specs.Words.{is_among, items_of};
ghost use Rattle.ld_term.specs.Comes.{Comes};
ghost use Rattle.ld_term.specs.Runs.{Told};
ghost use Rattle.ld_term.specs.Waits.{made_of, rest_of};
ghost use Rattle.ld_context.specs.Calls.{invocation, item_ask, progress_of, with_import};
ghost use Rattle.ld_context.specs.Counts.{UnlessNoMemory};
ghost use Rattle.ld_context.specs.Starts.{term_outcome};
ghost use Rattle.ld_context.specs.Tells.{Tells, grown, tallied};
ghost use Rattle.ld_context.specs.Trials.{own_entries};

use crate::import::imported_from;
use crate::inputs::{Call, Inputs, Progress, copy_iri, copy_names};
use crate::keywords::{keywords_in, protected_in, version_in};
use crate::null::{begun, first_base_of, is_propagated, nullified};
use crate::remote::{base_of, context_in, is_among, loadable, looked};
use crate::runs::{Runs, count_one};
use crate::term::{go_on, start};
use crate::trial::{former_of, own_entries, undone};
use ld_codes::{Code, Own};
use ld_ctx::{Ask, Ctx, Names, Stock, View};
use ld_rec::{Doc, Stop};
use ld_term::{Defined, Next, Rest, scoped_stop};
use ld_tree::{Entries, Iri, NameMap, NoMemory, Text, Tree};
use std::alloc::Global;
use std::{mem, slice};

// One more than the levels that invocations may lie within one another.
const LEVELS: u32 = 33;

// How many remote contexts may be processed within one another and beside.
const REMOTE_LIMIT: usize = 16;

/// What an invocation gives, with so many levels left.
#[cycle(process)]
pub fn process_in(
    alloc: Global,
    stock: &Stock,
    runs: &mut Runs,
    active: Ctx,
    local: &Tree,
    remote: Names,
    inputs: Inputs,
    levels: u32,
) -> Result<Ctx, Stop>
    requires { levels ≡ 33 - inputs.depth }
    ensures { Tells flat runs.new result (tallied runs.old ((processed_in levels (invocation inputs remote (flat active) local.now)).run stock.now)) }
{
    count_one(runs);
    if levels == 0 {
        return Err(Stop::Own(Own::NestingLimit));
    }
    process_step(
        alloc,
        stock,
        runs,
        active,
        local,
        remote,
        inputs,
        levels - 1,
    )
}

// What is processed one after the other: the items of a list, or else the local context alone.
fn items_of(local: &Tree) -> &[Tree]
    ensures { result.now ≡ items_of local.now }
{
    match local {
        Tree::List(items) => items.as_slice(),
        _ => slice::from_ref(local),
    }
}

// Steps 1 to 6.
#[cycle(process)]
fn process_step(
    alloc: Global,
    stock: &Stock,
    runs: &mut Runs,
    active: Ctx,
    local: &Tree,
    remote: Names,
    inputs: Inputs,
    levels: u32,
) -> Result<Ctx, Stop>
    requires { levels + inputs.depth ≡ 32 }
    ensures { Tells flat runs.new result (tallied runs.old ((process_step (processed_in levels) (invocation inputs remote (flat active) local.now)).run stock.now)) }
{
    let first_base = first_base_of(alloc, &active)?;
    let propagate = is_propagated(inputs.propagate, local);
    let call = Call {
        first_base,
        inputs: Inputs {
            propagate,
            ..inputs
        },
    };
    let ctx = begun(alloc, propagate, active)?;
    let progress = Progress { ctx, remote };
    match each_item(alloc, stock, runs, progress, items_of(local), &call, levels) {
        Ok(progress) => Ok(progress.ctx),
        Err(e) => Err(e),
    }
}

// Steps 4 and 5.
#[cycle(process)]
fn each_item(
    alloc: Global,
    stock: &Stock,
    runs: &mut Runs,
    progress: Progress,
    items: &[Tree],
    call: &Call,
    levels: u32,
) -> Result<Progress, Stop>
    requires { levels + call.now.inputs.depth ≡ 32 }
    ensures { Tells progress_of runs.new result (tallied runs.old ((each (item_step (processed_in levels) (item_ask call.now) call.now.inputs.propagate) items.now (progress_of progress)).run stock.now)) }
{
    let mut progress = progress;
    for item in items {
        match item_step(alloc, stock, runs, progress, item, call, levels) {
            Ok(next) => progress = next,
            Err(e) => return Err(e),
        }
    }
    Ok(progress)
}

// Steps 5.1 to 5.4.
#[cycle(process)]
fn item_step(
    alloc: Global,
    stock: &Stock,
    runs: &mut Runs,
    progress: Progress,
    item: &Tree,
    call: &Call,
    levels: u32,
) -> Result<Progress, Stop>
    requires { levels + call.now.inputs.depth ≡ 32 }
    ensures { Tells progress_of runs.new result (tallied runs.old ((item_step (processed_in levels) (item_ask call.now) call.now.inputs.propagate item.now (progress_of progress)).run stock.now)) }
{
    match item {
        Tree::Null => null_item(alloc, progress, call),
        Tree::Text(text) => by_text(alloc, stock, runs, progress, text, call, levels),
        Tree::Map(entries) => by_map(alloc, stock, runs, progress, entries, call, levels),
        _ => Err(Stop::Code(Code::InvalidLocalContext)),
    }
}

// Step 5.1.
fn null_item(alloc: Global, progress: Progress, call: &Call) -> Result<Progress, Stop>
    ensures { (again : Again) → Comes (λ p. give (progress_of p)) result (by_item again (item_ask call.now) call.now.inputs.propagate Tree-F.Null (progress_of progress)) }
{
    let Progress { ctx, remote } = progress;
    let ctx = nullified(
        alloc,
        &call.first_base,
        call.inputs.over,
        call.inputs.propagate,
        ctx,
    )?;
    Ok(Progress { ctx, remote })
}

// Step 5.2.
#[cycle(process)]
fn by_text(
    alloc: Global,
    stock: &Stock,
    runs: &mut Runs,
    progress: Progress,
    text: &Text,
    call: &Call,
    levels: u32,
) -> Result<Progress, Stop>
    requires { levels + call.now.inputs.depth ≡ 32 }
    ensures { Tells progress_of runs.new result (tallied runs.old ((by_remote (processed_in levels) (item_ask call.now) (progress_of progress) (loadable (against call.now.inputs.base text.now))).run stock.now)) }
{
    match loadable(alloc, &call.inputs.base, text)? {
        None => Err(Stop::Code(Code::LoadingDocumentFailed)),
        Some(iri) => by_iri(alloc, stock, runs, progress, iri, call, levels),
    }
}

// Steps 5.2.2 to 5.2.6.
#[cycle(process)]
fn by_iri(
    alloc: Global,
    stock: &Stock,
    runs: &mut Runs,
    progress: Progress,
    iri: Iri,
    call: &Call,
    levels: u32,
) -> Result<Progress, Stop>
    requires { levels + call.now.inputs.depth ≡ 32 }
    ensures { Tells progress_of runs.new result (tallied runs.old ((by_remote (processed_in levels) (item_ask call.now) (progress_of progress) (Some iri)).run stock.now)) }
{
    if !call.inputs.validate && is_among(&progress.remote, &iri) {
        return Ok(progress);
    }
    if REMOTE_LIMIT <= progress.remote.as_slice().len() {
        return Err(Stop::Code(Code::ContextOverflow));
    }
    let progress = with_remote(alloc, progress, &iri)?;
    match looked(alloc, stock, runs, &iri)? {
        None => Err(Stop::Missing(iri)),
        Some(doc) => dereferenced(alloc, stock, runs, progress, doc, call, levels),
    }
}

fn with_remote(alloc: Global, progress: Progress, iri: &Iri) -> Result<Progress, NoMemory>
    ensures { IfOk result (λ p. progress_of p ≡ record (progress_of progress) { remote = progress.remote ++ iri.now ∷ [] }) }
{
    let Progress { ctx, remote } = progress;
    let mut remote = remote;
    match remote.push(iri.try_copy(alloc)?) {
        Ok(()) => Ok(Progress { ctx, remote }),
        Err((_, e)) => Err(e),
    }
}

// Steps 5.2.5 and 5.2.6.
#[cycle(process)]
fn dereferenced(
    alloc: Global,
    stock: &Stock,
    runs: &mut Runs,
    progress: Progress,
    doc: &Doc,
    call: &Call,
    levels: u32,
) -> Result<Progress, Stop>
    requires { levels + call.now.inputs.depth ≡ 32 }
    ensures { Tells progress_of runs.new result (tallied runs.old ((dereferenced (processed_in levels) (item_ask call.now) (progress_of progress) doc.now).run stock.now)) }
{
    let local = context_in(doc)?;
    let Progress { ctx, remote } = progress;
    let handed = copy_names(alloc, &remote)?;
    let inputs = Inputs {
        base: base_of(alloc, doc)?,
        over: false,
        propagate: true,
        validate: call.inputs.validate,
        depth: call.inputs.depth + 1,
    };
    match process_in(alloc, stock, runs, ctx, local, handed, inputs, levels) {
        Ok(ctx) => Ok(Progress { ctx, remote }),
        Err(e) => Err(e),
    }
}

// Steps 5.4 to 5.13.
#[cycle(process)]
fn by_map(
    alloc: Global,
    stock: &Stock,
    runs: &mut Runs,
    progress: Progress,
    entries: &Entries<Tree>,
    call: &Call,
    levels: u32,
) -> Result<Progress, Stop>
    requires { levels + call.now.inputs.depth ≡ 32 }
    ensures { Tells progress_of runs.new result (tallied runs.old ((by_map (processed_in levels) (item_ask call.now) (progress_of progress) entries.now).run stock.now)) }
{
    version_in(entries.get("@version"))?;
    match entries.get("@import") {
        None => by_entries(alloc, stock, runs, progress, entries, call, levels),
        Some(value) => by_import(alloc, stock, runs, progress, entries, value, call, levels),
    }
}

// Steps 5.6 to 5.13, where there is an import.
#[cycle(process)]
fn by_import(
    alloc: Global,
    stock: &Stock,
    runs: &mut Runs,
    progress: Progress,
    entries: &Entries<Tree>,
    value: &Tree,
    call: &Call,
    levels: u32,
) -> Result<Progress, Stop>
    requires { levels + call.now.inputs.depth ≡ 32 }
    ensures { Tells progress_of runs.new result (tallied runs.old ((with_import (processed_in levels) (item_ask call.now) (progress_of progress) entries.now (Some (out-Tree value.now))).run stock.now)) }
{
    match import_in(alloc, stock, runs, &call.inputs.base, entries, value) {
        Ok(joined) => by_entries(alloc, stock, runs, progress, &joined, call, levels),
        Err(e) => Err(e),
    }
}

// Step 5.6.
fn import_in(
    alloc: Global,
    stock: &Stock,
    runs: &mut Runs,
    base: &Option<Iri>,
    entries: &Entries<Tree>,
    value: &Tree,
) -> Result<Entries<Tree>, Stop>
    ensures { Tells (λ joined. joined) runs.new result (tallied runs.old ((import_in base.now entries.now (Some (out-Tree value.now))).run stock.now)) }
{
    match value {
        Tree::Text(text) => {
            let iri = loadable(alloc, base, text)?;
            by_import_iri(alloc, stock, runs, entries, iri)
        }
        _ => Err(Stop::Code(Code::InvalidImportValue)),
    }
}

// Steps 5.6.3 to 5.6.8.
fn by_import_iri(
    alloc: Global,
    stock: &Stock,
    runs: &mut Runs,
    entries: &Entries<Tree>,
    iri: Option<Iri>,
) -> Result<Entries<Tree>, Stop>
    ensures { Tells (λ joined. joined) runs.new result (tallied runs.old ((by_import entries.now iri).run stock.now)) }
{
    let Some(iri) = iri else {
        return Err(Stop::Code(Code::LoadingRemoteContextFailed));
    };
    match looked(alloc, stock, runs, &iri)? {
        None => Err(Stop::Missing(iri)),
        Some(doc) => imported_from(alloc, entries, doc),
    }
}

// Steps 5.7 to 5.13.
#[cycle(process)]
fn by_entries(
    alloc: Global,
    stock: &Stock,
    runs: &mut Runs,
    progress: Progress,
    entries: &Entries<Tree>,
    call: &Call,
    levels: u32,
) -> Result<Progress, Stop>
    requires { levels + call.now.inputs.depth ≡ 32 }
    ensures { Tells progress_of runs.new result (tallied runs.old ((by_entries (processed_in levels) (item_ask call.now) (progress_of progress) entries.now).run stock.now)) }
{
    let Progress { ctx, remote } = progress;
    let ctx = keywords_in(alloc, ctx, &remote, entries)?;
    let protected = protected_in(entries)?;
    let progress = Progress { ctx, remote };
    terms_in(
        alloc, stock, runs, progress, entries, protected, call, levels,
    )
}

fn rest_in(alloc: Global, call: &Call, remote: &Names, protected: bool) -> Result<Rest, NoMemory>
    ensures { IfOk result (λ rest. rest_of rest ≡ record { base = call.now.inputs.base; protected = protected; over = call.now.inputs.over; remote = remote.now; validate = call.now.inputs.validate; depth = call.now.inputs.depth }) }
{
    Ok(Rest {
        base: copy_iri(alloc, &call.inputs.base)?,
        protected,
        over: call.inputs.over,
        remote: copy_names(alloc, remote)?,
        validate: call.inputs.validate,
        depth: call.inputs.depth,
    })
}

// What a scoped context is processed with: one level deeper, with leave to override, and not validated further.
fn scoped_inputs(alloc: Global, rest: &Rest) -> Result<Inputs, NoMemory>
    requires { rest.now.depth ≤ 32 }
    ensures { IfOk result (λ inputs. inputs ≡ record { base = rest.now.base; over = true; propagate = true; validate = false; depth = rest.now.depth + 1 }) }
{
    Ok(Inputs {
        base: copy_iri(alloc, &rest.base)?,
        over: true,
        propagate: true,
        validate: false,
        depth: rest.depth + 1,
    })
}

// Whether the name is one of those of a context's own entries.
fn is_context_keyword(name: &str) -> bool
    ensures { result ≡ is_among context_keywords name.now }
{
    name == "@base"
        || name == "@direction"
        || name == "@import"
        || name == "@language"
        || name == "@propagate"
        || name == "@protected"
        || name == "@version"
        || name == "@vocab"
}

// The same context, open where a term is to be defined.
fn opened_for(alloc: Global, ctx: Ctx, entries: &Entries<Tree>) -> Result<Ctx, NoMemory>
    ensures { IfOk result (λ made. flat made ≡ flat ctx) }
{
    if entries
        .as_slice()
        .iter()
        .all(|entry| is_context_keyword(entry.0.as_str()))
    {
        Ok(ctx)
    } else {
        ctx.opened(alloc)
    }
}

// Steps 5.12 and 5.13.
#[cycle(process)]
fn terms_in(
    alloc: Global,
    stock: &Stock,
    runs: &mut Runs,
    progress: Progress,
    entries: &Entries<Tree>,
    protected: bool,
    call: &Call,
    levels: u32,
) -> Result<Progress, Stop>
    requires { levels + call.now.inputs.depth ≡ 32 }
    ensures { Tells progress_of runs.new result (tallied runs.old ((terms_in (processed_in levels) (item_ask call.now) (progress_of progress) entries.now protected (flat progress.ctx)).run stock.now)) }
{
    let Progress { ctx, remote } = progress;
    let rest = rest_in(alloc, call, &remote, protected)?;
    let mut made = opened_for(alloc, ctx, entries)?;
    let mut table = new_table(alloc);
    match each_term(
        alloc, stock, runs, &mut made, &mut table, entries, &rest, levels,
    ) {
        Ok(()) => Ok(Progress { ctx: made, remote }),
        Err(e) => Err(e),
    }
}

fn new_table(alloc: Global) -> Defined
    ensures { result ≡ empty }
{
    NameMap::new(alloc)
}

#[cycle(process)]
fn each_term(
    alloc: Global,
    stock: &Stock,
    runs: &mut Runs,
    made: &mut Ctx,
    defined: &mut Defined,
    entries: &Entries<Tree>,
    rest: &Rest,
    levels: u32,
) -> Result<(), Stop>
    requires { levels + rest.now.depth ≡ 32 }
    ensures { Tells (λ _. made_of made.new defined.new) runs.new result (tallied runs.old ((each (unless_keyword (check_by (processed_in levels) (rest_of rest.now)) (rest_of rest.now) entries.now) entries.now.0 (made_of made.old defined.old)).run stock.now)) }
{
    for entry in entries.as_slice() {
        match unless_keyword(
            alloc, stock, runs, made, defined, entries, entry, rest, levels,
        ) {
            Ok(()) => {}
            Err(e) => return Err(e),
        }
    }
    Ok(())
}

#[cycle(process)]
fn unless_keyword(
    alloc: Global,
    stock: &Stock,
    runs: &mut Runs,
    made: &mut Ctx,
    defined: &mut Defined,
    entries: &Entries<Tree>,
    entry: &(Text, Tree),
    rest: &Rest,
    levels: u32,
) -> Result<(), Stop>
    requires { levels + rest.now.depth ≡ 32 }
    ensures { Tells (λ _. made_of made.new defined.new) runs.new result (tallied runs.old ((unless_keyword (check_by (processed_in levels) (rest_of rest.now)) (rest_of rest.now) entries.now entry.now (made_of made.old defined.old)).run stock.now)) }
{
    let name = entry.0.as_str();
    if is_context_keyword(name) {
        return Ok(());
    }
    define_term(
        alloc, stock, runs, made, defined, entries, name, rest, levels,
    )
}

// One term, with those that it calls for, and the scoped contexts of all of them.
#[cycle(process)]
fn define_term(
    alloc: Global,
    stock: &Stock,
    runs: &mut Runs,
    made: &mut Ctx,
    defined: &mut Defined,
    entries: &Entries<Tree>,
    name: &str,
    rest: &Rest,
    levels: u32,
) -> Result<(), Stop>
    requires { levels + rest.now.depth ≡ 32 }
    ensures { Tells (λ _. made_of made.new defined.new) runs.new result (tallied runs.old (term_outcome (check_by (processed_in levels) (rest_of rest.now)) (rest_of rest.now) entries.now name.now (made_of made.old defined.old) stock.now)) }
{
    let mut next = match start(alloc, made, entries, name, defined, rest) {
        Ok(next) => next,
        Err(e) => return Err(e),
    };
    loop {
        match next {
            Next::Done => return Ok(()),
            Next::Check(waiting) => {
                match check_scoped(alloc, stock, runs, made, waiting.scoped(), rest, levels) {
                    Ok(()) => {}
                    // what was made of the context goes with the definition
                    Err(e) => return Err(scoped_stop(e)),
                }
                match go_on(alloc, made, entries, waiting, defined, rest) {
                    Ok(after) => next = after,
                    Err(e) => return Err(e),
                }
            }
        }
    }
}

// Step 21.3 of Create Term Definition (4.2.2): what comes of a scoped context over the context that is being made, which
// is as it was after it. After an error it isn't: an error ends the whole invocation, and nobody sees the context again.
#[cycle(process)]
fn check_scoped(
    alloc: Global,
    stock: &Stock,
    runs: &mut Runs,
    made: &mut Ctx,
    local: &Tree,
    rest: &Rest,
    levels: u32,
) -> Result<(), Stop>
    requires { levels + rest.now.depth ≡ 32 }
    ensures told { Told result ((check_by (processed_in levels) (rest_of rest.now) (flat made.old) local.now).run stock.now).result }
    ensures counted { UnlessNoMemory result (let checked = (check_by (processed_in levels) (rest_of rest.now) (flat made.old) local.now).run stock.now in runs.new ≡ grown runs.old checked.runs checked.reads) }
    ensures same { OnOk result (flat made.new ≡ flat made.old) }
{
    match own_entries(local) {
        Some(entries) => check_in_place(alloc, stock, runs, made, local, entries, rest, levels),
        None => check_on_copy(alloc, stock, runs, made, local, rest, levels),
    }
}

// A scoped context that changes no more than a `Former` keeps: no other definition is copied.
#[cycle(process)]
fn check_in_place(
    alloc: Global,
    stock: &Stock,
    runs: &mut Runs,
    made: &mut Ctx,
    local: &Tree,
    entries: &Entries<Tree>,
    rest: &Rest,
    levels: u32,
) -> Result<(), Stop>
    requires depth { levels + rest.now.depth ≡ 32 }
    requires own { Some entries.now ≡ own_entries (out-Tree local.now) }
    ensures told { Told result ((check_by (processed_in levels) (rest_of rest.now) (flat made.old) local.now).run stock.now).result }
    ensures counted { UnlessNoMemory result (let checked = (check_by (processed_in levels) (rest_of rest.now) (flat made.old) local.now).run stock.now in runs.new ≡ grown runs.old checked.runs checked.reads) }
    ensures same { OnOk result (flat made.new ≡ flat made.old) }
{
    let former = former_of(alloc, made, entries)?;
    let remote = copy_names(alloc, &rest.remote)?;
    let inputs = scoped_inputs(alloc, rest)?;
    let active = mem::replace(made, Ctx::fresh(alloc, None)?);
    match process_in(alloc, stock, runs, active, local, remote, inputs, levels) {
        Ok(ctx) => {
            *made = undone(ctx, former)?;
            Ok(())
        }
        Err(e) => Err(e),
    }
}

// Any other scoped context.
#[cycle(process)]
fn check_on_copy(
    alloc: Global,
    stock: &Stock,
    runs: &mut Runs,
    made: &Ctx,
    local: &Tree,
    rest: &Rest,
    levels: u32,
) -> Result<(), Stop>
    requires { levels + rest.now.depth ≡ 32 }
    ensures told { Told result ((check_by (processed_in levels) (rest_of rest.now) (flat made.now) local.now).run stock.now).result }
    ensures counted { UnlessNoMemory result (let checked = (check_by (processed_in levels) (rest_of rest.now) (flat made.now) local.now).run stock.now in runs.new ≡ grown runs.old checked.runs checked.reads) }
{
    let active = made.try_copy(alloc)?;
    let remote = copy_names(alloc, &rest.remote)?;
    let inputs = scoped_inputs(alloc, rest)?;
    match process_in(alloc, stock, runs, active, local, remote, inputs, levels) {
        Ok(_) => Ok(()),
        Err(e) => Err(e),
    }
}

/// What an invocation gives over an active context that is handed over, settled.
pub fn process_with(
    alloc: Global,
    stock: &Stock,
    runs: &mut Runs,
    active: Ctx,
    local: &Tree,
    remote: Names,
    inputs: Inputs,
) -> Result<Ctx, Stop>
    ensures answer { GivesAs flat result (processed stock.now (invocation inputs remote (flat active) local.now)).result }
    ensures count { UnlessNoMemory result (runs.new.count ≡ min (runs.old.count + (processed stock.now (invocation inputs remote (flat active) local.now)).runs) (2 ^ 64 - 1)) }
    ensures read { UnlessNoMemory result (runs.new.read ≡ runs.old.read ++ (processed stock.now (invocation inputs remote (flat active) local.now)).reads) }
{
    let levels = LEVELS.saturating_sub(inputs.depth);
    match process_in(alloc, stock, runs, active, local, remote, inputs, levels) {
        Ok(made) => Ok(made.settled(alloc)?),
        Err(e) => Err(e),
    }
}

/// Context Processing (JSON-LD 1.1 API, 4.1.2): the context that the ask's local context makes of its active context.
///
/// An error is the algorithm's code, `nesting limit` for more than 32 invocations within one another or more than 32
/// previous contexts, `outside profile` for a keyword that this profile leaves out, or the first document asked for
/// that the stock lacks. Takes time near linear in the contexts and in the documents asked for, but for the scoped
/// contexts that are tried over a copy of the context that is being made (null, texts, lists, and maps with `@import`
/// or not propagated), and for the definitions that scoped contexts put others in place of: those are copied.
pub fn process(alloc: Global, ask: &Ask<Ctx>, stock: &Stock, runs: &mut Runs) -> Result<Ctx, Stop>
    ensures answer { GivesAs flat result (processed stock.now (asked flat ask.now)).result }
    ensures count { UnlessNoMemory result (runs.new.count ≡ min (runs.old.count + (processed stock.now (asked flat ask.now)).runs) (2 ^ 64 - 1)) }
    ensures read { UnlessNoMemory result (runs.new.read ≡ runs.old.read ++ (processed stock.now (asked flat ask.now)).reads) }
{
    let active = ask.active.try_copy(alloc)?;
    let remote = copy_names(alloc, &ask.remote)?;
    let inputs = Inputs {
        base: copy_iri(alloc, &ask.base)?,
        over: ask.over,
        propagate: ask.propagate,
        validate: ask.validate,
        depth: ask.depth,
    };
    process_with(alloc, stock, runs, active, &ask.local, remote, inputs)
}
