//! Contexts that are loaded for one request.
ghost use Rattle.std.specs.Prelude.{◌≡◌, ◌+◌, ◌<◌, ◌≤◌, None, ℕ, IfOk, IfErr, IfSome, OnErr, length};
ghost use Rattle.std.specs.Arc.{arc_value};
ghost use Rattle.ld_ctx.specs.Stocks.{shared_entries, stock_of};
ghost use Rattle.ld_answer.specs.Answers.{Tells};
ghost use Rattle.ld_edge.specs.Faults.{NeverFalls};
ghost use Rattle.ld_flight.specs.Loads.{Loading, IsDocument, longest_text};
ghost use Rattle.ld_once.specs.Loading.{answering, held_limit, LoadsInPart};
ghost use Rattle.ld_once.specs.Outcomes.{IsOutcome, IsReached};
ghost use Rattle.ld_once.specs.Underway.{IsCut, IsFaultReply, IsJoined, IsLoaded, IsSpent, IsUnderway, IsUnloaded};

use crate::reply::{Outcome, Reply, outcome_of, refuse_fault, refuse_many};
use ld_answer::{Answer, Envelope, Op};
use ld_context::Plain;
use ld_ctx::Stock;
use ld_flight::{Loaded, Loader, Pass, Refused, Tower, Why};
use ld_rec::Doc;
use ld_tree::{Iri, NoMemory};
use std::alloc::Global;
use std::sync::Arc;

/// How many contexts one request holds at most.
pub const HELD_LIMIT: usize = 64;

/// A load that the loader counted as failed.
#[derive(Drop)]
pub struct Fault {
    pub flight: u32,
    pub iri: Iri,
    pub before: u64,
    pub after: u64,
}

/// Why no document was loaded.
#[derive(Drop)]
pub enum LoadRefusal {
    Fault(Fault),
    NoMemory,
}

impl From<NoMemory> for LoadRefusal {
    ghost use Rattle.ld_once.specs.declared.loading.LoadRefusal.TheVariants as refusal;

    ghost from_gives = { λ _ r. r ≡ refusal.NoMemory };

    fn from(_e: NoMemory) -> LoadRefusal {
        LoadRefusal::NoMemory
    }
}

/// Answers an envelope, and loads each context that the answer lacks, one after another.
pub fn answer<L: Loader>(
    alloc: Global,
    op: Op,
    envelope: &Envelope,
    loader: &mut L,
) -> Result<Reply, NoMemory>
    ensures reached { IfOk result (λ r. IsReached (answering op envelope.now) (L.loading loader.old) (L.loading loader.new) r.status r.text.items) }
    ensures in_part { OnErr result (LoadsInPart (answering op envelope.now) (L.loading loader.old) (L.loading loader.new)) }
    ensures never_falls { OnErr result (NeverFalls (L.loading loader.old).faults (L.loading loader.new).faults) }
{
    let mut tower = Tower::new();
    let mut documents = Vec::new(alloc);
    while documents.len() < HELD_LIMIT {
        if let Some(reply) = attempt(alloc, op, envelope, loader, &mut tower, &mut documents)? {
            return Ok(reply);
        }
    }
    match outcome(alloc, op, envelope, documents.as_slice())? {
        Outcome::Missing(iri) => refuse_many(alloc, iri.as_str()),
        Outcome::Settled(reply) => Ok(reply),
    }
}

// Answers over the documents, or loads the one that is missing.
fn attempt<L: Loader>(
    alloc: Global,
    op: Op,
    envelope: &Envelope,
    loader: &mut L,
    tower: &mut Tower,
    documents: &mut Vec<(Iri, Arc<Doc>)>,
) -> Result<Option<Reply>, NoMemory>
    requires few { length documents.old.items < held_limit }
    requires tower { tower.old ≡ length documents.old.items }
    ensures more { IfOk result (λ r. r ≡ None → (start : Loading) → IsUnderway (answering op envelope.now) start (L.loading loader.old) (shared_entries documents.old.items)
        → IsUnderway (answering op envelope.now) start (L.loading loader.new) (shared_entries documents.new.items)) }
    ensures one_more { IfOk result (λ r. r ≡ None → length documents.new.items ≡ length documents.old.items + 1) }
    ensures tower { IfOk result (λ r. r ≡ None → tower.new ≡ tower.old + 1) }
    ensures reached { IfOk result (λ r. IfSome r (λ reply. (start : Loading) → IsUnderway (answering op envelope.now) start (L.loading loader.old) (shared_entries documents.old.items)
        → IsReached (answering op envelope.now) start (L.loading loader.new) reply.status reply.text.items)) }
    ensures in_part { OnErr result ((start : Loading) → IsUnderway (answering op envelope.now) start (L.loading loader.old) (shared_entries documents.old.items)
        → LoadsInPart (answering op envelope.now) start (L.loading loader.new)) }
    ensures never_falls { OnErr result (NeverFalls (L.loading loader.old).faults (L.loading loader.new).faults) }
{
    match outcome(alloc, op, envelope, documents.as_slice())? {
        Outcome::Missing(iri) => load_missing(alloc, loader, tower.lead(iri), documents),
        Outcome::Settled(reply) => Ok(Some(reply)),
    }
}

fn outcome(
    alloc: Global,
    op: Op,
    envelope: &Envelope,
    documents: &[(Iri, Arc<Doc>)],
) -> Result<Outcome, NoMemory>
    ensures { IfOk result (IsOutcome (answering op envelope.now (stock_of (shared_entries documents.now)))) }
{
    let answer = answer_over(alloc, op, envelope, documents)?;
    outcome_of(alloc, answer)
}

fn answer_over(
    alloc: Global,
    op: Op,
    envelope: &Envelope,
    documents: &[(Iri, Arc<Doc>)],
) -> Result<Answer, NoMemory>
    ensures { IfOk result (λ answer. Tells answer (answering op envelope.now (stock_of (shared_entries documents.now)))) }
{
    let stock = stock(alloc, documents)?;
    let mut work = Plain::new(alloc, &stock);
    Ok(envelope.answer(alloc, op, &mut work))
}

fn stock(alloc: Global, documents: &[(Iri, Arc<Doc>)]) -> Result<Stock, NoMemory>
    ensures { IfOk result (λ stock. stock ≡ stock_of (shared_entries documents.now)) }
{
    Stock::of_shared(alloc, copied(alloc, documents)?)
}

fn copied(alloc: Global, documents: &[(Iri, Arc<Doc>)]) -> Result<Vec<(Iri, Arc<Doc>)>, NoMemory>
    ensures { IfOk result (λ copies. shared_entries copies.items ≡ shared_entries documents.now) }
{
    let mut copies = Vec::with_capacity(alloc, documents.len())?;
    for (iri, doc) in documents {
        copies.push((iri.try_copy(alloc)?, Arc::try_clone(doc)?))?;
    }
    Ok(copies)
}

// The document of the pass joins the others, or the loader's fault is the reply.
fn load_missing<L: Loader>(
    alloc: Global,
    loader: &mut L,
    pass: Pass,
    documents: &mut Vec<(Iri, Arc<Doc>)>,
) -> Result<Option<Reply>, NoMemory>
    ensures more { IfOk result (λ r. r ≡ None → IsJoined pass (L.loading loader.old) (L.loading loader.new) (shared_entries documents.old.items) (shared_entries documents.new.items)) }
    ensures one_more { IfOk result (λ r. r ≡ None → length documents.new.items ≡ length documents.old.items + 1) }
    ensures fault { IfOk result (λ r. IfSome r (λ reply. IsFaultReply pass (L.loading loader.old) (L.loading loader.new) reply.status reply.text.items)) }
    ensures in_part { OnErr result (IsCut pass (L.loading loader.old) (L.loading loader.new)) }
{
    match load(alloc, loader, pass) {
        Ok(document) => {
            documents.push(document)?;
            Ok(None)
        }
        Err(LoadRefusal::Fault(fault)) => Ok(Some(refuse_fault(alloc, &fault)?)),
        Err(LoadRefusal::NoMemory) => Err(NoMemory),
    }
}

// The document of the pass, with its IRI.
fn load<L: Loader>(
    alloc: Global,
    loader: &mut L,
    pass: Pass,
) -> Result<(Iri, Arc<Doc>), LoadRefusal>
    ensures loaded { IfOk result (λ document. IsLoaded pass (L.loading loader.old) (L.loading loader.new) (document.0, arc_value document.1)) }
    ensures refused { IfErr result (IsUnloaded pass (L.loading loader.old) (L.loading loader.new)) }
{
    match loader.load(alloc, pass) {
        Ok(loaded) => Ok(read(alloc, loaded)?),
        Err(refused) => Err(spent(refused)),
    }
}

// The text is read, and the pass is spent.
fn read(alloc: Global, loaded: Loaded) -> Result<(Iri, Arc<Doc>), NoMemory>
    requires { length loaded.text ≤ longest_text }
    ensures iri { IfOk result (λ document. document.0 ≡ loaded.pass.iri) }
    ensures document { IfOk result (λ document. IsDocument (arc_value document.1) loaded.url loaded.text) }
{
    match loaded.ready(alloc) {
        Ok(ready) => {
            let (pass, doc, _, _) = ready.into_parts();
            Ok((pass.into_iri(), doc))
        }
        Err((loaded, e)) => {
            let Loaded {
                pass,
                url: _,
                text: _,
            } = loaded;
            pass.end();
            Err(e)
        }
    }
}

fn spent(refused: Refused) -> LoadRefusal
    ensures { IsSpent refused result }
{
    let Refused {
        pass,
        why,
        before,
        after,
    } = refused;
    let flight = pass.flight();
    let iri = pass.into_iri();
    match why {
        Why::Fault => LoadRefusal::Fault(Fault {
            flight,
            iri,
            before,
            after,
        }),
        Why::NoMemory => LoadRefusal::NoMemory,
    }
}
