//! Contexts that requests lack, evict and revise.
ghost use Rattle.std.specs.Prelude.{◌≡◌, ◌+◌, true, length, unwrap_or, IfOk, OnOk, OnErr};
ghost use Rattle.std.specs.Option.{option_map};
ghost use Rattle.std.specs.Arc.{arc_value};
ghost use Rattle.ld_store.specs.Snapshots.{evicted};
ghost use Rattle.ld_history.specs.Rules.{has_pinned, on_session};
ghost use Rattle.ld_history.specs.Legal.{AreWithin, is_in_stock, state};
ghost use Rattle.ld_history.specs.Steps.{evict_step, lack_step, may_lack, out_at, revise_step};
ghost use Rattle.ld_book.specs.Pages.{after_step, entries_of, history_of, state_of};
ghost use Rattle.ld_book.specs.Said.{Says, told_evict, told_lack, told_revise};
ghost use Rattle.ld_book.specs.Passes.{if_evicted, leads_lack, leads_revise, passes_for_lack, passes_for_revise};

use crate::allowed::allowed;
use crate::answers::{EvictAnswer, LackAnswer, ReviseAnswer};
use crate::book::Book;
use ld_flight::{Pass, Tower};
use ld_history::{EvictAnswer as Evicting, LackAnswer as Lacking, ReviseAnswer as Revising, State};
use ld_store::Snapshot;
use ld_tree::{Iri, NoMemory};
use std::alloc::Global;
use std::sync::Arc;

impl Book {
    /// A request lacks a context at its pinned version: the session's last own event is Pinned, at a version without the
    /// IRI, which has at most 2,048 bytes. A refusal ends the request.
    pub fn lack(&mut self, alloc: Global, session: u32, iri: &Iri) -> Result<LackAnswer, NoMemory>
        requires { on_session (state_of self.old) session (may_lack (is_in_stock (entries_of self.old.pages)) iri.now) ≡ true }
        ensures answered { IfOk result (Says (told_lack iri.now) (lack_step (history_of self.old) session iri.now)) }
        ensures appended { OnOk result (self.new ≡ after_step self.old (lack_step (history_of self.old) session iri.now)) }
        ensures unchanged { OnErr result (self.new ≡ self.old) }
    {
        let led = iri.try_copy(alloc)?;
        let next = after_lack(alloc, &self.state, &self.snapshot, session, iri)?;
        let name = iri.try_copy(alloc)?;
        // The history is legal, so that a lack that may come is a step.
        let _events = self.state.events();
        let answer = allowed(self.state.lack(alloc, session, name))?;
        renew(&mut self.snapshot, next);
        Ok(told_lack(&mut self.tower, &self.state, answer, led))
    }

    /// A request wants a context out of the store, and is answered. The session's last own event is Pinned.
    pub fn evict(&mut self, alloc: Global, session: u32, iri: &Iri) -> Result<EvictAnswer, NoMemory>
        requires { has_pinned (state_of self.old) session ≡ true }
        ensures answered { IfOk result (Says told_evict (evict_step (history_of self.old) session iri.now)) }
        ensures appended { OnOk result (self.new ≡ after_step self.old (evict_step (history_of self.old) session iri.now)) }
        ensures unchanged { OnErr result (self.new ≡ self.old) }
    {
        let name = iri.try_copy(alloc)?;
        // The history is legal, so that the next version has a number.
        let _events = self.state.events();
        let next = without(alloc, &self.snapshot, iri, self.state.version() + 1)?;
        let answer = allowed(self.state.evict(alloc, session, name))?;
        renew(&mut self.snapshot, if_evicted(answer, next));
        Ok(told_evict(answer))
    }

    /// A request wants a stored context loaded anew. The session's last own event is Pinned. A refusal ends the request.
    pub fn revise(
        &mut self,
        alloc: Global,
        session: u32,
        iri: &Iri,
    ) -> Result<ReviseAnswer, NoMemory>
        requires { has_pinned (state_of self.old) session ≡ true }
        ensures answered { IfOk result (Says (told_revise iri.now) (revise_step (history_of self.old) session iri.now)) }
        ensures appended { OnOk result (self.new ≡ after_step self.old (revise_step (history_of self.old) session iri.now)) }
        ensures unchanged { OnErr result (self.new ≡ self.old) }
    {
        let led = iri.try_copy(alloc)?;
        let name = iri.try_copy(alloc)?;
        let answer = allowed(self.state.revise(alloc, session, name))?;
        Ok(told_revise(&mut self.tower, &self.state, answer, led))
    }
}

// What is stored from now on, where that changes.
fn renew(snapshot: &mut Arc<Snapshot>, next: Option<Arc<Snapshot>>)
    ensures { arc_value snapshot.new ≡ unwrap_or (option_map (λ s. arc_value s) next) (arc_value snapshot.old) }
{
    if let Some(next) = next {
        *snapshot = next;
    }
}

// What is stored from now on, where the context went out.
fn if_evicted(answer: Evicting, next: Arc<Snapshot>) -> Option<Arc<Snapshot>>
    ensures { option_map (λ s. arc_value s) result ≡ if_evicted answer (arc_value next) }
{
    match answer {
        Evicting::Evicted { .. } => Some(next),
        _ => None,
    }
}

fn told_evict(answer: Evicting) -> EvictAnswer
    ensures { result ≡ told_evict answer }
{
    match answer {
        Evicting::Evicted { version } => EvictAnswer::Evicted(version),
        Evicting::NotStored { version } => EvictAnswer::NotStored { version },
        Evicting::Held { session } => EvictAnswer::Held { session },
        Evicting::Revising { flight } => EvictAnswer::Revising { flight },
    }
}

// The answer to a lack of the IRI, after which the history is this one. Where it leads a flight, the tower makes its pass.
fn told_lack(tower: &mut Tower, history: &State, answer: Lacking, iri: Iri) -> LackAnswer
    requires within { AreWithin history.now.limits }
    requires flights { length (state history.now.entries).flights ≡ tower.old + passes_for_lack answer }
    requires number { leads_lack answer (tower.old + 1) }
    ensures answer { result ≡ told_lack iri answer }
    ensures made { tower.new ≡ tower.old + passes_for_lack answer }
{
    match answer {
        Lacking::TooMany { held } => LackAnswer::TooMany { held },
        Lacking::There => LackAnswer::There,
        Lacking::Joined { flight } => LackAnswer::Joined(flight),
        Lacking::StoreFull => LackAnswer::StoreFull,
        Lacking::ArchiveFull { bytes } => LackAnswer::ArchiveFull { bytes },
        Lacking::Led { flight: _, out: _ } => LackAnswer::Lead(lead(tower, history, iri)),
    }
}

// The same for a revision.
fn told_revise(tower: &mut Tower, history: &State, answer: Revising, iri: Iri) -> ReviseAnswer
    requires within { AreWithin history.now.limits }
    requires flights { length (state history.now.entries).flights ≡ tower.old + passes_for_revise answer }
    requires number { leads_revise answer (tower.old + 1) }
    ensures answer { result ≡ told_revise iri answer }
    ensures made { tower.new ≡ tower.old + passes_for_revise answer }
{
    match answer {
        Revising::Led { flight: _ } => ReviseAnswer::Lead(lead(tower, history, iri)),
        Revising::NotStored { version } => ReviseAnswer::NotStored { version },
        Revising::Flying { flight } => ReviseAnswer::Flying { flight },
        Revising::ArchiveFull { bytes } => ReviseAnswer::ArchiveFull { bytes },
    }
}

// The pass of the flight that the history has just led.
fn lead(tower: &mut Tower, history: &State, iri: Iri) -> Pass
    requires within { AreWithin history.now.limits }
    requires next { length (state history.now.entries).flights ≡ tower.old + 1 }
    ensures pass { result ≡ record { number = tower.old + 1; iri = iri } }
    ensures made { tower.new ≡ tower.old + 1 }
{
    // It is legal, so that the flight has a number.
    let _events = history.events();
    tower.lead(iri)
}

// What is stored once the IRI's context went out.
fn without(
    alloc: Global,
    snapshot: &Snapshot,
    iri: &Iri,
    version: u64,
) -> Result<Arc<Snapshot>, NoMemory>
    ensures { IfOk result (λ next. arc_value next ≡ evicted snapshot.now iri.now version) }
{
    let next = snapshot.evicted(alloc, iri.as_str(), version)?;
    let shared = Arc::new(alloc, next)?;
    Ok(shared)
}

// What is stored after a lack, where a context goes out for it.
fn after_lack(
    alloc: Global,
    history: &State,
    snapshot: &Snapshot,
    session: u32,
    iri: &Iri,
) -> Result<Option<Arc<Snapshot>>, NoMemory>
    ensures { IfOk result (λ next. option_map (λ s. arc_value s) next ≡ option_map (λ out. evicted snapshot.now out.iri out.version) (out_at (lack_step history.now session iri.now))) }
{
    let name = history.name(alloc, iri.try_copy(alloc)?)?;
    match history.out_of_lack(session, &name)? {
        Some(out) => Ok(Some(without(alloc, snapshot, out.iri.as_iri(), out.version)?)),
        None => Ok(None),
    }
}
