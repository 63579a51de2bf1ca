//! What each event does to the tables.
ghost use Rattle.std.specs.Prelude.{◌≡◌, ℕ, ◌+◌, ◌^◌, ◌<◌, ◌≤◌, option_copied, List, length, [], ◌∷◌, ◌++◌, None, IfOk, OnOk, OnErr, is_some, not, true, false, if◌then◌else◌};
ghost use Rattle.std.specs.Map.{keys_of};
ghost use Rattle.ld_history.specs.Words.{at_iri, at_number, is_some_and, is_idle, has_request, holds, is_taken};
ghost use Rattle.ld_history.specs.Rules.{may_close};
ghost use Rattle.ld_history.specs.Index.{IsIndex};
ghost use Rattle.ld_history.specs.Holders.{Holders, held_by, AreFilled, IsCleared};
ghost use Rattle.ld_history.specs.Order.{IsOrder, IsFree, IsHeldAlike, is_among};
ghost use Rattle.ld_history.specs.After as after;
ghost use Rattle.ld_history.specs.Store.{empty_store};
ghost use Rattle.ld_history.specs.Ready.{is_ending};
ghost use Rattle.ld_history.specs.Steps.{plain};
ghost use Rattle.ld_history.specs.Seen.{seen};

use crate::event::{Entry, Event};
use crate::holders::{list_holder, undo_listing, unlist_all};
use crate::index::Index;
use crate::name::{Answer, Name};
use crate::order::{Order, refresh, refresh_all, version_of};
use crate::rules::OVERSIZE;
use crate::session::{End, Eviction, Flight, Flying, Kind, Last, Session, Stored};
use crate::tables::Tables;
use ld_tree::{Items, NoMemory};
use std::alloc::Global;
use std::collections::{BTreeMap, BTreeSet};
use std::mem;

impl Tables {
    pub fn new(alloc: Global) -> Tables
        ensures { seen result ≡ empty_store }
    {
        Tables {
            alloc,
            version: 0,
            events: 0,
            bytes: 0,
            opened: 0,
            sessions: BTreeMap::new(alloc),
            flights: Vec::new(alloc),
            leads: BTreeMap::new(alloc),
            revisions: BTreeMap::new(alloc),
            stored: BTreeMap::new(alloc),
            turns: BTreeMap::new(alloc),
            evicted: None,
            index: Index::new(alloc),
            texts: BTreeMap::new(alloc),
            order: Order::new(alloc),
        }
    }

    pub fn opened(&mut self, alloc: Global, session: u32, seat: u32) -> Result<(), NoMemory>
        requires next { session ≡ self.old.opened + 1 }
        requires free { is_taken (seen self.old) seat ≡ false }
        ensures ok { OnOk result (seen self.new ≡ after.after_opened (seen self.old) session seat) }
        ensures unchanged { OnErr result (seen self.new ≡ seen self.old) }
    {
        let opened = Session {
            seat,
            request: 0,
            attempt: 0,
            version: 0,
            held: Items::new(alloc),
            last: Last::Idle,
        };
        self.index.seats.insert(seat, session)?;
        match self.sessions.insert(session, opened) {
            Ok(_) => {
                self.opened = session;
                Ok(())
            }
            Err(_) => {
                self.index.seats.remove(&seat);
                Err(NoMemory)
            }
        }
    }

    pub fn pinned(&mut self, session: u32, request: u32, attempt: u32, version: u64)
        ensures { seen self.new ≡ after.after_pinned (seen self.old) session request attempt version }
    {
        pin(
            &mut self.sessions,
            &mut self.index,
            session,
            request,
            attempt,
            version,
        );
    }

    pub fn found(&mut self, alloc: Global, session: u32, iri: &Name) -> Result<(), NoMemory>
        ensures ok { OnOk result (seen self.new ≡ after.after_found (seen self.old) session iri.now) }
        ensures unchanged { OnErr result (seen self.new ≡ seen self.old) }
    {
        let last = Last::Found;
        let held = hold(
            alloc,
            &mut self.sessions,
            &mut self.index,
            session,
            iri,
            last,
        );
        refresh(
            &mut self.order,
            &self.stored,
            &self.index.holders,
            &self.revisions,
            iri,
        );
        held
    }

    pub fn joined(
        &mut self,
        alloc: Global,
        session: u32,
        iri: &Name,
        flight: u32,
    ) -> Result<(), NoMemory>
        ensures ok { OnOk result (seen self.new ≡ after.after_joined (seen self.old) session iri.now flight) }
        ensures unchanged { OnErr result (seen self.new ≡ seen self.old) }
    {
        let last = Last::Joined { flight };
        let held = hold(
            alloc,
            &mut self.sessions,
            &mut self.index,
            session,
            iri,
            last,
        );
        refresh(
            &mut self.order,
            &self.stored,
            &self.index.holders,
            &self.revisions,
            iri,
        );
        held
    }

    /// The tables after an entry that the rules allow.
    pub fn take(&mut self, alloc: Global, entry: &Entry<Name, Answer>) -> Result<(), NoMemory>
        requires change { after.ReliesOn (seen self.old) entry.now.event }
        requires events { self.old.events + 1 < 2 ^ 64 }
        ensures ok { OnOk result (seen self.new ≡ after.after (seen self.old) entry.now) }
        ensures unchanged { OnErr result (seen self.new ≡ seen self.old) }
    {
        self.share_texts(entry)?;
        let events = self.events + 1;
        let evicted = self.eviction(&entry.event)?;
        self.change(alloc, &entry.event, entry.given.as_ref())?;
        self.events = events;
        self.evicted = evicted;
        Ok(())
    }

    fn eviction(&self, event: &Event<Name>) -> Result<Option<Eviction>, NoMemory>
        ensures { IfOk result (λ eviction. eviction ≡ after.eviction (seen self.now) event.now) }
    {
        match event {
            Event::Evicted { session, iri, .. } => {
                let places = self.places();
                let next = self.is_next_out(iri);
                let iri = iri.share()?;
                Ok(Some(Eviction {
                    session: *session,
                    iri,
                    places,
                    next,
                }))
            }
            _ => Ok(None),
        }
    }

    fn change(
        &mut self,
        alloc: Global,
        event: &Event<Name>,
        given: Option<&Answer>,
    ) -> Result<(), NoMemory>
        requires { after.ReliesOn (seen self.old) event.now }
        ensures ok { OnOk result (seen self.new ≡ after.after_event (seen self.old) (option_copied given.entry) event.now) }
        ensures unchanged { OnErr result (seen self.new ≡ seen self.old) }
    {
        match event {
            Event::Opened { session, seat } => self.opened(alloc, *session, *seat),
            Event::Pinned {
                session,
                request,
                attempt,
                version,
            } => {
                self.pinned(*session, *request, *attempt, *version);
                Ok(())
            }
            Event::Found { session, iri } => self.found(alloc, *session, iri),
            Event::Led {
                session,
                iri,
                flight,
            } => self.led(alloc, *session, iri, *flight),
            Event::Joined {
                session,
                iri,
                flight,
            } => self.joined(alloc, *session, iri, *flight),
            Event::Published { flight, version } => match given {
                Some(given) => self.published(*flight, *version, given),
                None => Ok(()),
            },
            Event::Evicted {
                session,
                iri,
                version,
            } => self.evicted(*session, iri, *version),
            Event::ReviseLed {
                session,
                iri,
                flight,
            } => self.revise_led(*session, iri, *flight),
            Event::Same { flight } => {
                self.landed(*flight, End::Same);
                Ok(())
            }
            Event::Failed { .. }
            | Event::Lapsed { .. }
            | Event::Answered { .. }
            | Event::Closed { .. } => {
                self.end(event);
                Ok(())
            }
        }
    }

    /// The tables after an event that the rules allow and that ends something. Takes no memory.
    pub fn take_end(&mut self, event: &Event<Name>)
        requires ends { is_ending event.now ≡ true }
        requires change { after.ReliesOn (seen self.old) event.now }
        requires events { self.old.events + 1 < 2 ^ 64 }
        ensures { seen self.new ≡ after.after (seen self.old) (plain event.now) }
    {
        let events = self.events + 1;
        self.end(event);
        self.events = events;
        self.evicted = None;
    }

    fn end(&mut self, event: &Event<Name>)
        requires ends { is_ending event.now ≡ true }
        requires change { after.ReliesOn (seen self.old) event.now }
        ensures { seen self.new ≡ after.after_event (seen self.old) None event.now }
    {
        match event {
            Event::Failed {
                flight,
                before,
                after,
            } => {
                let how = End::Failed {
                    before: *before,
                    after: *after,
                };
                self.landed(*flight, how);
            }
            Event::Lapsed { flight } => self.landed(*flight, End::Lapsed),
            Event::Answered { session, .. } => self.answered(*session),
            Event::Closed { session } => self.closed(*session),
            _ => {}
        }
    }

    pub fn led(
        &mut self,
        alloc: Global,
        session: u32,
        iri: &Name,
        flight: u32,
    ) -> Result<(), NoMemory>
        requires absent { at_iri (seen self.old).leads iri.now ≡ None }
        requires fits { self.old.bytes + length iri.now < 2 ^ 64 }
        ensures ok { OnOk result (seen self.new ≡ after.after_led (seen self.old) session iri.now flight) }
        ensures unchanged { OnErr result (seen self.new ≡ seen self.old) }
    {
        let begun = begin(iri, Kind::Lead, session)?;
        self.flights.reserve(1)?;
        let first = name(alloc, &mut self.turns, iri)?;
        if let Err(e) = lead(
            alloc,
            &mut self.leads,
            &mut self.sessions,
            &mut self.index,
            session,
            iri,
            flight,
        ) {
            refresh(
                &mut self.order,
                &self.stored,
                &self.index.holders,
                &self.revisions,
                iri,
            );
            unname(&mut self.turns, iri, first);
            return Err(e);
        }
        refresh(
            &mut self.order,
            &self.stored,
            &self.index.holders,
            &self.revisions,
            iri,
        );
        if first {
            self.bytes += iri.as_iri().as_str().len() as u64;
        }
        self.flights.push(begun)?;
        Ok(())
    }

    pub fn landed(&mut self, flight: u32, how: End)
        ensures { seen self.new ≡ after.after_landed (seen self.old) flight how }
    {
        let Some(place) = flight.checked_sub(1) else {
            return;
        };
        let place = place as usize;
        if place < self.flights.len() {
            let f = &mut self.flights[place];
            f.end = how;
            match f.kind {
                Kind::Lead => {
                    self.leads.remove(&f.iri);
                }
                Kind::Revise => {
                    end_revision(
                        &mut self.revisions,
                        &mut self.order,
                        &self.stored,
                        &self.index.holders,
                        &f.iri,
                    );
                }
            }
        }
    }

    pub fn published(&mut self, flight: u32, version: u64, given: &Answer) -> Result<(), NoMemory>
        requires version { self.old.version < version }
        requires fits { self.old.bytes < 2 ^ 63 }
        ensures ok { OnOk result (seen self.new ≡ after.after_published (seen self.old) flight version given.now) }
        ensures unchanged { OnErr result (seen self.new ≡ seen self.old) }
    {
        let Some(f) = self.flight(flight) else {
            return Ok(());
        };
        let iri = f.iri.share()?;
        let bytes = self.bytes + kept_length(given.length());
        let answer = given.share()?;
        let stored = Stored {
            flight,
            version,
            answer,
        };
        let entered = enter(
            &mut self.stored,
            &mut self.order,
            &mut self.turns,
            &iri,
            stored,
        );
        refresh(
            &mut self.order,
            &self.stored,
            &self.index.holders,
            &self.revisions,
            &iri,
        );
        entered?;
        self.version = version;
        self.bytes = bytes;
        self.landed(flight, End::Published { version });
        Ok(())
    }

    pub fn evicted(&mut self, session: u32, iri: &Name, version: u64) -> Result<(), NoMemory>
        requires { self.old.version ≤ version }
        ensures ok { OnOk result (seen self.new ≡ after.after_evicted (seen self.old) session iri.now version) }
        ensures unchanged { OnErr result (seen self.new ≡ seen self.old) }
    {
        turn(&mut self.turns, iri, version)?;
        self.version = version;
        leave(&mut self.stored, &mut self.order, iri);
        tell(
            &mut self.sessions,
            &mut self.index,
            session,
            Last::Evicted { version },
        );
        Ok(())
    }

    pub fn revise_led(&mut self, session: u32, iri: &Name, flight: u32) -> Result<(), NoMemory>
        ensures ok { OnOk result (seen self.new ≡ after.after_revise_led (seen self.old) session iri.now flight) }
        ensures unchanged { OnErr result (seen self.new ≡ seen self.old) }
    {
        let begun = begin(iri, Kind::Revise, session)?;
        let key = iri.share()?;
        self.flights.reserve(1)?;
        self.revisions.insert(key, Flying { flight, session })?;
        refresh(
            &mut self.order,
            &self.stored,
            &self.index.holders,
            &self.revisions,
            iri,
        );
        tell(
            &mut self.sessions,
            &mut self.index,
            session,
            Last::ReviseLed { flight },
        );
        self.flights.push(begun)?;
        Ok(())
    }

    pub fn answered(&mut self, session: u32)
        ensures { seen self.new ≡ after.after_answered (seen self.old) session }
    {
        let held = release(self.alloc, &mut self.sessions, &mut self.index, session);
        refresh_all(
            &mut self.order,
            &self.stored,
            &self.index.holders,
            &self.revisions,
            held.as_slice(),
        );
    }

    pub fn closed(&mut self, session: u32)
        requires { may_close (seen self.old) session ≡ true }
        ensures { seen self.new ≡ after.after_closed (seen self.old) session }
    {
        if let Some(s) = self.sessions.remove(&session) {
            self.index.seats.remove(&s.seat);
        }
    }
}

/// Whether the session is open and has no request under way.
fn is_idle(sessions: &BTreeMap<u32, Session>, number: u32) -> bool
    ensures { result ≡ is_some_and (λ s. is_idle s.last) (at_number sessions.now.entries number) }
{
    match sessions.get(&number) {
        Some(s) => s.last.is_idle(),
        None => false,
    }
}

/// Whether the session is open and has a request under way.
fn is_busy(sessions: &BTreeMap<u32, Session>, number: u32) -> bool
    ensures { result ≡ is_some_and has_request (at_number sessions.now.entries number) }
{
    match sessions.get(&number) {
        Some(s) => s.has_request(),
        None => false,
    }
}

fn pin(
    sessions: &mut BTreeMap<u32, Session>,
    index: &mut Index,
    number: u32,
    request: u32,
    attempt: u32,
    version: u64,
)
    requires { IsIndex sessions.old.entries index.old }
    ensures sessions { sessions.new.entries ≡ after.changed sessions.old.entries number (λ s. record s { request = request; attempt = attempt; version = version; last = Last.Pinned }) }
    ensures numbers { keys_of sessions.new.entries ≡ keys_of sessions.old.entries }
    ensures index { IsIndex sessions.new.entries index.new }
    ensures holders { index.new.holders ≡ index.old.holders }
{
    let was_idle = is_idle(sessions, number);
    set_pin(sessions, number, request, attempt, version);
    index.begin(was_idle);
}

fn set_pin(
    sessions: &mut BTreeMap<u32, Session>,
    number: u32,
    request: u32,
    attempt: u32,
    version: u64,
)
    ensures { sessions.new.entries ≡ after.changed sessions.old.entries number (λ s. record s { request = request; attempt = attempt; version = version; last = Last.Pinned }) }
{
    if let Some(s) = sessions.get_mut(&number) {
        s.request = request;
        s.attempt = attempt;
        s.version = version;
        s.last = Last::Pinned;
    }
}

fn tell(sessions: &mut BTreeMap<u32, Session>, index: &mut Index, number: u32, last: Last)
    requires index { IsIndex sessions.old.entries index.old }
    requires busy { is_idle last ≡ false }
    ensures sessions { sessions.new.entries ≡ after.told sessions.old.entries number last }
    ensures numbers { keys_of sessions.new.entries ≡ keys_of sessions.old.entries }
    ensures index { IsIndex sessions.new.entries index.new }
    ensures holders { index.new.holders ≡ index.old.holders }
{
    let was_idle = is_idle(sessions, number);
    set_last(sessions, number, last);
    index.begin(was_idle);
}

fn set_last(sessions: &mut BTreeMap<u32, Session>, number: u32, last: Last)
    ensures { sessions.new.entries ≡ after.told sessions.old.entries number last }
{
    if let Some(s) = sessions.get_mut(&number) {
        s.last = last;
    }
}

fn hold(
    alloc: Global,
    sessions: &mut BTreeMap<u32, Session>,
    index: &mut Index,
    number: u32,
    iri: &Name,
    last: Last,
) -> Result<(), NoMemory>
    requires index { IsIndex sessions.old.entries index.old }
    requires busy { is_idle last ≡ false }
    ensures ok { OnOk result (sessions.new.entries ≡ after.holding sessions.old.entries number iri.now last) }
    ensures unchanged { OnErr result (sessions.new.entries ≡ sessions.old.entries) }
    ensures numbers { keys_of sessions.new.entries ≡ keys_of sessions.old.entries }
    ensures index { IsIndex sessions.new.entries index.new }
    ensures alike { IsHeldAlike (iri.now ∷ []) index.old.holders.entries index.new.holders.entries }
{
    if !sessions.contains_key(&number) {
        return Ok(());
    }
    let was_idle = is_idle(sessions, number);
    let held = iri.share()?;
    let first = list_holder(alloc, &mut index.holders, iri, number)?;
    match push_held(sessions, number, held, last) {
        Ok(()) => {
            index.begin(was_idle);
            Ok(())
        }
        Err(e) => {
            undo_listing(&mut index.holders, iri, number, first);
            Err(e)
        }
    }
}

#[tactic(auto, using(std::proofs::lemmas::Map::Steps::set_value_same))]
fn push_held(
    sessions: &mut BTreeMap<u32, Session>,
    number: u32,
    iri: Name,
    last: Last,
) -> Result<(), NoMemory>
    ensures ok { OnOk result (sessions.new.entries ≡ after.holding sessions.old.entries number iri last) }
    ensures unchanged { OnErr result (sessions.new.entries ≡ sessions.old.entries) }
{
    if let Some(s) = sessions.get_mut(&number) {
        if let Err((_, e)) = s.held.push(iri) {
            return Err(e);
        }
        s.last = last;
    }
    Ok(())
}

/// No request of the session is under way now. Answers what it held.
fn release(
    alloc: Global,
    sessions: &mut BTreeMap<u32, Session>,
    index: &mut Index,
    number: u32,
) -> Items<Name>
    requires { IsIndex sessions.old.entries index.old }
    ensures sessions { sessions.new.entries ≡ after.changed sessions.old.entries number (λ s. record s { held = []; last = Last.Idle }) }
    ensures numbers { keys_of sessions.new.entries ≡ keys_of sessions.old.entries }
    ensures index { IsIndex sessions.new.entries index.new }
    ensures alike { IsHeldAlike result index.old.holders.entries index.new.holders.entries }
{
    let was_busy = is_busy(sessions, number);
    unlist_session(sessions, &mut index.holders, number);
    let held = clear_held(alloc, sessions, number);
    index.end(was_busy);
    held
}

fn unlist_session(
    sessions: &BTreeMap<u32, Session>,
    holders: &mut BTreeMap<Name, BTreeSet<u32>>,
    number: u32,
)
    requires filled { AreFilled holders.old.entries }
    requires held { (q : List ℕ) → held_by holders.old.entries q number ≡ is_some_and (λ s. holds s q) (at_number sessions.now.entries number) }
    ensures filled { AreFilled holders.new.entries }
    ensures cleared { IsCleared holders.old.entries holders.new.entries number }
{
    if let Some(s) = sessions.get(&number) {
        unlist_all(holders, s.held.as_slice(), number);
    }
}

/// The session is idle and holds nothing. Answers what it held.
fn clear_held(alloc: Global, sessions: &mut BTreeMap<u32, Session>, number: u32) -> Items<Name>
    ensures held { (q : List ℕ) → is_among result q ≡ is_some_and (λ s. holds s q) (at_number sessions.old.entries number) }
    ensures sessions { sessions.new.entries ≡ after.changed sessions.old.entries number (λ s. record s { held = []; last = Last.Idle }) }
{
    match sessions.get_mut(&number) {
        Some(s) => {
            s.last = Last::Idle;
            mem::replace(&mut s.held, Items::new(alloc))
        }
        None => Items::new(alloc),
    }
}

#[tactic(auto, using(std::proofs::lemmas::Map::Steps::set_value_same))]
pub(crate) fn turn(
    turns: &mut BTreeMap<Name, Items<u64>>,
    iri: &Name,
    version: u64,
) -> Result<(), NoMemory>
    ensures ok { OnOk result (turns.new.entries ≡ after.turned turns.old.entries iri.now version) }
    ensures unchanged { OnErr result (turns.new.entries ≡ turns.old.entries) }
{
    if let Some(turns) = turns.get_mut(iri) {
        if let Err((_, e)) = turns.push(version) {
            return Err(e);
        }
    }
    Ok(())
}

fn begin(iri: &Name, kind: Kind, session: u32) -> Result<Flight, NoMemory>
    ensures { IfOk result (λ f. f ≡ record { iri = iri.now; kind = kind; session = session; end = End.UnderWay }) }
{
    let iri = iri.share()?;
    Ok(Flight {
        iri,
        kind,
        session,
        end: End::UnderWay,
    })
}

/// An entry for the IRI where it has none, and whether it had none.
fn name(alloc: Global, turns: &mut BTreeMap<Name, Items<u64>>, iri: &Name) -> Result<bool, NoMemory>
    ensures first { IfOk result (λ first. first ≡ not (is_some (at_iri turns.old.entries iri.now))) }
    ensures ok { OnOk result (turns.new.entries ≡ after.named turns.old.entries iri.now) }
    ensures unchanged { OnErr result (turns.new.entries ≡ turns.old.entries) }
{
    if turns.contains_key(iri) {
        return Ok(false);
    }
    let key = iri.share()?;
    turns.insert(key, Items::new(alloc))?;
    Ok(true)
}

/// Takes the entry away again, where it was new.
fn unname(turns: &mut BTreeMap<Name, Items<u64>>, iri: &Name, first: bool)
    ensures { turns.new.entries ≡ (if first then after.take_iri turns.old.entries iri.now else turns.old.entries) }
{
    if first {
        turns.remove(iri);
    }
}

#[tactic(auto, using(crate::proofs::Undo::undone))]
fn lead(
    alloc: Global,
    leads: &mut BTreeMap<Name, Flying>,
    sessions: &mut BTreeMap<u32, Session>,
    index: &mut Index,
    session: u32,
    iri: &Name,
    flight: u32,
) -> Result<(), NoMemory>
    requires absent { at_iri leads.old.entries iri.now ≡ None }
    requires index { IsIndex sessions.old.entries index.old }
    ensures leads { OnOk result (leads.new.entries ≡ after.put_iri leads.old.entries iri.now (record { flight = flight; session = session })) }
    ensures sessions { OnOk result (sessions.new.entries ≡ after.holding sessions.old.entries session iri.now (Last.Led flight)) }
    ensures no_lead { OnErr result (leads.new.entries ≡ leads.old.entries) }
    ensures no_session { OnErr result (sessions.new.entries ≡ sessions.old.entries) }
    ensures numbers { keys_of sessions.new.entries ≡ keys_of sessions.old.entries }
    ensures index { IsIndex sessions.new.entries index.new }
    ensures alike { IsHeldAlike (iri.now ∷ []) index.old.holders.entries index.new.holders.entries }
{
    let key = iri.share()?;
    leads.insert(key, Flying { flight, session })?;
    let last = Last::Led { flight };
    if let Err(e) = hold(alloc, sessions, index, session, iri, last) {
        leads.remove(iri);
        return Err(e);
    }
    Ok(())
}

fn kept_length(length: u32) -> u64
    ensures kept { result ≡ after.kept_length length }
    ensures few { result < 2 ^ 32 }
{
    if length == OVERSIZE {
        0
    } else {
        u64::from(length)
    }
}

/// The IRI stands in the store, and in the order at its version rather than a former one.
fn enter(
    stored: &mut BTreeMap<Name, Stored>,
    order: &mut Order,
    turns: &mut BTreeMap<Name, Items<u64>>,
    iri: &Name,
    entering: Stored,
) -> Result<(), NoMemory>
    requires order { IsOrder stored.old.entries order.old.published.entries }
    requires fresh { at_number order.old.published.entries entering.version ≡ None }
    ensures stored { OnOk result (stored.new.entries ≡ after.put_iri stored.old.entries iri.now entering) }
    ensures turns { OnOk result (turns.new.entries ≡ (if is_some (at_iri stored.old.entries iri.now) then turns.old.entries else after.turned turns.old.entries iri.now entering.version)) }
    ensures not_stored { OnErr result (stored.new.entries ≡ stored.old.entries) }
    ensures no_turn { OnErr result (turns.new.entries ≡ turns.old.entries) }
    ensures order { IsOrder stored.new.entries order.new.published.entries }
    ensures free { (holders : Holders) (revisions : List (List ℕ × Flying)) → IsFree [] order.old.published.entries order.old.free.items holders revisions → IsFree (iri.now ∷ []) order.new.published.entries order.new.free.items holders revisions }
{
    let version = entering.version;
    let former = version_of(stored, iri);
    order.list(version, iri)?;
    if let Err(e) = stand(stored, turns, iri, entering) {
        order.unlist(Some(version));
        return Err(e);
    }
    order.unlist(former);
    Ok(())
}

/// The IRI isn't under revision now.
fn end_revision(
    revisions: &mut BTreeMap<Name, Flying>,
    order: &mut Order,
    stored: &BTreeMap<Name, Stored>,
    holders: &BTreeMap<Name, BTreeSet<u32>>,
    iri: &Name,
)
    requires order { IsOrder stored.now.entries order.old.published.entries }
    requires free { IsFree [] order.old.published.entries order.old.free.items holders.now.entries revisions.old.entries }
    ensures revisions { revisions.new.entries ≡ after.take_iri revisions.old.entries iri.now }
    ensures published { order.new.published.entries ≡ order.old.published.entries }
    ensures free { IsFree [] order.new.published.entries order.new.free.items holders.now.entries revisions.new.entries }
{
    revisions.remove(iri);
    refresh(order, stored, holders, revisions, iri);
}

/// The IRI leaves the store.
pub(crate) fn leave(stored: &mut BTreeMap<Name, Stored>, order: &mut Order, iri: &Name)
    requires { IsOrder stored.old.entries order.old.published.entries }
    ensures stored { stored.new.entries ≡ after.take_iri stored.old.entries iri.now }
    ensures order { IsOrder stored.new.entries order.new.published.entries }
    ensures free { (holders : Holders) (revisions : List (List ℕ × Flying)) → IsFree [] order.old.published.entries order.old.free.items holders revisions → IsFree [] order.new.published.entries order.new.free.items holders revisions }
{
    let version = version_of(stored, iri);
    stored.remove(iri);
    order.unlist(version);
}

#[tactic(auto, using(crate::proofs::Undo::undone))]
fn stand(
    stored: &mut BTreeMap<Name, Stored>,
    turns: &mut BTreeMap<Name, Items<u64>>,
    iri: &Name,
    entering: Stored,
) -> Result<(), NoMemory>
    ensures stored { OnOk result (stored.new.entries ≡ after.put_iri stored.old.entries iri.now entering) }
    ensures turns { OnOk result (turns.new.entries ≡ (if is_some (at_iri stored.old.entries iri.now) then turns.old.entries else after.turned turns.old.entries iri.now entering.version)) }
    ensures not_stored { OnErr result (stored.new.entries ≡ stored.old.entries) }
    ensures no_turn { OnErr result (turns.new.entries ≡ turns.old.entries) }
{
    let version = entering.version;
    let key = iri.share()?;
    let former = stored.insert(key, entering)?;
    if former.is_some() {
        return Ok(());
    }
    if let Err(e) = turn(turns, iri, version) {
        stored.remove(iri);
        return Err(e);
    }
    Ok(())
}
