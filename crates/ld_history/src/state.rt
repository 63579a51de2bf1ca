//! A history with the tables that a step reads, and the one way in which it grows.
ghost use Rattle.std.specs.Prelude.{◌≡◌, ◌+◌, ◌≤◌, [], ◌∷◌, ◌++◌, length, slice_get, option_copied, true, false, IfOk, OnOk, OnErr};
ghost use Rattle.ld_history.specs.ByTurns.{allows};
ghost use Rattle.ld_history.specs.Legal as legal;
ghost use Rattle.ld_history.specs.Steps.{plain};
ghost use Rattle.ld_history.specs.Ahead.{promised, rise};
ghost use Rattle.ld_history.specs.Ready.{ahead, is_ending};
ghost use Rattle.ld_history.specs.Seen.{seen};

use crate::event::{Entry, Event};
use crate::limits::Limits;
use crate::name::{Answer, Name};
use crate::refusal::StepRefusal;
use crate::steps::plain;
use crate::tables::Tables;
use ld_blocks::Blocks;
use ld_tree::NoMemory;
use std::alloc::Global;
use std::marker::Model;

/// A history under limits, each entry of which the rules allow after those before it. Contracts see
/// the limits and the list of entries.
#[derive(Debug, Drop)]
pub struct State {
    pub(crate) limits: Limits,
    pub(crate) history: Blocks<Entry<Name, Answer>>,
    pub(crate) tables: Tables,
}

impl Model for State {
    ghost use Rattle.ld_history.specs.Legal.{History};

    ghost Value = { History };

    ghost use Rattle.ld_history.specs.Seen.{seen};
    ghost use Rattle.ld_history.specs.Ready.{IsReady};

    ghost view = { λ s. record { limits = s.limits; entries = s.history.items } };

    ghost invariant = { λ s. IsReady s.limits s.history (seen s.tables) };
}

impl State {
    /// The empty history under these limits.
    pub fn new(alloc: Global, limits: Limits) -> Result<State, NoMemory>
        requires { legal.AreWithin limits }
        ensures { IfOk result (λ state. state ≡ record { limits = limits; entries = [] }) }
    {
        let history = Blocks::new(alloc)?;
        Ok(State {
            limits,
            history,
            tables: Tables::new(alloc),
        })
    }
}

impl State {
    /// The limits that the history is under.
    pub fn limits(&self) -> Limits
        ensures { result ≡ self.now.limits }
    {
        self.limits
    }

    /// The entry at this place, counted from 0. The history keeps IRIs that share their texts.
    pub fn entry(&self, place: u64) -> Option<&Entry<Name, Answer>>
        ensures { option_copied result ≡ slice_get self.now.entries place }
    {
        self.history.get(place as usize)
    }

    /// How many entries the history has. It is legal: the rules allow each entry after those before it.
    pub fn events(&self) -> u64
        ensures count { result ≡ length self.now.entries }
        ensures legal { legal.Legal self.now.limits self.now.entries }
    {
        self.history.len() as u64
    }
}

/// Appends the entry to the history exactly where the rules allow it there. Either refusal leaves the
/// history as it was. Its time is logarithmic in what the tables hold, for each context that the session
/// holds, of which there are at most 64; but where a context may go or may go no more, the versions after
/// its own, at most one for each stored context, are moved by one place.
pub fn step(alloc: Global, state: &mut State, entry: Entry) -> Result<(), StepRefusal>
    ensures allowed { OnOk result (legal.is_allowed state.old.limits state.old.entries entry ≡ true) }
    ensures appended { OnOk result (state.new ≡ record state.old { entries = state.old.entries ++ entry ∷ [] }) }
    ensures refused { result ≡ Err StepRefusal.NotAllowed → legal.is_allowed state.old.limits state.old.entries entry ≡ false }
    ensures unchanged { OnErr result (state.new ≡ state.old) }
{
    let entry = state.tables.keep(alloc, entry)?;
    if !state.tables.allows(&state.limits, &entry) {
        return Err(StepRefusal::NotAllowed);
    }
    append(alloc, state, entry)?;
    Ok(())
}

/// Appends an entry that the rules allow.
pub(crate) fn append(
    alloc: Global,
    state: &mut State,
    entry: Entry<Name, Answer>,
) -> Result<(), NoMemory>
    requires { allows state.old.limits (legal.state state.old.entries) entry ≡ true }
    ensures appended { OnOk result (state.new ≡ record state.old { entries = state.old.entries ++ entry ∷ [] }) }
    ensures unchanged { OnErr result (state.new ≡ state.old) }
{
    take_room(&mut state.history, &state.tables, &entry.event)?;
    state.tables.take(alloc, &entry)?;
    state.history.push(entry);
    Ok(())
}

/// Appends an event that the rules allow and that ends a flight, a request or a session. Takes no memory.
pub(crate) fn append_end(state: &mut State, event: Event<Name>)
    requires ends { is_ending event ≡ true }
    requires allowed { allows state.old.limits (legal.state state.old.entries) (plain event) ≡ true }
    ensures { state.new ≡ record state.old { entries = state.old.entries ++ plain event ∷ [] } }
{
    state.tables.take_end(&event);
    state.history.push(plain(event));
}

/// Takes the room that the event's entry promises, itself among it. Where it promises nothing the room is there.
fn take_room(
    history: &mut Blocks<Entry<Name, Answer>>,
    tables: &Tables,
    event: &Event<Name>,
) -> Result<(), NoMemory>
    requires ready { promised history.old.items ≤ history.old.capacity }
    requires most { promised history.old.items ≤ length history.old.items + ahead (seen tables.now) }
    ensures items { history.new.items ≡ history.old.items }
    ensures kept { history.old.capacity ≤ history.new.capacity }
    ensures room { OnOk result (promised history.old.items + rise event.now ≤ history.new.capacity) }
{
    let rise = event.rise();
    if rise > 0 {
        history.reserve(tables.ahead() + rise)?;
    }
    Ok(())
}
