//! The state after a history as the code keeps it.
ghost use Rattle.std.specs.Prelude.{◌≡◌, true, []};
ghost use Rattle.std.specs.Map.{keys_of};
ghost use Rattle.std.proofs.Props.{props};
ghost use Rattle.ld_history.specs.Turns.{are_turns};
ghost use Rattle.ld_history.specs.Index.{IsIndex, are_numbered};
ghost use Rattle.ld_history.specs.Order.{IsOrder, ArePast, IsFree};

use crate::index::Index;
use crate::name::Name;
use crate::order::Order;
use crate::session::{Eviction, Flight, Flying, Session, Stored};
use ld_tree::Items;
use std::alloc::Global;
use std::collections::BTreeMap;

/// The state after a history, kept so that a step finds what it needs.
#[derive(Debug, Drop)]
pub(crate) struct Tables {
    pub alloc: Global,
    pub version: u64,
    pub events: u64,
    pub bytes: u64,
    pub opened: u32,
    pub sessions: BTreeMap<u32, Session>,
    pub flights: Vec<Flight>,
    pub leads: BTreeMap<Name, Flying>,
    pub revisions: BTreeMap<Name, Flying>,
    pub stored: BTreeMap<Name, Stored>,
    pub turns: BTreeMap<Name, Items<u64>>,
    pub evicted: Option<Eviction>,
    pub index: Index,
    /// Each text that an entry names. Equal ones share it.
    pub texts: BTreeMap<Name, ()>,
    pub order: Order,
    ghost in_turn: { are_turns version turns.entries ≡ true },
    ghost numbered: { are_numbered opened (keys_of sessions.entries) ≡ true },
    ghost indexed: { IsIndex sessions.entries index } by { Prim.hlevel props },
    ghost ordered: { IsOrder stored.entries order.published.entries } by { Prim.hlevel props },
    ghost free: { IsFree [] order.published.entries order.free.items index.holders.entries revisions.entries } by { Prim.hlevel props },
    ghost past: { ArePast version stored.entries } by { Prim.hlevel props },
}
