//! What the lock's table keeps: the words, the slot of the value, and what each seat knows.

use crate::told::Told;
use atomic_table::TableRule;
use std::collections::LinkedList;
use std::marker::PhantomData;
use std::snapshot::Snapshot;

/// What a seat is at. A ticket is counted from the lock's start, and doesn't wrap.
pub enum Stage {
    Idle,
    /// It may add to the count of seats.
    Asking,
    /// It has a number for the seat that is cut from it.
    Giving(u64),
    Waiting(u64),
    Holding(u64),
}

/// What a seat knows. No value of it is made.
pub struct View<E> {
    pub stage: Stage,
    /// How many seats it stands for.
    pub seats: u64,
    pub number: u64,
    /// So many seats had been made when it last looked.
    pub made: u64,
    /// The beginning of the history that it has seen.
    pub front: LinkedList<E>,
    /// The places of its own entries there.
    pub own: LinkedList<u64>,
    /// What seats that it took in had seen.
    pub olds: LinkedList<LinkedList<E>>,
}

pub struct TurnRule<V> {
    of: PhantomData<V>,
}

impl<V: Told> TableRule<Option<V>, View<V::Entry>, Snapshot<V>> for TurnRule<V> {
    ghost use Rattle.ld_turn.specs.Rule.{Kept};
    ghost use Rattle.ld_turn.specs.Views.{first_view};

    ghost holds = { λ _. Kept V.list V.seat_of };

    ghost first = { λ key. first_view (V.list key.value) };
}
