//! Seats, the notes that they give one another, and turns.
ghost use Rattle.std.specs.Prelude.{◌≡◌, ◌<◌};

use crate::rule::View;
use crate::told::Told;
use std::marker::Model;

/// A place at the lock, for one thread at a time. Contracts see what it knows: its lock, its number, how many
/// seats had been made when it last looked, the front, which is the beginning of the history that it has
/// seen, and the places of its own entries there.
#[derive(Drop)]
pub struct Seat<V: Told> {
    pub(crate) seat: atomic_table::Seat<Option<V>, View<V::Entry>>,
    pub(crate) number: u32,
}

impl<V: Told> Model for Seat<V> {
    ghost use Rattle.ld_turn.specs.Known.{Known};
    ghost use Rattle.ld_turn.specs.Views.{known_of, Sits, IsIdle};

    ghost Value = { Known V.Entry };

    ghost view = { λ s. known_of s.seat.table_id s.seat.me.0 };

    ghost invariant = { λ s. IsIdle s.seat.me × Sits s.number s.seat.me.0 };
}

impl<V: Told> Seat<V> {
    /// The number of the seat, which no other seat of the lock has.
    pub fn number(&self) -> u32
        ensures number { result ≡ self.now.number }
        ensures few { result < 256 }
    {
        self.number
    }
}
