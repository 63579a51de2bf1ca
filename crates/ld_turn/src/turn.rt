//! Turns.
ghost use Rattle.std.specs.Prelude.{◌≡◌};

use crate::rule::View;
use crate::told::Told;
use std::marker::Model;

/// A seat's turn at the value. It has no `Drop`: it ends in [`TurnLock::leave`](crate::TurnLock::leave), which
/// alone gives the value back. Contracts see the seat, with the front that the turn found, and the value.
pub struct Turn<V: Told> {
    pub(crate) seat: atomic_table::Seat<Option<V>, View<V::Entry>>,
    pub(crate) number: u32,
    pub(crate) before: u64,
    pub(crate) value: V,
}

impl<V: Told> Model for Turn<V> {
    ghost use Rattle.std.specs.Prelude.{◌≡◌, length};
    ghost use Rattle.ld_turn.specs.Known.{Turning};
    ghost use Rattle.ld_turn.specs.Views.{known_of, IsOut, Sits};

    ghost Value = { Turning V V.Entry };

    ghost view = { λ t. record { seat = known_of t.seat.table_id t.seat.me.0; value = t.value } };

    ghost invariant = { λ t. IsOut t.seat.me × Sits t.number t.seat.me.0 × (t.before ≡ length t.seat.me.0.front) };
}

impl<V: Told> Turn<V> {
    ghost use Rattle.std.specs.Borrow.{sem};
    ghost use Rattle.ld_turn.specs.Lending.{LendsValue};

    /// The value, while the turn lasts.
    pub fn value(&mut self) -> &mut V
        ensures* lends { sem 𝓛 (LendsValue V.row V.Entry.row V.list V.seat_of self.entry result) }
        ensures value { result.now ≡ self.old.value }
    {
        &mut self.value
    }
}
