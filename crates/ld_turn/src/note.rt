//! Notes, by which seats that met tell each other what they have seen.

use crate::rule::View;
use crate::told::Told;
use std::marker::Model;

/// What a seat had seen when it wrote the note. It counts for no seat. Contracts see its lock and that front.
#[derive(Drop)]
pub struct Note<V: Told> {
    pub(crate) seat: atomic_table::Seat<Option<V>, View<V::Entry>>,
}

impl<V: Told> Model for Note<V> {
    ghost use Rattle.std.specs.Prelude.{◌≡◌};
    ghost use Rattle.ld_turn.specs.Known.{Noted};
    ghost use Rattle.ld_turn.specs.Views.{noted_of, IsIdle};

    ghost Value = { Noted V.Entry };

    ghost view = { λ n. noted_of n.seat.table_id n.seat.me.0 };

    ghost invariant = { λ n. IsIdle n.seat.me × (n.seat.me.0.seats ≡ 0) };
}
