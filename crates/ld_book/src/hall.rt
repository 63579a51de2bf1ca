//! What the workers of a server share.

use crate::bell::Bell;
use crate::book::Book;
use ld_turn::{Seat, Told, TurnLock};

/// What the workers share: the book and the library of contexts, each behind a turn lock of its own, and the bell for
/// those who wait for a flight of another.
#[derive(Drop)]
pub struct Hall<V: Told> {
    pub book: TurnLock<Book>,
    pub library: TurnLock<V>,
    pub bell: Bell,
}

/// A worker's seats at the two locks of a hall.
#[derive(Drop)]
pub struct Seats<V: Told> {
    pub book: Seat<Book>,
    pub library: Seat<V>,
}

/// A library that holds nothing.
#[derive(Debug, Drop)]
pub struct Blank;

impl Told for Blank {
    ghost use Rattle.std.specs.Prelude.{[], None, refl};

    type Entry = ();

    ghost list = { λ b. [] };

    ghost seat_of = { λ list place. None };

    fn told(&self) -> u64 {
        0
    }

    ghost stays = { λ xs ys i within. refl };
}
