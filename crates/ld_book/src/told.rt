//! The book behind a turn lock.
use crate::book::Book;
use crate::page::Line;
use ld_turn::Told;

/// A page belongs to the seat of the session that its entry belongs to.
impl Told for Book {
    ghost use Rattle.ld_book.specs.Seats.{lines_of, seat_of, stays};

    type Entry = Line;

    ghost list = { lines_of };

    ghost seat_of = { seat_of };

    fn told(&self) -> u64 {
        self.events()
    }

    ghost stays = { stays };
}
