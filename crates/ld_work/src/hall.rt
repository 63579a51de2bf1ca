//! What the workers share, from its making to its close.
ghost use Rattle.std.specs.Prelude.{◌≡◌, [], All, IfOk, OnOk};
ghost use Rattle.ld_book.specs.Seats.{lines_of};
ghost use Rattle.ld_moves.specs.Stocks.{IsSound};
ghost use Rattle.ld_turn.specs.Known.{AllSaw};

use ld_book::{Bell, Blank, Book, Hall, Seats};
use ld_history::Limits;
use ld_tree::NoMemory;
use ld_turn::{Seat, TurnLock};
use std::alloc::Global;

/// A hall with an empty book under the limits of a server, and its first seats.
pub(crate) fn open_hall(alloc: Global) -> Result<(Hall<Blank>, Seats<Blank>), NoMemory>
    ensures book { IfOk result (λ r. r.1.book.lock ≡ r.0.book) }
    ensures library { IfOk result (λ r. r.1.library.lock ≡ r.0.library) }
    ensures unseen { IfOk result (λ r. r.1.book.front ≡ []) }
{
    let Ok((book, book_seat)) = TurnLock::start(alloc, Book::new(alloc, Limits::server())?) else {
        return Err(NoMemory);
    };
    let Ok((library, library_seat)) = TurnLock::start(alloc, Blank) else {
        return Err(NoMemory);
    };
    let hall = Hall {
        book,
        library,
        bell: Bell::new(),
    };
    let seats = Seats {
        book: book_seat,
        library: library_seat,
    };
    Ok((hall, seats))
}

/// One more seat at each lock, which has seen as much.
pub(crate) fn split_seats(
    hall: &Hall<Blank>,
    seats: &mut Seats<Blank>,
) -> Result<Seats<Blank>, NoMemory>
    requires book { seats.old.book.lock ≡ hall.now.book }
    requires library { seats.old.library.lock ≡ hall.now.library }
    ensures same_book { seats.new.book.lock ≡ seats.old.book.lock }
    ensures same_library { seats.new.library.lock ≡ seats.old.library.lock }
    ensures same_front { seats.new.book.front ≡ seats.old.book.front }
    ensures book { IfOk result (λ s. s.book.lock ≡ hall.now.book) }
    ensures library { IfOk result (λ s. s.library.lock ≡ hall.now.library) }
    ensures front { IfOk result (λ s. s.book.front ≡ seats.old.book.front) }
{
    // No lock of a server has so many seats that it refuses one.
    let Ok(book) = hall.book.split(&mut seats.book) else {
        return Err(NoMemory);
    };
    let Ok(library) = hall.library.split(&mut seats.library) else {
        return Err(NoMemory);
    };
    Ok(Seats { book, library })
}

/// All seats of a hall.
#[derive(Drop)]
pub(crate) struct AllSeats {
    pub book: Vec<Seat<Book>>,
    pub library: Vec<Seat<Blank>>,
}

impl AllSeats {
    ghost use Rattle.std.specs.Prelude.{◌∷◌, ◌++◌};

    /// None yet.
    pub(crate) fn new(alloc: Global) -> AllSeats
        ensures book { result.book.items ≡ [] }
        ensures library { result.library.items ≡ [] }
    {
        AllSeats {
            book: Vec::new(alloc),
            library: Vec::new(alloc),
        }
    }

    pub(crate) fn add(&mut self, seats: Seats<Blank>) -> Result<(), NoMemory>
        ensures book { OnOk result (self.new.book.items ≡ self.old.book.items ++ seats.book ∷ []) }
        ensures library { OnOk result (self.new.library.items ≡ self.old.library.items ++ seats.library ∷ []) }
    {
        let Seats { book, library } = seats;
        self.book.push(book)?;
        self.library.push(library)?;
        Ok(())
    }
}

/// Closes both locks, and gives the book back, which is sound and goes on from what each seat has seen.
pub(crate) fn close_hall(hall: Hall<Blank>, seats: AllSeats) -> Result<Book, NoMemory>
    requires book { All (λ s. s.lock ≡ hall.book) seats.book.items }
    requires library { All (λ s. s.lock ≡ hall.library) seats.library.items }
    ensures saw { IfOk result (λ book. AllSaw (lines_of book) seats.book.items) }
    ensures sound { IfOk result (λ book. IsSound book.limits book.pages) }
{
    let Hall {
        book,
        library,
        bell: _,
    } = hall;
    // No seat is missing, so that each lock is closed.
    let Ok(Blank) = library.close(seats.library) else {
        return Err(NoMemory);
    };
    let Ok(book) = book.close(seats.book) else {
        return Err(NoMemory);
    };
    let _events = book.events();
    Ok(book)
}
