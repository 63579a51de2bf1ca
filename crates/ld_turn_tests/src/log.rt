//! A log of marks, each by one seat.
ghost use Rattle.std.specs.Prelude.{◌≡◌, [], length};
ghost use mathlib.Core.List.{IsPrefix};

use ld_turn::Told;
use std::alloc::{AllocError, Global};

/// The mark of a seat, with its count.
#[derive(Clone, Copy)]
pub struct Mark {
    pub seat: u32,
    pub count: u32,
}

#[derive(Drop)]
pub struct Log {
    pub marks: Vec<Mark>,
}

impl Told for Log {
    ghost use Rattle.std.specs.Prelude.{Some};
    ghost use Rattle.ld_turn.specs.History.{said_by, said_by_stays};

    type Entry = Mark;

    ghost list = { λ l. l.marks.items };

    ghost seat_of = { said_by (λ m. Some m.seat) };

    fn told(&self) -> u64 {
        self.marks.len() as u64
    }

    ghost stays = { said_by_stays (λ m. Some m.seat) };
}

impl Log {
    ghost use Rattle.std.specs.Prelude.{Some};
    ghost use Rattle.ld_turn.specs.History.{IsOwnFrom, said_by};

    /// A log with no mark.
    pub fn new(alloc: Global) -> Log
        ensures { result.marks.items ≡ [] }
    {
        Log {
            marks: Vec::new(alloc),
        }
    }

    /// One mark more.
    pub fn add(&mut self, mark: Mark) -> Result<(), AllocError>
        ensures grows { IsPrefix self.old.marks.items self.new.marks.items }
        ensures own { IsOwnFrom (said_by (λ m. Some m.seat)) self.new.marks.items (length self.old.marks.items) mark.seat }
    {
        self.marks.push(mark)?;
        Ok(())
    }
}
