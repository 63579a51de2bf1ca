//! The lock: its start, and what a seat may ask of it while it has no turn.
ghost use Rattle.std.specs.Prelude.{◌≡◌, ◌+◌, ◌<◌, ◌≤◌, [], All, IfErr, IfOk, IsOk, slice_index};
ghost use mathlib.Core.List.{IsPrefix};
ghost use Rattle.ld_turn.specs.History.{IsNobodys};
ghost use Rattle.ld_turn.specs.Rule.{Reads};
ghost use Rattle.ld_turn.specs.declared.lock.SplitRefusal.TheVariants.{SeatsOut};

use crate::note::Note;
use crate::rule::{TurnRule, View};
use crate::seat::Seat;
use crate::steps::{Ask, Copy, Cut, Glue, Meet, Number};
use crate::told::Told;
use atomic_table::{Refused, Table};
use std::alloc::{AllocError, AllocFailed, Global};
use std::marker::Model;
use std::snapshot::Snapshot;

/// The tickets that were drawn.
pub(crate) const TICKET: usize = 0;

/// The ticket that is served.
pub(crate) const SERVING: usize = 1;

/// The length of the history.
pub(crate) const TOLD: usize = 2;

/// The numbers of seats that were drawn.
pub(crate) const MADE: usize = 3;

/// The first of the bells, one for each seat that may wait: 1 where it sleeps.
pub(crate) const BELLS: usize = 4;

/// The most seats of a lock.
pub(crate) const MOST: u64 = 256;

/// A lock over a value that stands for a history. Its seats take turns at the value, in the order of tickets.
#[derive(Drop)]
pub struct TurnLock<V: Told> {
    pub(crate) table: Table<Option<V>, View<V::Entry>, Snapshot<V>, TurnRule<V>, Global>,
}

impl<V: Told> Model for TurnLock<V> {
    ghost use Rattle.std.specs.Prelude.{◌≡◌};
    ghost use Rattle.ld_turn.specs.Known.{LockId};

    ghost Value = { LockId };

    ghost view = { λ l. l.table.shared.table_id };

    ghost invariant = { λ l. (l.table.shared.table_id.words ≡ 260) × (l.table.shared.table_id.slots ≡ 1) };
}

/// Why a seat was not split.
#[derive(Debug, Drop, PartialEq, Eq)]
pub enum SplitRefusal {
    /// The lock has all the seats that it may have, 256.
    SeatsOut,
    /// There was no memory. It never comes: a seat takes none.
    NoMemory,
}

// The words of a lock that no seat has asked yet.
fn first_words(told: u64) -> [u64; 260]
    ensures reads { Reads 0 0 told result }
    ensures made { slice_index result 3 ≡ 1 }
{
    let mut words = [0; 260];
    words[TOLD] = told;
    words[MADE] = 1;
    words
}

impl<V: Told + Drop> TurnLock<V> {
    /// A lock over the value, and its first seat, whose number is 0. Without memory the value comes back.
    pub fn start(alloc: Global, value: V) -> Result<(TurnLock<V>, Seat<V>), (V, AllocError)>
        requires { IsNobodys V.seat_of (V.list value) }
        ensures first { IfOk result (λ r.
            r.1 ≡ record { lock = r.0; number = 0; made = 1; front = V.list value; own = [] }) }
        ensures back { IfErr result (λ r. r.0 ≡ value) }
    {
        let words = first_words(value.told());
        let key = Snapshot::of(&value);
        let mut slots = Vec::new(alloc);
        if let Err(failed) = slots.push(Some(value)) {
            let AllocFailed { value } = failed;
            return Err((value.unwrap(), AllocError));
        }
        match Table::new(alloc, &words, slots, &key) {
            Ok((table, seat)) => Ok((TurnLock { table }, Seat { seat, number: 0 })),
            Err(Refused { mut slots }) => Err((slots.pop().unwrap().unwrap(), AllocError)),
        }
    }

    /// One more seat, which has seen what this one has seen. Its number is that of the seats made before.
    pub fn split(&self, seat: &mut Seat<V>) -> Result<Seat<V>, SplitRefusal>
        requires of_lock { seat.old.lock ≡ self.now }
        ensures same { seat.new ≡ record seat.old { made = seat.new.made } }
        ensures made { IfOk result (λ s. s ≡ record seat.new { number = s.number; own = [] }) }
        ensures number { IfOk result (λ s. (seat.old.made ≤ s.number) × (s.number < 256) × (s.made ≡ s.number + 1)) }

        // There are 256 seats.
        ensures out { IfErr result (λ e. (e ≡ SeatsOut) × (seat.new.made ≡ 256)) }
    {
        let shared = &self.table.shared;
        if shared.load::<Ask>(&mut seat.seat, MADE) >= MOST {
            return Err(SplitRefusal::SeatsOut);
        }
        let number = shared.fetch_add::<Number>(&mut seat.seat, MADE, 1);
        if number >= MOST {
            return Err(SplitRefusal::SeatsOut);
        }
        Ok(Seat {
            seat: shared.split_seat::<Cut>(&mut seat.seat),
            number: number as u32,
        })
    }

    /// A note of what the seat has seen, for another seat of the lock. It takes no memory, so it is always
    /// written.
    pub fn note(&self, seat: &mut Seat<V>) -> Result<Note<V>, AllocError>
        requires of_lock { seat.old.lock ≡ self.now }
        ensures same { seat.new ≡ seat.old }
        ensures written { IsOk result }
        ensures note { IfOk result (λ n. n ≡ record { lock = seat.old.lock; front = seat.old.front }) }
    {
        Ok(Note {
            seat: self.table.shared.split_seat::<Copy>(&mut seat.seat),
        })
    }

    /// The seat sees the history so far, which begins with its own front and with the note's.
    pub fn meet(&self, seat: &mut Seat<V>, note: Note<V>)
        requires of_lock { seat.old.lock ≡ self.now }
        requires note { note.lock ≡ self.now }
        ensures same { seat.new ≡ record seat.old { front = seat.new.front } }
        ensures front { IsPrefix seat.old.front seat.new.front }
        ensures noted { IsPrefix note.front seat.new.front }
    {
        let Note { seat: other } = note;
        let shared = &self.table.shared;
        shared.join_seat::<Glue>(&mut seat.seat, other);
        shared.load::<Meet>(&mut seat.seat, TOLD);
    }
}
