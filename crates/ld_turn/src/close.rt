//! The lock's end: all seats come back, and the value.
ghost use Rattle.std.specs.Prelude.{◌≡◌, ◌≢◌, ◌<◌, ◌≤◌, ℕ, [], length, All, Any, IfErr, IfNone, IfOk, IfSome, MatchOption, OnOk};
ghost use Rattle.std.specs.List.{AllZip};
ghost use Rattle.ld_turn.specs.Known.{AllSaw, IsRecounted};
ghost use Rattle.ld_turn.specs.Views.{StandsFor};
ghost use Rattle.ld_turn.specs.declared.close.CloseRefusal.TheVariants.{Missing};

use crate::lock::{MADE, MOST, TurnLock};
use crate::rule::View;
use crate::seat::Seat;
use crate::steps::{Count, Glue};
use crate::told::Told;

/// Why a lock was not closed.
#[derive(Debug, Drop, PartialEq, Eq)]
pub enum CloseRefusal {
    /// Not all seats that were made were given.
    Missing { given: u64, made: u64 },
    /// There was no memory. It never comes: a close takes none.
    NoMemory,
}

impl<V: Told + Drop> TurnLock<V> {
    /// Ends the lock and gives the value back, where all its seats are given. What each seat has seen is a
    /// beginning of the value's history. Without a seat, the number of seats made is the one that the lock
    /// shows at this moment.
    pub fn close(self, seats: Vec<Seat<V>>) -> Result<V, (TurnLock<V>, Vec<Seat<V>>, CloseRefusal)>
        requires of_lock { All (λ s. s.lock ≡ self) seats.items }
        ensures fronts { IfOk result (λ v. AllSaw (V.list v) seats.items) }

        // No seat knows of more seats than were given.
        ensures whole { OnOk result ((0 < length seats.items) × All (λ s. s.made ≤ length seats.items) seats.items) }

        // Some seat that was given has seen that so many were made, and it wasn't so many that were given.
        ensures missing { IfErr result (λ r. (made : ℕ) × (r.2 ≡ Missing (length seats.items) made)
            × (made ≢ length seats.items) × (0 < length seats.items → Any (λ s. s.made ≡ made) r.1.items)) }
        ensures back { IfErr result (λ r. (r.0 ≡ self) × AllZip IsRecounted seats.items r.1.items) }
    {
        let mut seats = seats;
        let given = seats.len() as u64;
        if given == 0 {
            let made = self.table.shared.peek(MADE).min(MOST).max(1);
            return Err((self, seats, CloseRefusal::Missing { given, made }));
        }
        if let Some(made) = self.count_all(&mut seats) {
            return Err((self, seats, CloseRefusal::Missing { given, made }));
        }
        let all = self.join_all(seats).unwrap();
        let TurnLock { table } = self;
        let mut closed = table.close_with(all);
        let value = closed.take(0).unwrap();
        closed.free();
        Ok(value)
    }

    // How many seats were made.
    fn count(&self, seat: &mut Seat<V>) -> u64
        requires of_lock { seat.old.lock ≡ self.now }
        ensures made { seat.new ≡ record seat.old { made = result } }
        ensures grows { seat.old.made ≤ result }
    {
        self.table
            .shared
            .load::<Count>(&mut seat.seat, MADE)
            .min(MOST)
    }

    // How many seats were made, if not these.
    fn count_all(&self, seats: &mut Vec<Seat<V>>) -> Option<u64>
        requires of_lock { All (λ s. s.lock ≡ self.now) seats.old.items }
        ensures same { AllZip IsRecounted seats.old.items seats.new.items }
        ensures these { IfNone result (All (λ s. s.made ≡ length seats.old.items) seats.new.items) }
        ensures others { IfSome result (λ m. (m ≢ length seats.old.items) × Any (λ s. s.made ≡ m) seats.new.items) }
    {
        let given = seats.len();
        for i in 0..given {
            let made = self.count(&mut seats[i]);
            if made != given as u64 {
                return Some(made);
            }
        }
        None
    }

    // One seat that stands for all.
    fn join_all(&self, seats: Vec<Seat<V>>) -> Option<atomic_table::Seat<Option<V>, View<V::Entry>>>
        requires of_lock { All (λ s. s.lock ≡ self.now) seats.items }
        requires counted { All (λ s. s.made ≡ length seats.items) seats.items }
        ensures { MatchOption result (seats.items ≡ [])
            (λ s. StandsFor self.now (length seats.items) seats.items s.table_id s.me) }
    {
        let mut seats = seats;
        let first = seats.pop()?;
        let Seat {
            seat: mut all,
            number: _,
        } = first;
        while let Some(next) = seats.pop() {
            let Seat { seat, number: _ } = next;
            self.table.shared.join_seat::<Glue>(&mut all, seat);
        }
        Some(all)
    }
}
