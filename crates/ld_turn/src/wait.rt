//! Turns are taken and left here, and a seat waits for its turn.
ghost use Rattle.std.specs.Prelude.{◌≡◌, ◌<◌, length};
ghost use mathlib.Core.List.{IsPrefix};
ghost use Rattle.ld_turn.specs.History.{Owns, IsQuietFrom, IsOwnFrom, own_after};

use crate::lock::{BELLS, SERVING, TICKET, TOLD, TurnLock};
use crate::rule::View;
use crate::seat::Seat;
use crate::steps::{Draw, Look, Pass, Ring, Tell};
use crate::told::Told;
use crate::turn::Turn;
use std::hint::spin_loop;
use std::sync::Wait;

/// How often the seat that is next looks before it sleeps. It takes about as long as to sleep and be woken.
const LOOKS: u32 = 128;

/// What a waiting seat does next.
#[derive(Clone, Copy)]
enum Patience {
    /// It has looked so often, and looks again.
    Looks(u32),
    /// It has said at its bell that it sleeps.
    Sleeps,
}

/// The bell of a ticket. Of the tickets that are out at one time, each has a bell of its own.
fn bell(ticket: u64) -> usize
    ensures { (3 < result) × (result < 260) }
{
    BELLS + (ticket % 256) as usize
}

impl<V: Told + Drop> TurnLock<V> {
    /// Waits for the seat's turn. The history that it finds begins with all that the seat has seen, and none of
    /// what has come since is the seat's. It may wait for ever, and nothing is said of who comes first.
    pub fn take<R: Wait>(&self, rt: &R, seat: Seat<V>) -> Turn<V>
        requires of_lock { seat.lock ≡ self.now }
        ensures seat { result.seat ≡ record seat { front = result.seat.front } }
        ensures value { V.list result.value ≡ result.seat.front }
        ensures front { IsPrefix seat.front result.seat.front }
        ensures own { Owns V.seat_of result.seat.front seat.number seat.own }
        ensures quiet { IsQuietFrom V.seat_of result.seat.front (length seat.front) seat.number }
    {
        let Seat { mut seat, number } = seat;
        let shared = &self.table.shared;
        let ticket = shared.fetch_add::<Draw>(&mut seat, TICKET, 1);
        let mut patience = Patience::Looks(0);
        for _ in rt.forever() {
            let serving = shared.load::<Look<V>>(&mut seat, SERVING);
            if serving == ticket {
                let value = shared.exchange(&mut seat, 0, None).unwrap();
                let before = value.told();
                return Turn {
                    seat,
                    number,
                    before,
                    value,
                };
            }
            let is_next = serving.wrapping_add(1) == ticket;
            patience = self.wait(rt, &mut seat, bell(ticket), is_next, patience);
        }
        unreachable!()
    }

    // Between two looks. The seat that is next looks again soon, for a while. Any other, and that one at the
    // end, says at its bell that it sleeps, looks once more, and sleeps.
    fn wait<R: Wait>(
        &self,
        rt: &R,
        seat: &mut atomic_table::Seat<Option<V>, View<V::Entry>>,
        bell: usize,
        is_next: bool,
        patience: Patience,
    ) -> Patience
        requires of_lock { seat.old.table_id ≡ self.now }
        requires bell { (3 < bell) × (bell < 260) }
        ensures same { (seat.new.table_id ≡ seat.old.table_id) × (seat.new.me ≡ seat.old.me) }
    {
        let shared = &self.table.shared;
        match patience {
            Patience::Looks(looks) if is_next && looks < LOOKS => {
                spin_loop();
                Patience::Looks(looks + 1)
            }
            Patience::Looks(_) => {
                shared.store::<Ring>(seat, bell, 1);
                Patience::Sleeps
            }
            Patience::Sleeps => {
                shared.park(rt, bell, 1);
                Patience::Looks(0)
            }
        }
    }

    /// Ends the turn. What was added to the history is part of it from now on, and the next seat has its turn.
    pub fn leave(&self, turn: Turn<V>) -> Seat<V>
        requires of_lock { turn.seat.lock ≡ self.now }
        requires grows { IsPrefix turn.seat.front (V.list turn.value) }
        requires own { IsOwnFrom V.seat_of (V.list turn.value) (length turn.seat.front) turn.seat.number }
        ensures seat { result ≡ record turn.seat {
          front = V.list turn.value;
          own = own_after turn.seat.own turn.seat.front (V.list turn.value);
        } }
    {
        let Turn {
            mut seat,
            number,
            before,
            value,
        } = turn;
        let shared = &self.table.shared;
        let added = value.told() - before;
        drop(shared.exchange(&mut seat, 0, Some(value)));
        shared.fetch_add::<Tell<V>>(&mut seat, TOLD, added);
        let served = shared.fetch_add::<Pass>(&mut seat, SERVING, 1);
        self.wake_two(&mut seat, served.wrapping_add(1));
        Seat { seat, number }
    }

    // Wakes the seat whose turn it is, if it sleeps, and the one that is next, so that it looks by its turn.
    fn wake_two(&self, seat: &mut atomic_table::Seat<Option<V>, View<V::Entry>>, serving: u64)
        requires of_lock { seat.old.table_id ≡ self.now }
        ensures same { (seat.new.table_id ≡ seat.old.table_id) × (seat.new.me ≡ seat.old.me) }
    {
        self.wake(seat, bell(serving));
        self.wake(seat, bell(serving.wrapping_add(1)));
    }

    // Wakes the seat that sleeps at the bell, if one does. A seat says so at its bell and then looks once more,
    // so that either it sees its turn or it is seen here.
    fn wake(&self, seat: &mut atomic_table::Seat<Option<V>, View<V::Entry>>, bell: usize)
        requires of_lock { seat.old.table_id ≡ self.now }
        requires bell { (3 < bell) × (bell < 260) }
        ensures same { (seat.new.table_id ≡ seat.old.table_id) × (seat.new.me ≡ seat.old.me) }
    {
        let shared = &self.table.shared;
        if shared.peek(bell) != 0 {
            shared.store::<Ring>(seat, bell, 0);
            shared.wake_one(bell);
        }
    }
}
