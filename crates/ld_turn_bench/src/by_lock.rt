//! Turns at a turn lock.
ghost use Rattle.std.specs.Prelude.{◌≡◌, All, IfSome};

use crate::tally::Tally;
use ld_turn::{Seat, TurnLock};
use std::alloc::Global;
use std::sync::Wait;
use std::thread::{Threads, map_vec};

/// So many turns of each of so many seats, each in a thread of its own. `None` without memory, or for more
/// seats than a lock has.
pub fn by_lock<R: Threads + Wait + Sync>(
    rt: &R,
    alloc: Global,
    seats: u32,
    turns: u64,
) -> Option<Tally> {
    let (lock, first) = TurnLock::start(alloc, Tally::new()).ok()?;
    let seats = seated(alloc, &lock, first, seats)?;
    let seats = map_vec(rt, seats, &|seat| take_turns(rt, &lock, seat, turns)).ok()?;
    lock.close(seats).ok()
}

// The first seat, with others of its lock.
fn seated(
    alloc: Global,
    lock: &TurnLock<Tally>,
    first: Seat<Tally>,
    count: u32,
) -> Option<Vec<Seat<Tally>>>
    requires { first.lock ≡ lock.now }
    ensures { IfSome result (λ v. All (λ s. s.lock ≡ lock.now) v.items) }
{
    let mut first = first;
    let mut seats = Vec::new(alloc);
    for _ in 1..count {
        let seat = lock.split(&mut first).ok()?;
        seats.push(seat).ok()?;
    }
    seats.push(first).ok()?;
    Some(seats)
}

fn take_turns<R: Wait>(rt: &R, lock: &TurnLock<Tally>, seat: Seat<Tally>, turns: u64) -> Seat<Tally>
    requires { seat.lock ≡ lock.now }
    ensures { result.lock ≡ seat.lock }
{
    let mut seat = seat;
    for _ in 0..turns {
        seat = take_turn(rt, lock, seat);
    }
    seat
}

fn take_turn<R: Wait>(rt: &R, lock: &TurnLock<Tally>, seat: Seat<Tally>) -> Seat<Tally>
    requires { seat.lock ≡ lock.now }
    ensures { result.lock ≡ seat.lock }
{
    let mut turn = lock.take(rt, seat);
    turn.value().work();
    lock.leave(turn)
}
