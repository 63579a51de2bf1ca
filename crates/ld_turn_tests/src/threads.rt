//! Eight threads that take turns.
ghost use Rattle.std.specs.Prelude.{◌≡◌, All, IfSome};
ghost use mathlib.Core.List.{IsPrefix};

use crate::log::{Log, Mark};
use ld_turn::{Seat, TurnLock};
use std::alloc::Global;
use std::sync::Wait;
use std::test::Fail;
use std::thread::{Threads, map_vec};

const SEATS: usize = 8;

const TURNS: u32 = 1000;

// One turn, in which the seat makes its mark.
fn mark<R: Wait>(rt: &R, lock: &TurnLock<Log>, seat: Seat<Log>, count: u32) -> Seat<Log>
    requires { seat.lock ≡ lock.now }
    ensures lock { result.lock ≡ seat.lock }
    ensures front { IsPrefix seat.front result.front }
{
    let seat_number = seat.number();
    let mut turn = lock.take(rt, seat);
    let _ = turn.value().add(Mark {
        seat: seat_number,
        count,
    });
    lock.leave(turn)
}

fn mark_often<R: Wait>(rt: &R, lock: &TurnLock<Log>, seat: Seat<Log>) -> Seat<Log>
    requires { seat.lock ≡ lock.now }
    ensures { result.lock ≡ seat.lock }
{
    let mut seat = seat;
    for count in 0..TURNS {
        seat = mark(rt, lock, seat, count);
    }
    seat
}

// The seat with seven more of its lock.
fn seated(alloc: Global, lock: &TurnLock<Log>, first: Seat<Log>) -> Option<Vec<Seat<Log>>>
    requires { first.lock ≡ lock.now }
    ensures { IfSome result (λ v. All (λ s. s.lock ≡ lock.now) v.items) }
{
    let mut first = first;
    let mut seats = Vec::new(alloc);
    for _ in 1..SEATS {
        let seat = lock.split(&mut first).ok()?;
        seats.push(seat).ok()?;
    }
    seats.push(first).ok()?;
    Some(seats)
}

fn eight<R: Threads + Wait + Sync>(rt: &R, alloc: Global) -> Option<Log> {
    let (lock, first) = TurnLock::start(alloc, Log::new(alloc)).ok()?;
    let seats = seated(alloc, &lock, first)?;
    let seats = map_vec(rt, seats, &|seat| mark_often(rt, &lock, seat)).ok()?;
    lock.close(seats).ok()
}

// How many marks each seat made, where each seat's marks stand in the order of their counts, from 0 on.
fn counts_of(log: &Log) -> Option<[u32; SEATS]> {
    let mut counts = [0; SEATS];
    for mark in log.marks.iter() {
        let next = counts.get_mut(mark.seat as usize)?;
        if *next != mark.count {
            return None;
        }
        *next = next.checked_add(1)?;
    }
    Some(counts)
}

#[test]
fn every_mark_stands_once(rt: HostRuntime) -> Result<(), Fail> {
    let log = eight(&rt, rt.alloc()).ok_or("memory")?;
    assert!(rt; counts_of(&log) == Some([TURNS; SEATS]));
    Ok(())
}
