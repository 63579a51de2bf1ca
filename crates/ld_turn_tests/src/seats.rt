//! How many seats a lock has, and what its close answers.
ghost use Rattle.std.specs.Prelude.{◌≡◌};

use crate::log::Log;
use ld_turn::{CloseRefusal, Seat, SplitRefusal, TurnLock};
use std::alloc::Global;
use std::test::Fail;

// Splits the seat until it is refused, and tells how often it was split, and the refusal.
fn split_all(lock: &TurnLock<Log>, seat: &mut Seat<Log>) -> (u32, Option<SplitRefusal>)
    requires { seat.old.lock ≡ lock.now }
{
    for made in 0..1000 {
        match lock.split(seat) {
            Ok(_seat) => {}
            Err(refusal) => return (made, Some(refusal)),
        }
    }
    (1000, None)
}

#[test]
fn a_seat_splits_255_times(rt: HostRuntime) -> Result<(), Fail> {
    let Ok((lock, mut seat)) = TurnLock::start(rt.alloc(), Log::new(rt.alloc())) else {
        return Err("memory".into());
    };
    let (made, refusal) = split_all(&lock, &mut seat);
    assert_eq!(rt; made, 255);
    assert!(rt; refusal == Some(SplitRefusal::SeatsOut));
    Ok(())
}

// What a lock with two seats answers to a close without a seat and with one of them, and the value at the end.
fn close_thrice(alloc: Global) -> Option<(CloseRefusal, CloseRefusal, Log)> {
    let (lock, mut first) = TurnLock::start(alloc, Log::new(alloc)).ok()?;
    let mut second = lock.split(&mut first).ok()?;
    let note = lock.note(&mut first).ok()?;
    lock.meet(&mut second, note);
    let Err((lock, _, without)) = lock.close(Vec::new(alloc)) else {
        return None;
    };
    let mut seats = Vec::new(alloc);
    seats.push(first).ok()?;
    let Err((lock, mut seats, with_one)) = lock.close(seats) else {
        return None;
    };
    seats.push(second).ok()?;
    let log = lock.close(seats).ok()?;
    Some((without, with_one, log))
}

#[test]
fn a_close_wants_all_seats(rt: HostRuntime) -> Result<(), Fail> {
    let (without, with_one, log) = close_thrice(rt.alloc()).ok_or("no lock, or not closed")?;
    assert!(rt; without == CloseRefusal::Missing { given: 0, made: 2 });
    assert!(rt; with_one == CloseRefusal::Missing { given: 1, made: 2 });
    assert_eq!(rt; log.marks.len(), 0);
    Ok(())
}
