//! The same turns at a plain `Mutex`.

use crate::tally::Tally;
use std::alloc::Global;
use std::sync::{Mutex, Wait};
use std::thread::{Threads, map_indices};

/// So many turns of each of so many threads. `None` without memory.
pub fn by_mutex<R: Threads + Wait + Sync>(
    rt: &R,
    alloc: Global,
    threads: u32,
    turns: u64,
) -> Option<Tally> {
    let tally = Mutex::new(Tally::new());
    let ends = map_indices(
        rt,
        alloc,
        threads as usize,
        &|_| take_turns(rt, &tally, turns),
    );
    drop(ends.ok()?);
    Some(tally.into_inner())
}

fn take_turns<R: Wait>(rt: &R, tally: &Mutex<Tally>, turns: u64) {
    for _ in 0..turns {
        tally.lock(rt).work();
    }
}
