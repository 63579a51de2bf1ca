//! The bell that wakes those who wait for a flight.
use std::sync::{Condvar, Mutex, Wait};

/// Counts how often it rang. Nothing is claimed of it: not that a waiter wakes.
#[derive(Drop)]
pub struct Bell {
    count: Mutex<u64>,
    rang: Condvar,
}

impl Bell {
    /// A bell that never rang.
    pub fn new() -> Bell {
        Bell {
            count: Mutex::new(0),
            rang: Condvar::new(),
        }
    }

    /// How often it rang.
    pub fn count<R: Wait>(&self, rt: &R) -> u64 {
        *self.count.lock(rt)
    }

    /// Rings, and wakes all who wait.
    pub fn ring<R: Wait>(&self, rt: &R) {
        let mut count = self.count.lock(rt);
        *count = count.wrapping_add(1);
        self.rang.notify_all();
    }

    /// Waits while the count is this one.
    pub fn wait<R: Wait>(&self, rt: &R, noted: u64) {
        let _count = self
            .rang
            .wait_while(rt, self.count.lock(rt), |count| *count == noted);
    }
}
