ghost use Rattle.std.specs.Prelude.{◌≡◌};
ghost use Rattle.ld_tree_read.specs.declared.refusal.ReadRefusal.TheVariants as r;

use ld_tree::NoMemory;
use std::alloc::{AllocError, AllocFailed};
use thiserror::Error;

/// Why no tree was read. `at` is how many bytes lie before the place.
#[derive(Clone, Copy, Debug, PartialEq, Eq, Error)]
pub enum ReadRefusal {
    /// No JSON text (RFC 8259) begins with one byte more, or the bytes end before the text does.
    #[error("no JSON text goes on at byte {at}")]
    Syntax { at: usize },
    /// No UTF-8 (RFC 3629) begins with one byte more, or the bytes end within a character.
    #[error("no UTF-8 goes on at byte {at}")]
    NotUtf8 { at: usize },
    /// A number begins here that isn't whole, nor 11/10.
    #[error("a number at byte {at} is a fraction")]
    Fraction { at: usize },
    /// A whole number begins here that 64 bits don't hold.
    #[error("a number at byte {at} is too large")]
    TooLarge { at: usize },
    /// A list or a map begins here within 128 others.
    #[error("a list or a map at byte {at} is too deep")]
    TooDeep { at: usize },
    /// An allocation failed.
    #[error("out of memory")]
    NoMemory,
}

impl From<NoMemory> for ReadRefusal {
    ghost from_gives = { λ _ e. e ≡ r.NoMemory };

    fn from(_e: NoMemory) -> ReadRefusal {
        ReadRefusal::NoMemory
    }
}

impl From<AllocError> for ReadRefusal {
    ghost from_gives = { λ _ e. e ≡ r.NoMemory };

    fn from(_e: AllocError) -> ReadRefusal {
        ReadRefusal::NoMemory
    }
}

impl<T: Drop> From<AllocFailed<T>> for ReadRefusal {
    ghost from_gives = { λ _ e. e ≡ r.NoMemory };

    fn from(_e: AllocFailed<T>) -> ReadRefusal {
        ReadRefusal::NoMemory
    }
}
