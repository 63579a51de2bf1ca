//! A head that comes in pieces: each byte is searched once.
ghost use Rattle.std.specs.Prelude.{◌≡◌, ℕ, [], false};
ghost use Rattle.ld_head.specs.Dialogues.{Opens, Stops, ends_at, is_due_at};
ghost use Rattle.ld_head.specs.Pieces.{Comes};

use crate::begun::Begun;
use crate::dialogue::Ending;
use crate::finding::{Place, Searched, find_end};
use ld_tree::Raw;
use std::alloc::Global;

/// What a head is after one more piece.
#[derive(Drop)]
pub enum Came {
    /// The head is whole. `used` bytes of the piece belong to it; the others come after it.
    Whole { block: Raw, used: usize },
    /// It has no end within 16,384 bytes: 431, and the connection closes.
    TooLong,
    /// It goes on.
    More { begun: Begun },
    /// An allocation failed.
    NoMemory,
}

impl Begun {
    /// No byte came yet. Takes no memory.
    pub fn new(alloc: Global) -> Begun
        ensures { result ≡ [] }
    {
        Begun {
            bytes: Vec::new(alloc),
            place: Place::Before,
        }
    }

    /// Takes a piece, of which only the new bytes are searched. What it answers holds whatever comes after the piece.
    pub fn take(self, piece: &[u8]) -> Came
        ensures { Comes self piece.now result }
    {
        let Begun { mut bytes, place } = self;
        match find_end(bytes.len(), place, piece) {
            Searched::Full => Came::TooLong,
            Searched::Ended(used) => match bytes.extend_from_slice(&piece[..used]) {
                Ok(()) => Came::Whole {
                    block: Raw::from_vec(bytes),
                    used,
                },
                Err(_) => Came::NoMemory,
            },
            Searched::Goes(place) => match bytes.extend_from_slice(piece) {
                Ok(()) => Came::More {
                    begun: Begun { bytes, place },
                },
                Err(_) => Came::NoMemory,
            },
        }
    }

    /// How the input ends, where it ends here. No interim text is due then.
    pub fn ending(&self) -> Ending
        ensures opens { (n : ℕ) → Opens n self.now (Stops result) }
        ensures not_due { is_due_at result ≡ false }
    {
        self.place.ending()
    }
}

impl Place {
    pub(crate) fn ending(self) -> Ending
        ensures ending { result ≡ ends_at self }
        ensures not_due { is_due_at result ≡ false }
    {
        match self {
            Place::Before => Ending::Between,
            _ => Ending::Inside { interim: false },
        }
    }
}
