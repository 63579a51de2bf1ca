//! Where a head ends, in bytes that come in pieces.
ghost use Rattle.std.specs.Prelude.{◌≡◌, ◌≤◌, ℕ, List, length};
ghost use Rattle.ld_head.specs.Dialogues.{step};
ghost use Rattle.ld_head.specs.Searching.{Finds, IsInBounds};

/// Where the bytes of a head lead. Empty lines may come before it.
#[derive(Clone, Copy, Debug, PartialEq, Eq)]
pub enum Place {
    Before,
    /// Behind a CR that may end an empty line before the head.
    BeforeCr,
    Within,
    /// Behind an LF.
    AfterLf,
    AfterLfCr,
    /// The head is whole.
    Done,
}

impl Place {
    fn step(self, byte: u8) -> Place
        ensures { result ≡ step self byte }
    {
        match (self, byte) {
            (Place::Before | Place::BeforeCr, b'\n') => Place::Before,
            (Place::Before, b'\r') => Place::BeforeCr,
            (Place::AfterLf | Place::AfterLfCr, b'\n') => Place::Done,
            (Place::AfterLf, b'\r') => Place::AfterLfCr,
            (Place::Within, b'\n') => Place::AfterLf,
            (Place::Done, _) => Place::Done,
            _ => Place::Within,
        }
    }
}

/// What the search of a piece found.
#[derive(Clone, Copy, Debug, PartialEq, Eq)]
pub enum Searched {
    /// So many bytes of the piece end the head.
    Ended(usize),
    /// The head is too long.
    Full,
    /// The head goes on from this place.
    Goes(Place),
}

const LONGEST_HEAD: usize = 16_384;

/// Searches a piece for the end of a head of which `seen` bytes came before and led to `place`.
pub fn find_end(seen: usize, place: Place, piece: &[u8]) -> Searched
    requires short { seen ≤ 16384 }
    ensures in_bounds { IsInBounds seen (length piece.now) result }
    ensures finds { (before : List ℕ) → length before ≡ seen → Finds before place piece.now result }
{
    let mut place = place;
    for i in 0..piece.len() {
        if i >= LONGEST_HEAD - seen {
            return Searched::Full;
        }
        place = place.step(piece[i]);
        if place == Place::Done {
            return Searched::Ended(i + 1);
        }
    }
    if piece.len() >= LONGEST_HEAD - seen {
        return Searched::Full;
    }
    Searched::Goes(place)
}
