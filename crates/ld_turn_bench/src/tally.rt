//! What the threads of the benchmark work on.
ghost use Rattle.std.specs.Prelude.{◌≡◌};

use ld_turn::Told;

// The steps of one turn's work, which take about a microsecond.
const STEPS: u32 = 500;

/// A count of turns, and a number that each turn changes many times. As a history it stays empty.
#[derive(Drop)]
pub struct Tally {
    pub turns: u64,
    pub state: u64,
}

impl Told for Tally {
    ghost use Rattle.std.specs.Prelude.{[], None, refl};

    type Entry = u64;

    ghost list = { λ _. [] };

    ghost seat_of = { λ _ _. None };

    fn told(&self) -> u64 {
        0
    }

    ghost stays = { λ xs ys i lt. refl };
}

impl Tally {
    /// No turn yet.
    pub fn new() -> Tally {
        Tally { turns: 0, state: 1 }
    }

    /// The work of one turn.
    pub fn work(&mut self) {
        self.turns = self.turns.wrapping_add(1);
        for _ in 0..STEPS {
            self.state ^= self.state << 13;
            self.state ^= self.state >> 7;
            self.state ^= self.state << 17;
        }
    }
}
