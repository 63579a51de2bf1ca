//! Passes, and the tower that makes them.
ghost use Rattle.std.specs.Prelude.{◌≡◌, ◌+◌, ◌<◌, ◌≤◌};
ghost use Rattle.ld_flight.specs.Passes.{last_flight};

use ld_tree::Iri;
use std::marker::Model;

/// The right to load the context of one IRI, once. It can't be dropped: a load takes it and gives it back, and whoever
/// ends the flight spends it. Only a [`Tower`] makes one.
pub struct Pass {
    number: u32,
    iri: Iri,
}

impl Model for Pass {
    ghost use Rattle.ld_flight.specs.Passes.{Flight};

    ghost Value = { Flight };

    ghost view = { λ p. record { number = p.number; iri = p.iri } };
}

impl Pass {
    /// The number of the flight that the pass stands for.
    pub fn flight(&self) -> u32
        ensures { result ≡ self.now.number }
    {
        self.number
    }

    /// The IRI of the context that is loaded.
    pub fn iri(&self) -> &Iri
        ensures { result.now ≡ self.now.iri }
    {
        &self.iri
    }

    /// Spends the pass, and gives its IRI. Takes no memory.
    pub fn into_iri(self) -> Iri
        ensures { result ≡ self.iri }
    {
        let Pass { number: _, iri } = self;
        iri
    }

    /// Spends the pass.
    pub fn end(self) {
        let Pass { number: _, iri: _ } = self;
    }
}

/// Makes passes, whose numbers are 1, 2 and on. Contracts see how many it made.
#[derive(Debug, Drop)]
pub struct Tower {
    made: u32,
}

impl Model for Tower {
    ghost use Rattle.std.specs.Prelude.{ℕ};

    ghost Value = { ℕ };

    ghost view = { λ t. t.made };
}

impl Tower {
    /// A tower that made no pass yet.
    pub fn new() -> Tower
        ensures { result ≡ 0 }
    {
        Tower { made: 0 }
    }

    /// The pass of the next flight, for the context of the IRI. Takes no memory.
    pub fn lead(&mut self, iri: Iri) -> Pass
        requires { self.old < last_flight }
        ensures number { result.number ≡ self.old + 1 }
        ensures iri { result.iri ≡ iri }
        ensures made { self.new ≡ self.old + 1 }
    {
        self.made += 1;
        Pass {
            number: self.made,
            iri,
        }
    }

    /// How many passes it made.
    pub fn made(&self) -> u32
        ensures { result ≡ self.now }
    {
        self.made
    }
}
