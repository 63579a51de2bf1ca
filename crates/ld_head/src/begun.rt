//! A head as far as it came.

use crate::finding::Place;
use std::marker::Model;

/// A head as far as it came. Contracts see its bytes.
#[derive(Drop)]
pub struct Begun {
    pub(crate) bytes: Vec<u8>,
    pub(crate) place: Place,
}

impl Model for Begun {
    ghost use Rattle.std.specs.Prelude.{List, ℕ};
    ghost use Rattle.ld_head.specs.Searching.{IsSearched};

    ghost Value = { List ℕ };

    ghost view = { λ b. b.bytes.items };

    ghost invariant = { λ b. IsSearched b.bytes.items b.place };
}
