//! Bytes that came and that nobody looked at.
ghost use Rattle.std.specs.Prelude.{◌≡◌, ◌<◌, ◌≤◌, ◌++◌, ℕ, List, [], true, false, drop, length, vec_len, IfOk, OnOk, OnErr};
ghost use Rattle.ld_edge.specs.Faults.{Rose};
ghost use Rattle.ld_edge.specs.Passing.{Comes, IsReadToEnd};

use ld_edge::{Failed, Source};
use ld_tree::NoMemory;
use std::alloc::Global;
use std::marker::Model;

// How much one read asks for.
const PIECE: usize = 16_384;

/// The rest of the last piece that was read. Contracts see its bytes.
#[derive(Drop)]
pub(crate) struct Pending {
    piece: Vec<u8>,
    at: usize,
    until: usize,
}

impl Model for Pending {
    ghost use Rattle.std.specs.Prelude.{List, ℕ, ◌≤◌, ◌<◌, drop, take, vec_len};

    ghost Value = { List ℕ };

    ghost view = { λ p. drop p.at (take p.until p.piece.items) };

    ghost invariant = { λ p. (p.at ≤ p.until) × (p.until ≤ vec_len p.piece) × (0 < vec_len p.piece) };
}

impl Pending {
    pub(crate) fn new(alloc: Global) -> Result<Pending, NoMemory>
        ensures { IfOk result (λ pending. pending ≡ []) }
    {
        match vec![in alloc; 0u8; PIECE] {
            Ok(piece) => Ok(Pending {
                piece,
                at: 0,
                until: 0,
            }),
            Err(_) => Err(NoMemory),
        }
    }

    pub(crate) fn bytes(&self) -> &[u8]
        ensures { result.now ≡ self.now }
    {
        &self.piece[self.at..self.until]
    }

    /// The first bytes were looked at.
    pub(crate) fn skip(&mut self, count: usize)
        requires { count ≤ length self.old }
        ensures { self.new ≡ drop count self.old }
    {
        self.at += count;
    }

    /// All of them were.
    pub(crate) fn clear(&mut self)
        ensures { self.new ≡ [] }
    {
        self.at = self.until;
    }

    // Reads once.
    fn fill<S: Source>(&mut self, source: &mut S) -> Result<(), Failed>
        requires { self.old ≡ [] }
        ensures came { OnOk result (Comes (S.incoming source.old) (S.incoming source.new) self.new) }
        ensures end { OnOk result (self.new ≡ [] → IsReadToEnd (S.incoming source.new)) }
        ensures failed { OnErr result ((self.new ≡ []) × Comes (S.incoming source.old) (S.incoming source.new) []) }
        ensures keeps_count { OnOk result ((S.incoming source.new).faults ≡ (S.incoming source.old).faults) }
        ensures rose { OnErr result (Rose (S.incoming source.old).faults (S.incoming source.new).faults) }
        ensures keeps_beside { S.beside source.new ≡ S.beside source.old }
    {
        self.at = 0;
        self.until = 0;
        self.until = source.read(&mut self.piece)?;
        Ok(())
    }

    /// Reads once where nothing is pending, and says whether there is something then. There is nothing at the end of
    /// the input alone.
    pub(crate) fn fetch<S: Source>(&mut self, source: &mut S) -> Result<bool, Failed>
        ensures came { (came : List ℕ) × Comes (S.incoming source.old) (S.incoming source.new) came × (self.new ≡ self.old ++ came) }
        ensures some { IfOk result (λ any. any ≡ true → 0 < length self.new) }
        ensures end { IfOk result (λ any. any ≡ false → (self.new ≡ []) × IsReadToEnd (S.incoming source.new)) }
        ensures failed { OnErr result (self.new ≡ []) }
        ensures keeps_count { OnOk result ((S.incoming source.new).faults ≡ (S.incoming source.old).faults) }
        ensures rose { OnErr result (Rose (S.incoming source.old).faults (S.incoming source.new).faults) }
        ensures keeps_beside { S.beside source.new ≡ S.beside source.old }
    {
        if !self.bytes().is_empty() {
            return Ok(true);
        }
        self.fill(source)?;
        Ok(!self.bytes().is_empty())
    }
}
