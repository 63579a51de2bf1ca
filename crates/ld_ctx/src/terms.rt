ghost use Rattle.std.specs.Prelude.{◌≡◌, slice_get, IfOk, OnOk, OnErr, IfErr, option_copied};
ghost use Rattle.std.specs.Map.{keys_of};
ghost use Rattle.ld_tree.specs.Maps.{empty, find, put as with_put, take_out as without};
ghost use Rattle.ld_ctx.specs.Terms.{terms_of};

use ld_rec::Def;
use ld_tree::{Entries, NameMap, NoMemory, Text};
use std::alloc::Global;

/// Term definitions by term: settled while they are only read, and open while a context is made of them, so
/// that reading by place and putting in any order are both quick.
#[derive(Debug, Drop)]
pub enum Terms {
    Settled(Entries<Def>),
    Open(NameMap<Def>),
}

impl Terms {
    pub fn new(alloc: Global) -> Terms
        ensures { terms_of result ≡ empty }
    {
        Terms::Settled(Entries::new(alloc))
    }

    /// In time logarithmic in the number of terms.
    pub fn get(&self, term: &str) -> Option<&Def>
        ensures { option_copied result ≡ find (terms_of self.now) term.now }
    {
        match self {
            Terms::Settled(entries) => entries.get(term),
            Terms::Open(map) => map.get(term),
        }
    }

    /// The term at the place, in code point order; linear in the place while the terms are open.
    pub fn name_at(&self, place: usize) -> Option<&str>
        ensures { option_copied result ≡ slice_get (keys_of (terms_of self.now).0) place }
    {
        match self {
            Terms::Settled(entries) => match entries.as_slice().get(place) {
                Some(entry) => Some(entry.0.as_str()),
                None => None,
            },
            Terms::Open(map) => map.name_at(place),
        }
    }

    /// Takes one out: logarithmic while the terms are open, and else those behind it move.
    pub fn take_out(&mut self, term: &str) -> Option<Def>
        ensures former { result ≡ find (terms_of self.old) term.now }
        ensures terms { terms_of self.new ≡ without (terms_of self.old) term.now }
    {
        match self {
            Terms::Settled(entries) => entries.take_out(term),
            Terms::Open(map) => map.take_out(term),
        }
    }

    /// Puts one in place of a former one: logarithmic while the terms are open, and else those behind a new
    /// term move.
    pub fn put(&mut self, term: Text, def: Def) -> Result<(), (Text, Def, NoMemory)>
        ensures ok { OnOk result (terms_of self.new ≡ with_put (terms_of self.old) term def) }
        ensures given_back { IfErr result (λ e. (e.0 ≡ term) × (e.1 ≡ def)) }
        ensures unchanged { OnErr result (terms_of self.new ≡ terms_of self.old) }
    {
        match self {
            Terms::Settled(entries) => {
                let _ = entries.put(term, def)?;
                Ok(())
            }
            Terms::Open(map) => {
                let _ = map.put(term, def)?;
                Ok(())
            }
        }
    }

    /// The same terms, open.
    pub fn opened(self, alloc: Global) -> Result<Terms, NoMemory>
        ensures { IfOk result (λ terms. terms_of terms ≡ terms_of self) }
    {
        match self {
            Terms::Settled(entries) => Ok(Terms::Open(NameMap::from_entries(alloc, entries)?)),
            Terms::Open(map) => Ok(Terms::Open(map)),
        }
    }

    /// The same terms, settled.
    pub fn settled(self, alloc: Global) -> Result<Terms, NoMemory>
        ensures { IfOk result (λ terms. terms_of terms ≡ terms_of self) }
    {
        match self {
            Terms::Settled(entries) => Ok(Terms::Settled(entries)),
            Terms::Open(map) => match map.into_entries(alloc) {
                Ok(entries) => Ok(Terms::Settled(entries)),
                Err((_, e)) => Err(e),
            },
        }
    }

    /// Equal terms, settled, with memory of their own.
    pub fn try_copy(&self, alloc: Global) -> Result<Terms, NoMemory>
        ensures { IfOk result (λ terms. terms_of terms ≡ terms_of self.now) }
    {
        match self {
            Terms::Settled(entries) => Ok(Terms::Settled(copy_settled(alloc, entries)?)),
            Terms::Open(map) => Ok(Terms::Settled(copy_open(alloc, map)?)),
        }
    }
}

fn copy_settled(alloc: Global, entries: &Entries<Def>) -> Result<Entries<Def>, NoMemory>
    ensures { IfOk result (λ copy. copy ≡ entries.now) }
{
    let mut copied = Vec::with_capacity(alloc, entries.as_slice().len())?;
    for (term, def) in entries.as_slice() {
        copied.push((term.try_copy(alloc)?, def.try_copy(alloc)?))?;
    }
    Ok(Entries::from_sorted(copied))
}

fn copy_open(alloc: Global, map: &NameMap<Def>) -> Result<Entries<Def>, NoMemory>
    ensures { IfOk result (λ copy. copy ≡ map.now) }
{
    let mut copied = Vec::with_capacity(alloc, map.len())?;
    for (term, def) in map.iter() {
        copied.push((Text::from_str(alloc, term.as_str())?, def.try_copy(alloc)?))?;
    }
    Ok(Entries::from_sorted(copied))
}
