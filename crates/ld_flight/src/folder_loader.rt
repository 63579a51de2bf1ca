//! A loader over the files of a folder.
ghost use Rattle.std.specs.Prelude.{◌≡◌, ◌≤◌, ◌++◌, ◌∷◌, [], None, length, IfOk, OnErr};
ghost use Rattle.ld_flight.specs.Loads.{entry_of, longest_text};

use crate::file::{ReadFault, read_front};
use crate::given::Given;
use crate::index::file_of;
use crate::loader::{LONGEST_TEXT, Loaded, Loader, Refused};
use crate::pass::Pass;
use ld_edge::FaultCount;
use ld_tree::{Raw, Url};
use std::alloc::Global;
use std::marker::Model;
use std::rt::Files;

/// The longest index that is read, in bytes. A longer one names no file.
pub const INDEX_LIMIT: usize = 4_194_304;

/// A loader that reads the files of the folder `contexts` in the working folder. Which file an IRI has is said by the file
/// `contexts/index`, which is read anew at each load (docs/command-line.md has its form). The document's place is the
/// IRI. A load fails where the index names no file for the IRI, and where a file can't be read.
#[derive(Drop)]
pub struct FolderLoader<'a, R: Files> {
    files: &'a R,
    given: Vec<Given>,
    faults: FaultCount,
}

impl<'a, R: Files> Model for FolderLoader<'a, R> {
    ghost use Rattle.ld_flight.specs.Folder.{Counting};

    ghost Value = { Counting };

    ghost view = { λ l. record { given = l.given.items; faults = l.faults } };
}

impl<'a, R: Files> FolderLoader<'a, R> {
    /// A loader over these files, which gave nothing yet. Takes no memory.
    pub fn new(alloc: Global, files: &'a R) -> FolderLoader<'a, R>
        ensures given { result.given ≡ [] }
        ensures faults { result.faults.number ≡ 0 }
    {
        FolderLoader {
            files,
            given: Vec::new(alloc),
            faults: FaultCount::new(),
        }
    }

    // The answer for the pass, once its entry is kept.
    fn answer(&mut self, alloc: Global, pass: &Pass) -> Result<(Url, Raw), ReadFault>
        ensures given { IfOk result (λ answer. self.new.given ≡ self.old.given ++ entry_of pass.now answer.0 answer.1 ∷ []) }
        ensures length { IfOk result (λ answer. length answer.1 ≤ longest_text) }
        ensures keeps_given { OnErr result (self.new.given ≡ self.old.given) }
        ensures faults { self.new.faults ≡ self.old.faults }
    {
        self.given.reserve(1)?;
        let url = pass.iri().try_copy(alloc)?;
        let text = read_context(alloc, self.files, url.as_str())?;
        let entry = Given::of(alloc, pass, &url, &text)?;
        self.given.push(entry)?;
        Ok((url, text))
    }
}

impl<'a, R: Files> Loader for FolderLoader<'a, R> {
    ghost loading = { λ l. record { given = l.given; held = λ iri. None; faults = l.faults.number } };

    ghost at_most_last = { λ l. l.faults.in_range };

    fn load(&mut self, alloc: Global, pass: Pass) -> Result<Loaded, Refused> {
        let before = self.faults.number();
        match self.answer(alloc, &pass) {
            Ok((url, text)) => Ok(Loaded { pass, url, text }),
            Err(ReadFault::NoMemory) => Err(Refused::no_memory(pass, before)),
            Err(ReadFault::Failed) => {
                self.faults.rise();
                let after = self.faults.number();
                Err(Refused::fault(pass, before, after))
            }
        }
    }

    fn faults(&self) -> u64 {
        self.faults.number()
    }
}

// The text of the file that the index gives to the IRI.
fn read_context<R: Files>(alloc: Global, files: &R, iri: &str) -> Result<Raw, ReadFault>
    ensures { IfOk result (λ text. length text ≤ longest_text) }
{
    let index = read_front(alloc, files, "contexts/index", INDEX_LIMIT + 1)?;
    if index.as_slice().len() > INDEX_LIMIT {
        return Err(ReadFault::Failed);
    }
    let Ok(lines) = str::from_utf8(index.as_slice()) else {
        return Err(ReadFault::Failed);
    };
    let Some(name) = file_of(lines, iri) else {
        return Err(ReadFault::Failed);
    };
    let mut path = String::from_str(alloc, "contexts/")?;
    path.push_str(name)?;
    read_front(alloc, files, path.as_str(), LONGEST_TEXT)
}
