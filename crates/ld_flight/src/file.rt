//! Files, read up to a limit.
ghost use Rattle.std.specs.Prelude.{◌≡◌, ◌≤◌, ◌<◌, ◌+◌, length, vec_len, IfOk, OnErr};
ghost use Rattle.ld_flight.specs.declared.file.ReadFault.TheVariants as faults;

use ld_edge::{Failed, Source, StdSource};
use ld_tree::{Items, NoMemory, Raw};
use std::alloc::{AllocError, AllocFailed, Global};
use std::io::ErrorKind;
use std::rt::Files;
use std::{fs, io};

// How much one read asks for.
const PIECE: usize = 65_536;

/// Why a file wasn't read.
#[derive(Clone, Copy, Debug, PartialEq, Eq)]
pub(crate) enum ReadFault {
    Failed,
    NoMemory,
}

impl From<AllocError> for ReadFault {
    ghost from_gives = { λ _ e. e ≡ faults.NoMemory };

    fn from(_e: AllocError) -> ReadFault {
        ReadFault::NoMemory
    }
}

impl<T: Drop> From<AllocFailed<T>> for ReadFault {
    ghost from_gives = { λ _ e. e ≡ faults.NoMemory };

    fn from(_e: AllocFailed<T>) -> ReadFault {
        ReadFault::NoMemory
    }
}

impl From<NoMemory> for ReadFault {
    ghost from_gives = { λ _ e. e ≡ faults.NoMemory };

    fn from(_e: NoMemory) -> ReadFault {
        ReadFault::NoMemory
    }
}

impl From<Failed> for ReadFault {
    ghost from_gives = { λ _ e. e ≡ faults.Failed };

    fn from(_e: Failed) -> ReadFault {
        ReadFault::Failed
    }
}

/// The bytes of the file, or its first ones where it has more than the limit.
pub(crate) fn read_front<R: Files>(
    alloc: Global,
    files: &R,
    path: &str,
    limit: usize,
) -> Result<Raw, ReadFault>
    ensures { IfOk result (λ bytes. length bytes ≤ limit) }
{
    match fs::open(files, path) {
        Ok(file) => read_source(alloc, &mut StdSource::new(file), limit),
        Err(error) => Err(why(&error)),
    }
}

fn why(error: &io::Error) -> ReadFault {
    if error.kind() == ErrorKind::OutOfMemory {
        ReadFault::NoMemory
    } else {
        ReadFault::Failed
    }
}

fn read_source<S: Source>(alloc: Global, source: &mut S, limit: usize) -> Result<Raw, ReadFault>
    ensures { IfOk result (λ bytes. length bytes ≤ limit) }
{
    let mut bytes = Vec::new(alloc);
    let mut piece = vec![in alloc; 0u8; PIECE]?;
    while bytes.len() < limit {
        let room = (limit - bytes.len()).min(piece.len());
        let count = source.read(&mut piece[..room])?;
        if count == 0 {
            break;
        }
        bytes.extend_from_slice(&piece[..count])?;
    }
    Ok(Items::from_vec(bytes))
}
