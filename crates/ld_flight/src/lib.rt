//! Loads of contexts: passes, the loaders that fetch texts, and contexts that were loaded and read.
//!
//! A [`Tower`] makes a [`Pass`] for each flight, which is the load of one context. A [`Loader`] takes the pass and gives it
//! back with what it fetched, [`Loaded`], or with why it didn't, [`Refused`]. `Loaded::ready` reads the text, which gives
//! a [`Ready`]. A pass can't be dropped: each flight is ended by whoever spends it. [`MemLoader`] tells its answers and
//! fails at the calls that it is told. [`FolderLoader`] reads the files of a folder and tells nothing of what they hold.
//!
//! To be believed: `specs/Passes.antt` (flights), `specs/Loads.antt` (what a loader tells), `specs/Refusals.antt` (counts of
//! failures), `specs/Readied.antt` (what is ready), `specs/Index.antt` (the index of a folder). `specs/Memory.antt` says
//! how a loader over memory is seen.
#![tactic(auto)]

mod file;
mod folder_loader;
mod given;
mod index;
mod loader;
mod mem_loader;
mod pass;
mod ready;

pub use folder_loader::{FolderLoader, INDEX_LIMIT};
pub use given::Given;
pub use loader::{LONGEST_TEXT, Loaded, Loader, Refused, Why};
pub use mem_loader::MemLoader;
pub use pass::{Pass, Tower};
pub use ready::{Ready, TEXT_LIMIT};
