//! What a loader keeps of each of its answers.
ghost use Rattle.std.specs.Prelude.{◌≡◌, ◌≤◌, length, IfOk};
ghost use Rattle.sha2.specs.Sha256.{sha256};
ghost use Rattle.ld_flight.specs.Loads.{entry_of, longest_text};

use crate::pass::Pass;
use ld_tree::{Iri, Items, NoMemory, Raw, Url};
use sha2::{Digest, Sha256};
use std::alloc::Global;

/// An answer of a loader: for which flight and IRI it was, the place that the document came from, and the length and
/// the SHA-256 (FIPS 180-4) of its text.
#[derive(Debug, Drop)]
pub struct Given {
    pub flight: u32,
    pub iri: Iri,
    pub url: Url,
    pub length: u32,
    pub mark: Raw,
}

impl Given {
    /// The entry of an answer to this pass.
    pub(crate) fn of(alloc: Global, pass: &Pass, url: &Url, text: &Raw) -> Result<Given, NoMemory>
        requires { length text.now ≤ longest_text }
        ensures { IfOk result (λ given. given ≡ entry_of pass.now url.now text.now) }
    {
        Ok(Given {
            flight: pass.flight(),
            iri: pass.iri().try_copy(alloc)?,
            url: url.try_copy(alloc)?,
            length: text.as_slice().len() as u32,
            mark: mark_of(alloc, text)?,
        })
    }
}

/// The SHA-256 of a text.
pub(crate) fn mark_of(alloc: Global, text: &Raw) -> Result<Raw, NoMemory>
    ensures { IfOk result (λ mark. mark ≡ sha256 text.now) }
{
    let digest = Sha256::digest(text.as_slice());
    Ok(Items::from_vec(Vec::from_slice(alloc, &digest)?))
}
