ghost use Rattle.std.specs.Prelude.{◌≡◌, ◌++◌, ◌∷◌, [], IfOk, option_copied, ◌&&◌, nat_le, length, OnOk};
ghost use Rattle.ld_tree.specs.Maps.{find};
ghost use Rattle.ld_iri.specs.Words.{is_iri};
ghost use Rattle.ld_rec.specs.Outcome.{give};
ghost use Rattle.ld_rec.specs.Words.{is_among};
ghost use Rattle.ld_rec.specs.Processing.{against, base_of, context_in, loadable};
ghost use Rattle.ld_term.specs.Comes.{Comes};

use crate::runs::{Runs, note};
use ld_codes::Code;
use ld_ctx::{Names, Stock};
use ld_iri::{is_iri, resolve};
use ld_rec::{Doc, Stop, Stored};
use ld_tree::{Iri, NoMemory, Text, Tree};
use std::alloc::Global;

// Step 5.2.1: without a base URL the text stays.
fn against(alloc: Global, base: &Option<Iri>, text: &Text) -> Result<Text, NoMemory>
    ensures { IfOk result (λ iri. iri ≡ against base.now text.now) }
{
    match base {
        Some(base) => Ok(Text::from_string(resolve(alloc, base.as_str(), text.as_str())?)),
        None => text.try_copy(alloc),
    }
}

fn is_loadable(iri: &str) -> bool
    ensures { result ≡ (is_iri iri.now && nat_le (length iri.now) 2048) }
{
    is_iri(iri) && iri.len() <= 2048
}

/// The IRI that a text asks for, where that can be asked for: an IRI of at most 2,048 bytes.
pub fn loadable(alloc: Global, base: &Option<Iri>, text: &Text) -> Result<Option<Iri>, NoMemory>
    ensures { IfOk result (λ iri. iri ≡ loadable (against base.now text.now)) }
{
    let iri = against(alloc, base, text)?;
    if is_loadable(iri.as_str()) {
        Ok(Some(iri))
    } else {
        Ok(None)
    }
}

/// Whether the IRI is one of them.
pub fn is_among(known: &Names, iri: &Text) -> bool
    ensures { result ≡ is_among known.now iri.now }
{
    known
        .as_slice()
        .iter()
        .any(|name| iri.as_str() == name.as_str())
}

/// The document of the IRI, which is noted as asked for.
pub fn looked<'a>(
    alloc: Global,
    stock: &'a Stock,
    runs: &mut Runs,
    iri: &Text,
) -> Result<Option<&'a Doc>, NoMemory>
    ensures document { IfOk result (λ doc. option_copied doc ≡ find stock.now iri.now) }
    ensures noted { OnOk result (runs.new ≡ record runs.old { read = runs.old.read ++ iri.now ∷ [] }) }
{
    note(runs, iri.try_copy(alloc)?)?;
    Ok(stock.get(iri.as_str()))
}

/// Steps 5.2.5.1 to 5.2.5.3: the document's `@context`.
pub fn context_in(doc: &Doc) -> Result<&Tree, Stop>
    ensures { Comes (λ local. give local.now) result (context_in doc.now doc.now.body) }
{
    match &doc.body {
        Stored::Read(_, tree) => match tree.get("@context") {
            Some(local) => Ok(local),
            None => Err(Stop::Code(Code::InvalidRemoteContext)),
        },
        _ => Err(Stop::Code(Code::LoadingRemoteContextFailed)),
    }
}

/// A document's URL as the base of what it holds, where it is an IRI.
pub fn base_of(alloc: Global, doc: &Doc) -> Result<Option<Iri>, NoMemory>
    ensures { IfOk result (λ base. base ≡ base_of doc.now) }
{
    if is_iri(doc.url.as_str()) {
        Ok(Some(doc.url.try_copy(alloc)?))
    } else {
        Ok(None)
    }
}
