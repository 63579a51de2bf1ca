//! The context of a soak, and the stock of its document.
ghost use Rattle.std.specs.Prelude.{◌≡◌, ◌+◌, ◌<◌, ◌≤◌, ◌∷◌, [], IfOk, OnOk, length};
ghost use Rattle.ld_ctx.specs.Stocks.{stock_of};
ghost use Rattle.ld_flight.specs.Loads.{IsDocument, longest_text};
ghost use Rattle.ld_flight.specs.Passes.{last_flight};
ghost use Rattle.ld_rec.specs.declared.doc.Doc.{Doc};
ghost use Rattle.ld_soak.specs.Soaks.{context_iri, context_text, IsStock};

use ld_ctx::Stock;
use ld_flight::{Loaded, Loader, MemLoader, Refused, Tower};
use ld_tree::{NoMemory, Raw, Text};
use std::alloc::Global;

/// The IRI of the context.
pub const CONTEXT_IRI: &str = "http://c/s";

const CONTEXT_TEXT: &str = r#"{"@context":{"n":"http://e/n","k":"http://e/k"}}"#;

/// Loads the context, in one flight.
pub fn load_stock(alloc: Global, tower: &mut Tower) -> Result<Stock, NoMemory>
    requires { tower.old < last_flight }
    ensures stock { IfOk result IsStock }
    ensures made { OnOk result (tower.new ≡ tower.old + 1) }
{
    let mut loader = loader(alloc)?;
    let pass = tower.lead(Text::from_str(alloc, CONTEXT_IRI)?);
    match loader.load(alloc, pass) {
        Ok(loaded) => stock(alloc, loaded),
        // The loader has the answer, and none of its calls fails: it lacked memory.
        Err(refused) => {
            let Refused {
                pass,
                why: _,
                before: _,
                after: _,
            } = refused;
            pass.end();
            Err(NoMemory)
        }
    }
}

// The loader whose one answer is the context's document.
fn loader(alloc: Global) -> Result<MemLoader, NoMemory>
    ensures { IfOk result (λ loader. loader.answers ≡ (context_iri, context_iri, context_text) ∷ []) }
{
    let iri = Text::from_str(alloc, CONTEXT_IRI)?;
    let url = Text::from_str(alloc, CONTEXT_IRI)?;
    let text = Raw::from_vec(CONTEXT_TEXT.as_bytes().to_vec(alloc)?);
    let answers = vec![in alloc; (iri, url, text)]?;
    Ok(MemLoader::new(alloc, answers, Vec::new(alloc)))
}

// The stock of what was loaded. Its pass is spent.
fn stock(alloc: Global, loaded: Loaded) -> Result<Stock, NoMemory>
    requires { length loaded.text ≤ longest_text }
    ensures { IfOk result (λ stock. (doc : Doc) × IsDocument doc loaded.url loaded.text × (stock ≡ stock_of ((loaded.pass.iri, doc) ∷ []))) }
{
    match loaded.ready(alloc) {
        Ok(ready) => {
            let (pass, doc, _, _) = ready.into_parts();
            let documents = vec![in alloc; (pass.into_iri(), doc)]?;
            Stock::of_shared(alloc, documents)
        }
        Err((loaded, e)) => {
            let Loaded {
                pass,
                url: _,
                text: _,
            } = loaded;
            pass.end();
            Err(e)
        }
    }
}
