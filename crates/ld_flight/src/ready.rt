//! Contexts that were loaded and read.
ghost use Rattle.std.specs.Prelude.{◌≡◌, ◌<◌, ◌≤◌, Some, None, length, IfOk, IfErr};
ghost use Rattle.std.specs.Arc.{arc_value};
ghost use Rattle.sha2.specs.Sha256.{sha256};
ghost use Rattle.ld_tree.specs.Reading.{reads};
ghost use Rattle.ld_tree.specs.declared.tree.Tree.{Tree};
ghost use Rattle.ld_tree_read.specs.Steps.{Known};
ghost use Rattle.ld_rec.specs.Documents.{IsStored, Keeps};
ghost use Rattle.ld_flight.specs.Loads.{longest_text, IsDocument};
ghost use Rattle.ld_flight.specs.Readied.{Tells, text_in};

use crate::given::mark_of;
use crate::loader::Loaded;
use crate::pass::Pass;
use ld_rec::{Doc, Stored};
use ld_tree::{NoMemory, Raw, Url};
use ld_tree_read::{ReadRefusal, read_tree};
use std::alloc::Global;
use std::marker::Model;
use std::sync::Arc;

/// The longest text that is kept, in bytes.
pub const TEXT_LIMIT: usize = 1_048_576;

/// A context that was loaded and read, with the pass of its flight. Like the pass it has to be spent.
pub struct Ready {
    pass: Pass,
    doc: Arc<Doc>,
    length: u32,
    mark: Raw,
}

impl Model for Ready {
    ghost use Rattle.std.specs.Arc.{arc_value};
    ghost use Rattle.ld_flight.specs.Readied.{Readied};
    ghost use Rattle.ld_rec.specs.contracts.doc.Doc as docs;
    ghost use Rattle.std.specs.Coded.{codes};

    ghost Value = { Readied };

    ghost coded = { Prim.hlevel (codes, docs.the_row.coded) };

    ghost view = { λ r. record { pass = r.pass; doc = arc_value r.doc; length = r.length; mark = r.mark } };

    ghost use Rattle.ld_flight.specs.Readied.{Tells};

    ghost invariant = { λ r. Tells (arc_value r.doc) r.length r.mark };
}

impl Ready {
    pub fn pass(&self) -> &Pass
        ensures { result.now ≡ self.now.pass }
    {
        &self.pass
    }

    /// The place that the text came from.
    pub fn url(&self) -> &Url
        ensures { result.now ≡ self.now.doc.url }
    {
        &self.doc.url
    }

    pub fn doc(&self) -> &Arc<Doc>
        ensures { arc_value result.now ≡ self.now.doc }
    {
        &self.doc
    }

    /// How many bytes the text had; 1,048,577 stands for more, too.
    pub fn length(&self) -> u32
        ensures length { result ≡ self.now.length }
        ensures tells { Tells self.now.doc self.now.length self.now.mark }
    {
        self.length
    }

    /// The SHA-256 of the text (FIPS 180-4).
    pub fn mark(&self) -> &Raw
        ensures { result.now ≡ self.now.mark }
    {
        &self.mark
    }

    /// Gives the document up.
    pub fn into_pass(self) -> Pass
        ensures { result ≡ self.pass }
    {
        self.into_parts().0
    }

    /// The pass, the document, and the length and the SHA-256 of its text.
    pub fn into_parts(self) -> (Pass, Arc<Doc>, u32, Raw)
        ensures pass { result.0 ≡ self.pass }
        ensures doc { arc_value result.1 ≡ self.doc }
        ensures length { result.2 ≡ self.length }
        ensures mark { result.3 ≡ self.mark }
    {
        let Ready {
            pass,
            doc,
            length,
            mark,
        } = self;
        (pass, doc, length, mark)
    }
}

impl Loaded {
    /// Reads the text. A text that is no JSON text of this profile, or is too long, gives a document that says so. Where
    /// memory is wanting, what was loaded comes back.
    pub fn ready(self, alloc: Global) -> Result<Ready, (Loaded, NoMemory)>
        requires { length self.text ≤ longest_text }
        ensures pass { IfOk result (λ ready. ready.pass ≡ self.pass) }
        ensures doc { IfOk result (λ ready. IsDocument ready.doc self.url self.text) }
        ensures length { IfOk result (λ ready. ready.length ≡ length self.text) }
        ensures mark { IfOk result (λ ready. ready.mark ≡ sha256 self.text) }
        ensures back { IfErr result (λ e. e.0 ≡ self) }
    {
        let length = self.text.as_slice().len() as u32;
        let Loaded { pass, url, text } = self;
        let mark = match mark_of(alloc, &text) {
            Ok(mark) => mark,
            Err(e) => return Err((Loaded { pass, url, text }, e)),
        };
        match share_document(alloc, url, text) {
            Ok(doc) => Ok(Ready {
                pass,
                doc,
                length,
                mark,
            }),
            Err((url, text, e)) => Err((Loaded { pass, url, text }, e)),
        }
    }
}

// The document of the text, or its parts again.
fn share_document(alloc: Global, url: Url, text: Raw) -> Result<Arc<Doc>, (Url, Raw, NoMemory)>
    ensures doc { IfOk result (λ doc. IsDocument (arc_value doc) url text) }
    ensures url_back { IfErr result (λ e. e.0 ≡ url) }
    ensures text_back { IfErr result (λ e. e.1 ≡ text) }
{
    if text.as_slice().len() > TEXT_LIMIT {
        return share_oversize(alloc, url, text);
    }
    let body = match read_text(alloc, text) {
        Ok(body) => body,
        Err((text, e)) => return Err((url, text, e)),
    };
    match share(alloc, url, body) {
        Ok(doc) => Ok(doc),
        Err((url, body)) => Err((url, into_text(body), NoMemory)),
    }
}

// A text that is too long isn't kept.
fn share_oversize(alloc: Global, url: Url, text: Raw) -> Result<Arc<Doc>, (Url, Raw, NoMemory)>
    requires { TEXT_LIMIT < length text }
    ensures doc { IfOk result (λ doc. IsDocument (arc_value doc) url text) }
    ensures url_back { IfErr result (λ e. e.0 ≡ url) }
    ensures text_back { IfErr result (λ e. e.1 ≡ text) }
{
    let doc = Doc {
        url,
        body: Stored::Oversize,
    };
    match Arc::new(alloc, doc) {
        Ok(doc) => Ok(doc),
        Err(failed) => Err((failed.value.url, text, NoMemory)),
    }
}

// What is kept of a text that isn't too long.
fn read_text(alloc: Global, text: Raw) -> Result<Stored, (Raw, NoMemory)>
    requires { length text ≤ TEXT_LIMIT }
    ensures body { IfOk result (Keeps text) }
    ensures kept { IfOk result (λ body. text_in body ≡ Some text) }
    ensures text_back { IfErr result (λ e. e.0 ≡ text) }
{
    match read_tree(alloc, text.as_slice()) {
        Ok(tree) => Ok(Stored::Read(text, tree)),
        Err(e) => keep_unread(text, e),
    }
}

// A text that no tree was read from is kept, unless that was for want of memory.
fn keep_unread(text: Raw, e: ReadRefusal) -> Result<Stored, (Raw, NoMemory)>
    requires short { length text ≤ TEXT_LIMIT }
    requires unread { Known e ((t : Tree) → reads text t → ⊥) }
    ensures body { IfOk result (Keeps text) }
    ensures kept { IfOk result (λ body. text_in body ≡ Some text) }
    ensures text_back { IfErr result (λ e. e.0 ≡ text) }
{
    match e {
        ReadRefusal::NoMemory => Err((text, NoMemory)),
        ReadRefusal::Syntax { .. }
        | ReadRefusal::NotUtf8 { .. }
        | ReadRefusal::Fraction { .. }
        | ReadRefusal::TooLarge { .. }
        | ReadRefusal::TooDeep { .. } => Ok(Stored::Unreadable(text)),
    }
}

fn share(alloc: Global, url: Url, body: Stored) -> Result<Arc<Doc>, (Url, Stored)>
    requires { ∥ IsStored body ∥₁ }
    ensures url { IfOk result (λ doc. (arc_value doc).url ≡ url) }
    ensures body { IfOk result (λ doc. (arc_value doc).body ≡ body) }
    ensures url_back { IfErr result (λ e. e.0 ≡ url) }
    ensures body_back { IfErr result (λ e. e.1 ≡ body) }
{
    match Arc::new(alloc, Doc { url, body }) {
        Ok(doc) => Ok(doc),
        Err(failed) => Err((failed.value.url, failed.value.body)),
    }
}

// The text of what is kept.
fn into_text(body: Stored) -> Raw
    requires { text_in body ≡ None → ⊥ }
    ensures { text_in body ≡ Some result }
{
    match body {
        Stored::Read(text, _tree) => text,
        Stored::Unreadable(text) => text,
        Stored::Oversize => unreachable!(),
    }
}
