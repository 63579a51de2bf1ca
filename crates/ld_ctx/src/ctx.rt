ghost use Rattle.std.specs.Prelude.{◌≡◌, IfOk, OnOk, OnErr, IfErr, option_copied, slice_get};
ghost use Rattle.ld_tree.specs.Maps.{put as with_put, take_out as without};
ghost use Rattle.ld_rec.specs.Records.{fresh as fresh_context, def_of, with_terms};
ghost use Rattle.ld_ctx.specs.Flat.{flat as context_of, layers_of_boxed};
ghost use Rattle.ld_ctx.specs.Terms.{terms_of};

use crate::terms::Terms;
use crate::view::View;
use ld_rec::Def;
use ld_tree::{Entries, Iri, NoMemory, Text};
use std::alloc::Global;
use std::mem;

/// An active context (JSON-LD 1.1 API, 4.1), as a value of its own.
#[derive(Debug, Drop)]
pub struct Ctx {
    /// The base IRI.
    pub base: Option<Iri>,
    /// The original base URL.
    pub first_base: Option<Iri>,
    /// The vocabulary mapping.
    pub vocab: Option<Text>,
    /// The default language, in lower case.
    pub language: Option<Text>,
    /// The default base direction, which no context has yet.
    pub direction: Option<Text>,
    /// The previous context.
    pub previous: Option<Box<Ctx>>,
    terms: Terms,
}

impl Ctx {
    /// A newly initialized active context for the base.
    pub fn fresh(alloc: Global, base: Option<&str>) -> Result<Ctx, NoMemory>
        ensures { IfOk result (λ ctx. context_of ctx ≡ fresh_context (option_copied base.entry)) }
    {
        Ok(Ctx {
            base: text_of(alloc, base)?,
            first_base: text_of(alloc, base)?,
            vocab: None,
            language: None,
            direction: None,
            previous: None,
            terms: Terms::new(alloc),
        })
    }

    /// Puts a definition in place of a former one.
    pub fn put(&mut self, term: Text, def: Def) -> Result<(), (Text, Def, NoMemory)>
        ensures ok { OnOk result (context_of self.new ≡ with_terms (context_of self.old) (with_put (context_of self.old).own.terms term def)) }
        ensures given_back { IfErr result (λ e. (e.0 ≡ term) × (e.1 ≡ def)) }
        ensures unchanged { OnErr result (context_of self.new ≡ context_of self.old) }
    {
        self.terms.put(term, def)
    }

    /// Takes a definition out.
    pub fn take_out(&mut self, term: &str) -> Option<Def>
        ensures former { result ≡ def_of (context_of self.old) term.now }
        ensures context { context_of self.new ≡ with_terms (context_of self.old) (without (context_of self.old).own.terms term.now) }
    {
        self.terms.take_out(term)
    }
}

impl Ctx {
    /// The context that the view stands for, settled.
    #[cycle(of)]
    pub fn of<V: View>(alloc: Global, view: &V) -> Result<Ctx, NoMemory>
        ensures { IfOk result (λ ctx. context_of ctx ≡ V.flat view.now) }
    {
        Ok(Ctx {
            base: text_of(alloc, view.base())?,
            first_base: text_of(alloc, view.first_base())?,
            vocab: text_of(alloc, view.vocab())?,
            language: text_of(alloc, view.language())?,
            direction: text_of(alloc, view.direction())?,
            previous: previous_of(alloc, view)?,
            terms: terms_of_view(alloc, view)?,
        })
    }

    /// The same context, open: definitions are then put and taken out in logarithmic time.
    pub fn opened(self, alloc: Global) -> Result<Ctx, NoMemory>
        ensures { IfOk result (λ ctx. context_of ctx ≡ context_of self) }
    {
        let mut ctx = self;
        let terms = mem::replace(&mut ctx.terms, Terms::new(alloc));
        ctx.terms = terms.opened(alloc)?;
        Ok(ctx)
    }

    /// The same context, settled: its terms are then told by place in constant time.
    pub fn settled(self, alloc: Global) -> Result<Ctx, NoMemory>
        ensures { IfOk result (λ ctx. context_of ctx ≡ context_of self) }
    {
        let mut ctx = self;
        let terms = mem::replace(&mut ctx.terms, Terms::new(alloc));
        ctx.terms = terms.settled(alloc)?;
        Ok(ctx)
    }

    fn copied(&self, alloc: Global) -> Result<Ctx, NoMemory>
        ensures { IfOk result (λ ctx. context_of ctx ≡ context_of self.now) }
    {
        let previous = match &self.previous {
            Some(previous) => Some(Box::new(alloc, previous.copied(alloc)?)?),
            None => None,
        };
        Ok(Ctx {
            base: text_of(alloc, str_of(&self.base))?,
            first_base: text_of(alloc, str_of(&self.first_base))?,
            vocab: text_of(alloc, str_of(&self.vocab))?,
            language: text_of(alloc, str_of(&self.language))?,
            direction: text_of(alloc, str_of(&self.direction))?,
            previous,
            terms: self.terms.try_copy(alloc)?,
        })
    }
}

impl View for Ctx {
    ghost use Rattle.std.specs.Prelude.{◌≡◌, None};
    ghost use Rattle.ld_ctx.specs.Flat.{flat as context_of, behind as behind_of};

    ghost flat = { context_of };

    ghost behind = { behind_of };

    ghost IsCopy = { λ ctx copy. context_of copy ≡ context_of ctx };

    ghost numbered = { λ _. None };

    fn def(&self, term: &str) -> Option<&Def> {
        self.terms.get(term)
    }

    fn base(&self) -> Option<&str> {
        str_of(&self.base)
    }

    fn first_base(&self) -> Option<&str> {
        str_of(&self.first_base)
    }

    fn vocab(&self) -> Option<&str> {
        str_of(&self.vocab)
    }

    fn language(&self) -> Option<&str> {
        str_of(&self.language)
    }

    fn direction(&self) -> Option<&str> {
        str_of(&self.direction)
    }

    fn previous(&self) -> Option<&Ctx> {
        match &self.previous {
            Some(previous) => Some(&**previous),
            None => None,
        }
    }

    fn term_at(&self, place: usize) -> Option<&str> {
        self.terms.name_at(place)
    }

    fn number(&self) -> Option<u32> {
        None
    }

    fn try_copy(&self, alloc: Global) -> Result<Ctx, NoMemory> {
        self.copied(alloc)
    }
}

#[cycle(of)]
fn previous_of<V: View>(alloc: Global, view: &V) -> Result<Option<Box<Ctx>>, NoMemory>
    ensures { IfOk result (λ previous. layers_of_boxed previous ≡ (V.flat view.now).before) }
{
    match view.previous() {
        Some(previous) => Ok(Some(Box::new(alloc, Ctx::of(alloc, previous)?)?)),
        None => Ok(None),
    }
}

// The definitions in the order of their terms.
fn terms_of_view<V: View>(alloc: Global, view: &V) -> Result<Terms, NoMemory>
    ensures { IfOk result (λ terms. terms_of terms ≡ (V.flat view.now).own.terms) }
{
    let mut copied = Vec::new(alloc);
    let mut place = 0;
    while let Some(entry) = entry_at(alloc, view, place)? {
        copied.push(entry)?;
        place += 1;
    }
    Ok(Terms::Settled(Entries::from_sorted(copied)))
}

fn entry_at<V: View>(alloc: Global, view: &V, place: usize) -> Result<Option<(Text, Def)>, NoMemory>
    ensures { IfOk result (λ entry. entry ≡ slice_get (V.flat view.now).own.terms.0 place) }
{
    match view.term_at(place) {
        None => Ok(None),
        Some(term) => match view.def(term) {
            None => Ok(None),
            Some(def) => Ok(Some((Text::from_str(alloc, term)?, def.try_copy(alloc)?))),
        },
    }
}

fn text_of(alloc: Global, text: Option<&str>) -> Result<Option<Text>, NoMemory>
    ensures { IfOk result (λ copy. copy ≡ option_copied text.entry) }
{
    match text {
        Some(text) => Ok(Some(Text::from_str(alloc, text)?)),
        None => Ok(None),
    }
}

fn str_of(text: &Option<Text>) -> Option<&str>
    ensures { option_copied result ≡ text.now }
{
    match text {
        Some(text) => Some(text.as_str()),
        None => None,
    }
}
