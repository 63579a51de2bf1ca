ghost use Rattle.std.specs.Prelude.{◌≡◌, None, IfOk, OnOk};
ghost use Rattle.std.specs.Arc.{arc_value};
ghost use Rattle.ld_ctx.specs.Flat.{flat};
ghost use Rattle.ld_inverse.specs.Inverses.{IsInverseOf};
ghost use Rattle.ld_rec.specs.Promises.{IsBase};

use ld_ctx::{Containers, Ctx, Def, Stop};
use ld_inverse::{BuildTicket, Inverse, build, compact_iri};
use ld_tree::{NoMemory, Text};
use std::alloc::Global;
use std::sync::Arc;

/// What is timed.
#[derive(Clone, Copy)]
pub enum Kind {
    Build,
    Terms,
    Others,
}

#[derive(Clone, Copy)]
pub struct Wanted {
    pub kind: Kind,
    pub terms: u32,
    pub rounds: u32,
}

// Every tenth term is a prefix.
fn definition(alloc: Global, number: u32) -> Result<Def, NoMemory> {
    let mapping = format!(in alloc; "http://example.org/vocabulary/{number}/")?;
    Ok(Def {
        mapping: Some(Text::from_string(mapping)),
        prefix: number % 10 == 0,
        protected: false,
        reverse: false,
        typed: None,
        language: None,
        direction: None,
        containers: Containers {
            graph: false,
            id: false,
            index: false,
            language: false,
            list: false,
            set: false,
            types: false,
        },
        scoped: None,
        scoped_base: None,
    })
}

fn put(alloc: Global, ctx: &mut Ctx, number: u32) -> Result<(), NoMemory>
    ensures { OnOk result ((flat ctx.new).own.base ≡ (flat ctx.old).own.base) }
{
    let term = Text::from_string(format!(in alloc; "term{number}")?);
    match ctx.put(term, definition(alloc, number)?) {
        Ok(()) => Ok(()),
        Err((_, _, e)) => Err(e),
    }
}

fn context(alloc: Global, terms: u32) -> Result<Ctx, NoMemory>
    ensures { IfOk result (λ ctx. (flat ctx).own.base ≡ None) }
{
    let mut ctx = Ctx::fresh(alloc, None)?.opened(alloc)?;
    for number in 0..terms {
        put(alloc, &mut ctx, number)?;
    }
    ctx.settled(alloc)
}

fn built(alloc: Global, ctx: &Ctx) -> Result<Arc<Inverse>, NoMemory>
    ensures { IfOk result (λ inverse. IsInverseOf (arc_value inverse) (flat ctx.now)) }
{
    match build(alloc, BuildTicket::own(), ctx) {
        Ok(inverse) => Ok(inverse),
        Err((ticket, e)) => {
            let _ = ticket.end();
            Err(e)
        }
    }
}

fn build_often(alloc: Global, ctx: &Ctx, rounds: u32) -> Result<u64, Stop> {
    let mut numbered = 0u64;
    for _ in 0..rounds {
        let inverse = built(alloc, ctx)?;
        numbered = numbered.wrapping_add(u64::from(inverse.number().unwrap_or(1)));
    }
    Ok(numbered)
}

fn iri(alloc: Global, wanted: &Wanted, round: u32) -> Result<String, NoMemory> {
    let text = match wanted.kind {
        Kind::Terms if wanted.terms > 0 => {
            let number = round % wanted.terms;
            format!(in alloc; "http://example.org/vocabulary/{number}/")?
        }
        _ => format!(in alloc; "http://example.org/vocabulary/{round}/name")?,
    };
    Ok(text)
}

fn compact_often(alloc: Global, ctx: &Ctx, inverse: &Inverse, wanted: &Wanted) -> Result<u64, Stop>
    requires inverse { IsInverseOf inverse.now (flat ctx.now) }
    requires base { IsBase (flat ctx.now).own.base }
{
    let mut bytes = 0u64;
    for round in 0..wanted.rounds {
        let iri = iri(alloc, wanted, round)?;
        let text = compact_iri(alloc, ctx, inverse, iri.as_str(), None, true, false)?;
        bytes = bytes.wrapping_add(text.as_str().len() as u64);
    }
    Ok(bytes)
}

/// Does the work, and gives how many bytes came of it, or how many inverses.
pub fn run(alloc: Global, wanted: &Wanted) -> Result<u64, Stop> {
    let ctx = context(alloc, wanted.terms)?;
    match wanted.kind {
        Kind::Build => build_often(alloc, &ctx, wanted.rounds),
        _ => {
            let inverse = built(alloc, &ctx)?;
            compact_often(alloc, &ctx, &*inverse, wanted)
        }
    }
}
