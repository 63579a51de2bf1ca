use ld_context::{Runs, process};
use ld_ctx::{Ask, Ctx, Stock, View};
use ld_rec::{Doc, Stop, Stored};
use ld_tree::{Items, Text, Tree};
use ld_tree_read::read_tree;
use std::alloc::Global;
use std::process::Abort;

/// The tree of a JSON text.
pub fn tree(rt: &impl Abort, alloc: Global, text: &str) -> Tree {
    read_tree(alloc, text.as_bytes()).expect(rt, "a JSON text")
}

fn document(rt: &impl Abort, alloc: Global, url: &str, text: &str) -> Doc {
    assert!(rt; text.len() <= 1_048_576);
    let kept = Vec::from_slice(alloc, text.as_bytes()).expect(rt, "memory");
    let tree = read_tree(alloc, text.as_bytes()).expect(rt, "a JSON text");
    Doc {
        url: Text::from_str(alloc, url).expect(rt, "memory"),
        body: Stored::Read(Items::from_vec(kept), tree),
    }
}

/// The stock of these texts, each at the IRI that asks for it.
pub fn stock(rt: &impl Abort, alloc: Global, texts: &[(&str, &str)]) -> Stock {
    let mut entries = Vec::new(alloc);
    for (iri, text) in texts {
        let name = Text::from_str(alloc, iri).expect(rt, "memory");
        entries
            .push((name, document(rt, alloc, iri, text)))
            .expect(rt, "memory");
    }
    Stock::of(alloc, entries).expect(rt, "memory")
}

/// An ask with the defaults, over a fresh context.
pub fn ask(rt: &impl Abort, alloc: Global, local: Tree) -> Ask<Ctx> {
    Ask {
        active: Ctx::fresh(alloc, Some("http://b/")).expect(rt, "memory"),
        local,
        base: Some(Text::from_str(alloc, "http://b/d/e").expect(rt, "memory")),
        remote: Items::new(alloc),
        over: false,
        propagate: true,
        validate: true,
        depth: 1,
    }
}

/// What processing the local context gives over a fresh context.
pub fn processed(
    rt: &impl Abort,
    alloc: Global,
    texts: &[(&str, &str)],
    local: &str,
) -> Result<Ctx, Stop> {
    let ask = ask(rt, alloc, tree(rt, alloc, local));
    let stock = stock(rt, alloc, texts);
    process(alloc, &ask, &stock, &mut Runs::new(alloc))
}

/// A short name of an answer.
pub fn named(answer: &Result<Ctx, Stop>) -> &str {
    match answer {
        Ok(_) => "a context",
        Err(Stop::Code(code)) => code.text(),
        Err(Stop::Own(ld_codes::Own::NestingLimit)) => "nesting limit",
        Err(Stop::Own(ld_codes::Own::OutsideProfile(keyword))) => keyword.text(),
        Err(Stop::Missing(iri)) => iri.as_str(),
        Err(Stop::NoMemory) => "no memory",
    }
}

/// The IRI mapping of a term.
pub fn mapping<'a>(answer: &'a Result<Ctx, Stop>, term: &str) -> Option<&'a str> {
    match answer {
        Ok(ctx) => match ctx.def(term) {
            Some(def) => match &def.mapping {
                Some(iri) => Some(iri.as_str()),
                None => None,
            },
            None => None,
        },
        Err(_) => None,
    }
}
