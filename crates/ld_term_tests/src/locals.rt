use ld_ctx::{Ctx, Names, View};
use ld_rec::{Def, Stop};
use ld_term::{Defined, Next, Rest, define};
use ld_tree::{Entries, Items, Text, Tree};
use ld_tree_read::read_tree;
use std::alloc::Global;
use std::process::Abort;

/// The entries of a short JSON text that is a map.
pub fn local_context(rt: &impl Abort, alloc: Global, text: &str) -> Entries<Tree> {
    assert!(rt; text.len() <= 1_048_576);
    match read_tree(alloc, text.as_bytes()).expect(rt, "a JSON text") {
        Tree::Map(entries) => entries,
        _ => rt.panic("a map"),
    }
}

/// A context without terms, with a vocabulary.
pub fn fresh(rt: &impl Abort, alloc: Global) -> Ctx {
    let mut made = Ctx::fresh(alloc, None).expect(rt, "memory");
    made.vocab = Some(Text::from_str(alloc, "http://v/").expect(rt, "memory"));
    made.opened(alloc).expect(rt, "memory")
}

pub fn rest(alloc: Global) -> Rest {
    let remote: Names = Items::new(alloc);
    Rest {
        base: None,
        protected: false,
        over: false,
        remote,
        validate: true,
        depth: 1,
    }
}

/// What `define` gives for the term in a fresh table.
pub fn begun(
    rt: &impl Abort,
    alloc: Global,
    made: &mut Ctx,
    local: &str,
    term: &str,
) -> Result<Next, Stop> {
    let local = local_context(rt, alloc, local);
    let mut defined = Defined::new(alloc);
    define(alloc, made, &local, term, &mut defined, &rest(alloc))
}

pub fn definition<'a>(rt: &impl Abort, made: &'a Ctx, term: &str) -> &'a Def {
    made.def(term).expect(rt, "a definition")
}

/// The term's IRI mapping, or `null`.
pub fn mapping<'a>(rt: &impl Abort, made: &'a Ctx, term: &str) -> &'a str {
    match &definition(rt, made, term).mapping {
        Some(mapping) => mapping.as_str(),
        None => "null",
    }
}
