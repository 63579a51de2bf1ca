use ld_ctx::{Containers, Ctx, Def, View};
use ld_tree::Text;
use std::alloc::Global;
use std::process::Abort;

/// A definition with the mapping and the prefix flag, and nothing else.
pub fn definition(rt: &impl Abort, alloc: Global, mapping: &str, prefix: bool) -> Def {
    Def {
        mapping: Some(Text::from_str(alloc, mapping).expect(rt, "memory")),
        prefix,
        protected: false,
        reverse: false,
        typed: None,
        language: None,
        direction: None,
        containers: Containers {
            graph: false,
            id: false,
            index: false,
            language: false,
            list: false,
            set: false,
            types: false,
        },
        scoped: None,
        scoped_base: None,
    }
}

pub fn put(rt: &impl Abort, alloc: Global, ctx: &mut Ctx, term: &str, def: Def) {
    let term = Text::from_str(alloc, term).expect(rt, "memory");
    if ctx.put(term, def).is_err() {
        rt.panic("memory");
    }
}

fn maps_to(ctx: &Ctx, term: &str, iri: &str) -> bool {
    match ctx.def(term) {
        Some(def) => match &def.mapping {
            Some(mapping) => mapping.as_str() == iri,
            None => false,
        },
        None => false,
    }
}

#[test]
fn contexts_are_made_copied_and_read(rt: HostRuntime) {
    let alloc = rt.alloc();
    let mut ctx = Ctx::fresh(alloc, Some("http://b/")).expect(&rt, "memory");
    put(
        &rt,
        alloc,
        &mut ctx,
        "n",
        definition(&rt, alloc, "http://e/n", false),
    );
    put(
        &rt,
        alloc,
        &mut ctx,
        "a",
        definition(&rt, alloc, "http://e/a", false),
    );
    put(
        &rt,
        alloc,
        &mut ctx,
        "n",
        definition(&rt, alloc, "http://e/m", false),
    );
    let of = Ctx::of(alloc, &ctx).expect(&rt, "memory");
    let copy = ctx.try_copy(alloc).expect(&rt, "memory");
    assert!(rt; maps_to(&of, "n", "http://e/m") && maps_to(&of, "a", "http://e/a"));
    assert!(rt; maps_to(&copy, "n", "http://e/m") && maps_to(&copy, "a", "http://e/a"));
    assert!(rt; of.base() == Some("http://b/"));
    assert!(rt; copy.first_base() == Some("http://b/"));
    assert!(rt; copy.term_at(0) == Some("a"));
    assert!(rt; copy.term_at(1) == Some("n"));
    assert!(rt; copy.term_at(2).is_none());
}

#[test]
fn an_open_context_is_the_same_one(rt: HostRuntime) {
    let alloc = rt.alloc();
    let mut ctx = Ctx::fresh(alloc, None)
        .expect(&rt, "memory")
        .opened(alloc)
        .expect(&rt, "memory");
    put(
        &rt,
        alloc,
        &mut ctx,
        "n",
        definition(&rt, alloc, "http://e/n", false),
    );
    put(
        &rt,
        alloc,
        &mut ctx,
        "a",
        definition(&rt, alloc, "http://e/a", false),
    );
    assert!(rt; ctx.term_at(1) == Some("n"));
    let taken = ctx.take_out("a").expect(&rt, "the definition");
    assert!(rt; taken.is_same(&definition(&rt, alloc, "http://e/a", false)));
    let settled = ctx.settled(alloc).expect(&rt, "memory");
    assert!(rt; maps_to(&settled, "n", "http://e/n"));
    assert!(rt; settled.term_at(1).is_none());
}
