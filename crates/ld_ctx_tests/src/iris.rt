use crate::contexts::{definition, put};
use ld_ctx::{Ctx, expand_iri};
use ld_tree::Text;
use std::alloc::Global;
use std::process::Abort;

fn context(rt: &impl Abort, alloc: Global) -> Ctx {
    let mut ctx = Ctx::fresh(alloc, Some("http://b/d/e")).expect(rt, "memory");
    ctx.vocab = Some(Text::from_str(alloc, "http://v/").expect(rt, "memory"));
    put(
        rt,
        alloc,
        &mut ctx,
        "n",
        definition(rt, alloc, "http://e/n", false),
    );
    put(
        rt,
        alloc,
        &mut ctx,
        "p",
        definition(rt, alloc, "http://p/", true),
    );
    put(
        rt,
        alloc,
        &mut ctx,
        "q",
        definition(rt, alloc, "http://q/", false),
    );
    put(
        rt,
        alloc,
        &mut ctx,
        "k",
        definition(rt, alloc, "@type", false),
    );
    ctx
}

fn expands(rt: &impl Abort, alloc: Global, ctx: &Ctx, row: (&str, bool, bool), to: Option<&str>) {
    let iri = expand_iri(alloc, ctx, row.0, row.1, row.2).expect(rt, "memory");
    match (iri, to) {
        (Some(iri), Some(to)) => assert!(rt; iri.as_str() == to, "{}", row.0),
        (None, None) => {}
        _ => rt.panic(row.0),
    }
}

// JSON-LD 1.1 API, 5.2.2: the value, document relative, vocab.
#[test]
fn iris_are_expanded_in_the_order_of_the_algorithm(rt: HostRuntime) {
    let alloc = rt.alloc();
    let ctx = context(&rt, alloc);
    expands(&rt, alloc, &ctx, ("@id", false, false), Some("@id"));
    expands(&rt, alloc, &ctx, ("@foo", true, true), None);
    expands(&rt, alloc, &ctx, ("n", false, true), Some("http://e/n"));
    expands(&rt, alloc, &ctx, ("n", true, false), Some("http://b/d/n"));
    expands(&rt, alloc, &ctx, ("n", false, false), Some("n"));
    expands(&rt, alloc, &ctx, ("k", true, false), Some("@type"));
    expands(&rt, alloc, &ctx, ("u", true, true), Some("http://v/u"));
    expands(&rt, alloc, &ctx, ("u", true, false), Some("http://b/d/u"));
}

#[test]
fn compact_iris_are_expanded_by_prefixes_with_the_flag(rt: HostRuntime) {
    let alloc = rt.alloc();
    let ctx = context(&rt, alloc);
    expands(&rt, alloc, &ctx, ("p:x", true, false), Some("http://p/x"));
    expands(&rt, alloc, &ctx, ("q:x", true, false), Some("q:x"));
    expands(
        &rt,
        alloc,
        &ctx,
        ("q:x y", false, true),
        Some("http://v/q:x y"),
    );
    expands(&rt, alloc, &ctx, ("_:b", true, true), Some("_:b"));
    expands(&rt, alloc, &ctx, ("p://x", true, true), Some("p://x"));
    expands(&rt, alloc, &ctx, (":x", false, true), Some("http://v/:x"));
}
