use crate::making::{context, name, one, put, term};
use crate::selection::{built, has_base};
use ld_codes::Code;
use ld_ctx::{Ctx, Def, Stop};
use ld_inverse::compact_iri;
use ld_tree::{Text, Tree};
use std::alloc::Global;
use std::process::Abort;

fn prefix(rt: &impl Abort, alloc: Global, iri: &str) -> Def {
    Def {
        prefix: true,
        ..term(rt, alloc, iri)
    }
}

fn compacted(
    rt: &impl Abort,
    alloc: Global,
    ctx: &Ctx,
    iri: &str,
    value: Option<&Tree>,
    vocab: bool,
) -> Result<Text, Stop> {
    has_base(rt, ctx);
    let inverse = built(rt, alloc, ctx);
    compact_iri(alloc, ctx, &*inverse, iri, value, vocab, false)
}

fn compacts(
    rt: &impl Abort,
    alloc: Global,
    ctx: &Ctx,
    iri: &str,
    value: Option<&Tree>,
    vocab: bool,
    wanted: &str,
) {
    let text = compacted(rt, alloc, ctx, iri, value, vocab).expect(rt, "a text");
    assert_eq!(rt; text.as_str(), wanted);
}

#[test]
fn takes_a_term_then_the_vocabulary(rt: HostRuntime) {
    let alloc = rt.alloc();
    let mut ctx = context(&rt, alloc);
    ctx.vocab = Some(name(&rt, alloc, "http://v/"));
    put(&rt, alloc, &mut ctx, "n", term(&rt, alloc, "http://v/name"));
    put(
        &rt,
        alloc,
        &mut ctx,
        "taken",
        term(&rt, alloc, "http://e/p"),
    );
    compacts(&rt, alloc, &ctx, "http://v/name", None, true, "n");
    compacts(&rt, alloc, &ctx, "http://v/other", None, true, "other");
    compacts(
        &rt,
        alloc,
        &ctx,
        "http://v/taken",
        None,
        true,
        "http://v/taken",
    );
    compacts(&rt, alloc, &ctx, "http://v/", None, true, "http://v/");
    compacts(&rt, alloc, &ctx, "@type", None, true, "@type");
}

// JSON-LD 1.1 API, 4.3, step 3: the shortest term, and of these the least.
#[test]
fn takes_the_shortest_term(rt: HostRuntime) {
    let alloc = rt.alloc();
    let mut ctx = context(&rt, alloc);
    put(&rt, alloc, &mut ctx, "ab", term(&rt, alloc, "http://e/p"));
    put(&rt, alloc, &mut ctx, "aa", term(&rt, alloc, "http://e/p"));
    compacts(&rt, alloc, &ctx, "http://e/p", None, true, "aa");
    put(&rt, alloc, &mut ctx, "b", term(&rt, alloc, "http://e/p"));
    compacts(&rt, alloc, &ctx, "http://e/p", None, true, "b");
}

// JSON-LD 1.1 API, 6.2.2, steps 7 and 8.
#[test]
fn takes_the_shortest_compact_iri(rt: HostRuntime) {
    let alloc = rt.alloc();
    let mut ctx = context(&rt, alloc);
    put(&rt, alloc, &mut ctx, "e", prefix(&rt, alloc, "http://e/"));
    put(
        &rt,
        alloc,
        &mut ctx,
        "ex",
        prefix(&rt, alloc, "http://e/a/"),
    );
    put(&rt, alloc, &mut ctx, "f", prefix(&rt, alloc, "http://e/"));
    put(&rt, alloc, &mut ctx, "g", term(&rt, alloc, "http://e/a/b"));
    compacts(&rt, alloc, &ctx, "http://e/a/b", None, false, "ex:b");
    compacts(&rt, alloc, &ctx, "http://e/c", None, false, "e:c");
    compacts(&rt, alloc, &ctx, "http://e/", None, false, "../");
    put(
        &rt,
        alloc,
        &mut ctx,
        "e:c",
        term(&rt, alloc, "http://e/other"),
    );
    compacts(&rt, alloc, &ctx, "http://e/c", None, false, "f:c");
}

// JSON-LD 1.1 API, 6.2.2, step 7: a compact IRI that is a term for the IRI counts where there is no value.
#[test]
fn takes_a_term_for_the_iri_without_a_value(rt: HostRuntime) {
    let alloc = rt.alloc();
    let mut ctx = context(&rt, alloc);
    put(&rt, alloc, &mut ctx, "e", prefix(&rt, alloc, "http://e/"));
    put(&rt, alloc, &mut ctx, "e:c", term(&rt, alloc, "http://e/c"));
    let value = one(&rt, alloc, "@id", "http://e/d");
    compacts(&rt, alloc, &ctx, "http://e/c", None, false, "e:c");
    compacts(&rt, alloc, &ctx, "http://e/c", Some(&value), false, "../c");
}

// A reference to what a term maps to is wished for by `@vocab` first, and another by `@id` first.
#[test]
fn takes_the_term_for_a_reference(rt: HostRuntime) {
    let alloc = rt.alloc();
    let mut ctx = context(&rt, alloc);
    let vocab = Def {
        typed: Some(name(&rt, alloc, "@vocab")),
        ..term(&rt, alloc, "http://e/p")
    };
    let id = Def {
        typed: Some(name(&rt, alloc, "@id")),
        ..term(&rt, alloc, "http://e/p")
    };
    put(&rt, alloc, &mut ctx, "byid", id);
    put(&rt, alloc, &mut ctx, "byvocab", vocab);
    put(
        &rt,
        alloc,
        &mut ctx,
        "thing",
        term(&rt, alloc, "http://e/t"),
    );
    let known = one(&rt, alloc, "@id", "http://e/t");
    let other = one(&rt, alloc, "@id", "http://e/u");
    compacts(
        &rt,
        alloc,
        &ctx,
        "http://e/p",
        Some(&known),
        true,
        "byvocab",
    );
    compacts(&rt, alloc, &ctx, "http://e/p", Some(&other), true, "byid");
}

// JSON-LD 1.1 API, 6.2.2, steps 9 and 10.
#[test]
fn makes_references_and_finds_confusion(rt: HostRuntime) {
    let alloc = rt.alloc();
    let mut ctx = context(&rt, alloc);
    compacts(&rt, alloc, &ctx, "http://e/d/x", None, false, "x");
    compacts(&rt, alloc, &ctx, "http://e/d/x", None, true, "http://e/d/x");
    compacts(&rt, alloc, &ctx, "http://e/d/#f", None, false, "#f");
    compacts(&rt, alloc, &ctx, "_:b0", None, false, "_:b0");
    put(&rt, alloc, &mut ctx, "tag", prefix(&rt, alloc, "http://e/"));
    match compacted(&rt, alloc, &ctx, "tag:x", None, true) {
        Err(Stop::Code(code)) => assert_eq!(rt; code, Code::IriConfusedWithPrefix),
        _ => assert!(rt; false),
    }
    compacts(&rt, alloc, &ctx, "tag://x/y", None, true, "tag://x/y");
}
