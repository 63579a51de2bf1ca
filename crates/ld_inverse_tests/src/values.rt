use crate::making::{context, empty, name, one, put, term, text, two, with};
use crate::selection::{built, has_base};
use ld_ctx::{Ctx, Def};
use ld_inverse::compact_value;
use ld_tree::Tree;
use std::alloc::Global;
use std::process::Abort;

fn compacts(rt: &impl Abort, alloc: Global, ctx: &Ctx, value: &Tree, wanted: &Tree) {
    has_base(rt, ctx);
    let inverse = built(rt, alloc, ctx);
    let made = compact_value(alloc, ctx, &*inverse, "p", value).expect(rt, "a value");
    assert!(rt; made == *wanted);
}

fn typed(rt: &impl Abort, alloc: Global, mapping: &str) -> Def {
    Def {
        typed: Some(name(rt, alloc, mapping)),
        ..term(rt, alloc, "http://e/p")
    }
}

// JSON-LD 1.1 API, 6.3.2, step 6.
#[test]
fn compacts_references(rt: HostRuntime) {
    let alloc = rt.alloc();
    let mut ctx = context(&rt, alloc);
    put(&rt, alloc, &mut ctx, "t", term(&rt, alloc, "http://e/d/t"));
    let value = one(&rt, alloc, "@id", "http://e/d/t");
    compacts(&rt, alloc, &ctx, &value, &value);
    put(&rt, alloc, &mut ctx, "p", typed(&rt, alloc, "@id"));
    compacts(&rt, alloc, &ctx, &value, &text(&rt, alloc, "t"));
    put(&rt, alloc, &mut ctx, "p", typed(&rt, alloc, "@vocab"));
    compacts(&rt, alloc, &ctx, &value, &text(&rt, alloc, "t"));
    let other = two(&rt, alloc, "@id", "http://e/d/u", "@index", "i");
    compacts(&rt, alloc, &ctx, &other, &text(&rt, alloc, "http://e/d/u"));
}

// JSON-LD 1.1 API, 6.3.2, steps 7 and 8.
#[test]
fn compacts_typed_values(rt: HostRuntime) {
    let alloc = rt.alloc();
    let mut ctx = context(&rt, alloc);
    put(&rt, alloc, &mut ctx, "T", term(&rt, alloc, "http://e/T"));
    put(&rt, alloc, &mut ctx, "is", term(&rt, alloc, "@type"));
    let value = two(&rt, alloc, "@type", "http://e/T", "@value", "x");
    let kept = two(&rt, alloc, "is", "T", "@value", "x");
    compacts(&rt, alloc, &ctx, &value, &kept);
    put(&rt, alloc, &mut ctx, "p", typed(&rt, alloc, "http://e/T"));
    compacts(&rt, alloc, &ctx, &value, &text(&rt, alloc, "x"));
    put(&rt, alloc, &mut ctx, "p", typed(&rt, alloc, "@none"));
    compacts(&rt, alloc, &ctx, &value, &kept);
    compacts(
        &rt,
        alloc,
        &ctx,
        &one(&rt, alloc, "@value", "x"),
        &one(&rt, alloc, "@value", "x"),
    );
}

// JSON-LD 1.1 API, 6.3.2, steps 9 and 10: the default language is `en`.
#[test]
fn compacts_texts_in_their_language(rt: HostRuntime) {
    let alloc = rt.alloc();
    let mut ctx = context(&rt, alloc);
    let english = two(&rt, alloc, "@language", "en", "@value", "x");
    let german = two(&rt, alloc, "@language", "de", "@value", "x");
    let plain = one(&rt, alloc, "@value", "x");
    compacts(&rt, alloc, &ctx, &english, &text(&rt, alloc, "x"));
    compacts(&rt, alloc, &ctx, &german, &german);
    compacts(&rt, alloc, &ctx, &plain, &plain);
    let truth = with(&rt, alloc, empty(alloc), "@value", Tree::Bool(true));
    compacts(&rt, alloc, &ctx, &truth, &Tree::Bool(true));
    let null = Def {
        language: Some(None),
        ..term(&rt, alloc, "http://e/p")
    };
    put(&rt, alloc, &mut ctx, "p", null);
    compacts(&rt, alloc, &ctx, &plain, &text(&rt, alloc, "x"));
    compacts(&rt, alloc, &ctx, &english, &english);
    let indexed = two(&rt, alloc, "@index", "i", "@value", "x");
    compacts(&rt, alloc, &ctx, &indexed, &indexed);
}
