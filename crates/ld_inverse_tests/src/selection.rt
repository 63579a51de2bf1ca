ghost use Rattle.std.specs.Arc.{arc_value};
ghost use Rattle.ld_rec.specs.Promises.{IsBase};
ghost use Rattle.ld_ctx.specs.Flat.{flat};
ghost use Rattle.ld_inverse.specs.Inverses.{IsInverseOf};

use crate::making::{NO_CONTAINERS, context, name, put, term};
use crate::slow::chosen;
use ld_ctx::{Containers, Ctx, Def, View};
use ld_inverse::{BuildTicket, Inverse, Kind, build};
use ld_iri::is_iri;
use std::alloc::Global;
use std::process::Abort;
use std::sync::Arc;

const X: &str = "http://e/x";

const Y: &str = "http://e/y";

const BY_INDEX: Containers = Containers {
    index: true,
    ..NO_CONTAINERS
};

const BY_INDEX_SET: Containers = Containers {
    index: true,
    set: true,
    ..NO_CONTAINERS
};

fn typed(rt: &impl Abort, alloc: Global, iri: &str, mapping: &str) -> Def {
    Def {
        typed: Some(name(rt, alloc, mapping)),
        ..term(rt, alloc, iri)
    }
}

fn tagged(rt: &impl Abort, alloc: Global, iri: &str, tag: Option<&str>) -> Def {
    let tag = match tag {
        Some(tag) => Some(name(rt, alloc, tag)),
        None => None,
    };
    Def {
        language: Some(tag),
        ..term(rt, alloc, iri)
    }
}

fn contained(rt: &impl Abort, alloc: Global, iri: &str, containers: Containers) -> Def {
    Def {
        containers,
        ..term(rt, alloc, iri)
    }
}

const TERMS: [&str; 15] = [
    "aaa",
    "aab",
    "any",
    "bb",
    "de",
    "id",
    "index",
    "indices",
    "no",
    "none",
    "null",
    "rev",
    "typed",
    "zz",
    "\u{e9}\u{e9}",
];

// Definitions of every kind, with several terms for each of some slots.
fn fill(rt: &impl Abort, alloc: Global, ctx: &mut Ctx) {
    put(rt, alloc, ctx, "aaa", term(rt, alloc, X));
    put(rt, alloc, ctx, "aab", typed(rt, alloc, X, "http://e/T"));
    put(rt, alloc, ctx, "any", typed(rt, alloc, X, "@none"));
    put(rt, alloc, ctx, "bb", term(rt, alloc, Y));
    put(rt, alloc, ctx, "de", tagged(rt, alloc, X, Some("de")));
    put(rt, alloc, ctx, "id", typed(rt, alloc, Y, "@id"));
    put(rt, alloc, ctx, "index", contained(rt, alloc, X, BY_INDEX));
    put(
        rt,
        alloc,
        ctx,
        "indices",
        contained(rt, alloc, X, BY_INDEX_SET),
    );
    let null = Def {
        mapping: None,
        ..term(rt, alloc, X)
    };
    put(rt, alloc, ctx, "no", null);
    put(rt, alloc, ctx, "none", tagged(rt, alloc, Y, Some("@none")));
    put(rt, alloc, ctx, "null", tagged(rt, alloc, X, None));
    let reverse = Def {
        reverse: true,
        ..typed(rt, alloc, X, "@id")
    };
    put(rt, alloc, ctx, "rev", reverse);
    put(rt, alloc, ctx, "typed", typed(rt, alloc, X, "http://e/T"));
    put(rt, alloc, ctx, "zz", term(rt, alloc, X));
    put(rt, alloc, ctx, "\u{e9}\u{e9}", term(rt, alloc, X));
}

// The inverse, built from a ticket of its own.
pub fn built(rt: &impl Abort, alloc: Global, ctx: &Ctx) -> Arc<Inverse>
    ensures { IsInverseOf (arc_value result) (flat ctx.now) }
{
    let inverse = match build(alloc, BuildTicket::own(), ctx) {
        Ok(inverse) => Some(inverse),
        Err((ticket, _)) => {
            let _ = ticket.end();
            None
        }
    };
    inverse.expect(rt, "memory")
}

// That the base is an IRI, which the calls ask for.
pub fn has_base(rt: &impl Abort, ctx: &Ctx)
    ensures { IsBase (flat ctx.now).own.base }
{
    match ctx.base() {
        Some(base) => assert!(rt; is_iri(base)),
        None => {}
    }
}

fn compare(rt: &impl Abort, ctx: &Ctx, inverse: &Inverse, iri: &str, kind: Kind, wish: &str) {
    let containers = [BY_INDEX, NO_CONTAINERS, BY_INDEX_SET];
    for first in 0..containers.len() {
        let tried = &containers[first..];
        let wishes = [wish, "@none", "@any"];
        for last in 0..wishes.len() + 1 {
            let preferred = &wishes[..last];
            let wanted = chosen(ctx, &TERMS, iri, tried, kind, preferred);
            assert_eq!(rt; inverse.select(iri, tried, kind, preferred), wanted);
        }
    }
}

fn compare_all(rt: &impl Abort, ctx: &Ctx, inverse: &Inverse) {
    for iri in [X, Y, "http://e/", "http://e/xx"] {
        for kind in [Kind::Any, Kind::Tag, Kind::Typed] {
            for wish in ["en", "de", "@null", "@id", "@reverse", "http://e/T"] {
                compare(rt, ctx, inverse, iri, kind, wish);
            }
        }
    }
}

#[test]
fn selects_as_a_slow_program_does(rt: HostRuntime) {
    let alloc = rt.alloc();
    let mut ctx = context(&rt, alloc);
    fill(&rt, alloc, &mut ctx);
    let inverse = built(&rt, alloc, &ctx);
    compare_all(&rt, &ctx, &inverse);
    ctx.language = None;
    let inverse = built(&rt, alloc, &ctx);
    compare_all(&rt, &ctx, &inverse);
}

// The Recommendation's order (4.3, step 3): shortest first, then least.
#[test]
fn takes_the_shortest_term_and_then_the_least(rt: HostRuntime) {
    let alloc = rt.alloc();
    let mut ctx = context(&rt, alloc);
    put(&rt, alloc, &mut ctx, "aaa", term(&rt, alloc, X));
    put(&rt, alloc, &mut ctx, "zz", term(&rt, alloc, X));
    put(&rt, alloc, &mut ctx, "\u{e9}\u{e9}", term(&rt, alloc, X));
    let inverse = built(&rt, alloc, &ctx);
    let found = inverse.select(X, &[NO_CONTAINERS], Kind::Tag, &["@null", "@none"]);
    assert_eq!(rt; found, Some("zz"));
}
