use crate::making::{context, empty, name, one, put, term, text, two, with};
use ld_ctx::Ctx;
use ld_expand_value::expand_value;
use ld_tree::{Num, Tree};
use std::alloc::Global;
use std::process::Abort;

fn expanded(
    rt: &impl Abort,
    alloc: Global,
    ctx: &Ctx,
    property: &str,
    value: &Tree,
) -> Option<Tree> {
    expand_value(alloc, ctx, property, value).expect(rt, "memory")
}

#[test]
fn gives_a_text_the_language_at_hand(rt: HostRuntime) {
    let alloc = rt.alloc();
    let mut ctx = context(&rt, alloc);
    let mut french = term(&rt, alloc, "http://e/f");
    french.language = Some(Some(name(&rt, alloc, "fr")));
    put(&rt, alloc, &mut ctx, "f", french);
    let mut plain = term(&rt, alloc, "http://e/n");
    plain.language = Some(None);
    put(&rt, alloc, &mut ctx, "n", plain);
    let x = text(&rt, alloc, "x");
    let english = two(&rt, alloc, "@language", "en", "@value", "x");
    assert!(rt; expanded(&rt, alloc, &ctx, "http://e/p", &x) == Some(english));
    let french = two(&rt, alloc, "@language", "fr", "@value", "x");
    assert!(rt; expanded(&rt, alloc, &ctx, "f", &x) == Some(french));
    assert!(rt; expanded(&rt, alloc, &ctx, "n", &x) == Some(one(&rt, alloc, "@value", "x")));
}

#[test]
fn gives_a_type_mapping_its_meaning(rt: HostRuntime) {
    let alloc = rt.alloc();
    let mut ctx = context(&rt, alloc);
    let mut dated = term(&rt, alloc, "http://e/d");
    dated.typed = Some(name(&rt, alloc, "http://e/date"));
    put(&rt, alloc, &mut ctx, "d", dated);
    let mut linked = term(&rt, alloc, "http://e/l");
    linked.typed = Some(name(&rt, alloc, "@id"));
    put(&rt, alloc, &mut ctx, "l", linked);
    let mut untyped = term(&rt, alloc, "http://e/u");
    untyped.typed = Some(name(&rt, alloc, "@none"));
    put(&rt, alloc, &mut ctx, "u", untyped);
    let x = text(&rt, alloc, "x");
    let dated = two(&rt, alloc, "@type", "http://e/date", "@value", "x");
    assert!(rt; expanded(&rt, alloc, &ctx, "d", &x) == Some(dated));
    assert!(rt;
        expanded(&rt, alloc, &ctx, "l", &x) == Some(one(&rt, alloc, "@id", "http://e/d/x"))
    );
    let english = two(&rt, alloc, "@language", "en", "@value", "x");
    assert!(rt; expanded(&rt, alloc, &ctx, "u", &x) == Some(english));
    assert!(rt; expanded(&rt, alloc, &ctx, "l", &text(&rt, alloc, "@foo")).is_none());
}

#[test]
fn gives_a_number_no_language(rt: HostRuntime) {
    let alloc = rt.alloc();
    let ctx = context(&rt, alloc);
    let five = expanded(&rt, alloc, &ctx, "http://e/p", &Tree::Num(Num::Whole(5)));
    let wanted = with(&rt, alloc, empty(alloc), "@value", Tree::Num(Num::Whole(5)));
    assert!(rt; five == Some(wanted));
}
