use crate::making::{and, context, empty, entries, none, one, put, term, text, two, with};
use ld_codes::Code;
use ld_ctx::Stop;
use ld_expand_value::language_map;
use ld_tree::{Num, Tree};

// {"DE": ["b", null], "en": "a", "nolang": "c", "@none": "d"}, where `nolang` means `@none`.
#[test]
fn expands_a_language_map(rt: HostRuntime) {
    let alloc = rt.alloc();
    let mut ctx = context(&rt, alloc);
    put(&rt, alloc, &mut ctx, "nolang", term(&rt, alloc, "@none"));
    let german = and(&rt, none(alloc), text(&rt, alloc, "b"));
    let german = and(&rt, german, Tree::Null);
    let map = with(&rt, alloc, empty(alloc), "DE", german);
    let map = with(&rt, alloc, map, "en", text(&rt, alloc, "a"));
    let map = with(&rt, alloc, map, "nolang", text(&rt, alloc, "c"));
    let map = with(&rt, alloc, map, "@none", text(&rt, alloc, "d"));
    let map = entries(&rt, alloc, map);
    let wanted = and(&rt, none(alloc), one(&rt, alloc, "@value", "d"));
    let wanted = and(
        &rt,
        wanted,
        two(&rt, alloc, "@language", "de", "@value", "b"),
    );
    let wanted = and(
        &rt,
        wanted,
        two(&rt, alloc, "@language", "en", "@value", "a"),
    );
    let wanted = and(&rt, wanted, one(&rt, alloc, "@value", "c"));
    let items = language_map(alloc, &ctx, &map).expect(&rt, "memory");
    assert!(rt; Tree::List(items) == wanted);
}

#[test]
fn refuses_what_is_no_text(rt: HostRuntime) {
    let alloc = rt.alloc();
    let ctx = context(&rt, alloc);
    let map = with(&rt, alloc, empty(alloc), "en", Tree::Num(Num::Whole(1)));
    let map = entries(&rt, alloc, map);
    let refused = language_map(alloc, &ctx, &map);
    assert!(rt; matches!(refused, Err(Stop::Code(Code::InvalidLanguageMapValue))));
}
