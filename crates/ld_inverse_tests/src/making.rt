use ld_ctx::{Containers, Ctx, Def};
use ld_tree::{Entries, Items, Text, Tree};
use std::alloc::Global;
use std::process::Abort;

pub const NO_CONTAINERS: Containers = Containers {
    graph: false,
    id: false,
    index: false,
    language: false,
    list: false,
    set: false,
    types: false,
};

pub fn name(rt: &impl Abort, alloc: Global, text: &str) -> Text {
    Text::from_str(alloc, text).expect(rt, "memory")
}

// A map's entries.
pub fn entries(rt: &impl Abort, alloc: Global, map: Tree) -> Entries<Tree> {
    match map {
        Tree::Map(entries) => entries,
        _ => {
            assert!(rt; false);
            Entries::new(alloc)
        }
    }
}

pub fn text(rt: &impl Abort, alloc: Global, value: &str) -> Tree {
    Tree::Text(name(rt, alloc, value))
}

pub fn none(alloc: Global) -> Tree {
    Tree::List(Items::new(alloc))
}

pub fn empty(alloc: Global) -> Tree {
    Tree::Map(Entries::new(alloc))
}

// The list with one more item.
pub fn and(rt: &impl Abort, list: Tree, item: Tree) -> Tree {
    match list {
        Tree::List(mut items) => {
            assert!(rt; items.push(item).is_ok());
            Tree::List(items)
        }
        other => other,
    }
}

// The map with one more entry.
pub fn with(rt: &impl Abort, alloc: Global, map: Tree, key: &str, value: Tree) -> Tree {
    match map {
        Tree::Map(mut entries) => {
            assert!(rt; entries.put(name(rt, alloc, key), value).is_ok());
            Tree::Map(entries)
        }
        other => other,
    }
}

// The map of one entry.
pub fn one(rt: &impl Abort, alloc: Global, key: &str, value: &str) -> Tree {
    with(rt, alloc, empty(alloc), key, text(rt, alloc, value))
}

// The map of two entries.
pub fn two(
    rt: &impl Abort,
    alloc: Global,
    key: &str,
    value: &str,
    other_key: &str,
    other: &str,
) -> Tree {
    let map = one(rt, alloc, key, value);
    with(rt, alloc, map, other_key, text(rt, alloc, other))
}

// A term of that IRI mapping.
pub fn term(rt: &impl Abort, alloc: Global, iri: &str) -> Def {
    Def {
        mapping: Some(name(rt, alloc, iri)),
        prefix: false,
        protected: false,
        reverse: false,
        typed: None,
        language: None,
        direction: None,
        containers: NO_CONTAINERS,
        scoped: None,
        scoped_base: None,
    }
}

// A context with a base and a default language.
pub fn context(rt: &impl Abort, alloc: Global) -> Ctx {
    let mut ctx = Ctx::fresh(alloc, Some("http://e/d/")).expect(rt, "memory");
    ctx.language = Some(name(rt, alloc, "en"));
    ctx
}

pub fn put(rt: &impl Abort, alloc: Global, ctx: &mut Ctx, key: &str, def: Def) {
    assert!(rt; ctx.put(name(rt, alloc, key), def).is_ok());
}
