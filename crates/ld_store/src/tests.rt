use crate::{Placed, Snapshot};
use ld_rec::{Doc, Stored};
use ld_tree::{Items, Text};
use ld_tree_read::read_tree;
use std::alloc::Global;
use std::process::Abort;
use std::sync::Arc;

fn placed(rt: &impl Abort, alloc: Global, text: &str, flight: u32, version: u64) -> Placed {
    assert!(rt; text.len() <= 1_048_576);
    let kept = Vec::from_slice(alloc, text.as_bytes()).expect(rt, "memory");
    let tree = read_tree(alloc, text.as_bytes()).expect(rt, "a JSON text");
    let doc = Doc {
        url: Text::from_str(alloc, text).expect(rt, "memory"),
        body: Stored::Read(Items::from_vec(kept), tree),
    };
    Placed {
        doc: Arc::new(alloc, doc).expect(rt, "memory"),
        flight,
        version,
    }
}

#[test]
fn each_version_keeps_what_it_had(rt: HostRuntime) {
    let alloc = rt.alloc();
    let iri = Text::from_str(alloc, "http://c/a").expect(&rt, "memory");
    let empty = Snapshot::new(alloc);
    let first = empty
        .published(alloc, &iri, placed(&rt, alloc, "[]", 1, 1))
        .expect(&rt, "memory");
    let second = first
        .published(alloc, &iri, placed(&rt, alloc, "{}", 2, 2))
        .expect(&rt, "memory");
    let third = second.evicted(alloc, "http://c/a", 3).expect(&rt, "memory");
    assert!(rt; empty.get("http://c/a").is_none());
    let found = first.get("http://c/a").expect(&rt, "the document");
    assert!(rt; found.url.as_str() == "[]");
    let found = second.get("http://c/a").expect(&rt, "the document");
    assert!(rt; found.url.as_str() == "{}");
    assert!(rt; third.get("http://c/a").is_none());
    assert!(rt; third.version() == 3);
    let stock = second.stock(alloc).expect(&rt, "memory");
    let found = stock.get("http://c/a").expect(&rt, "the document");
    assert!(rt; found.url.as_str() == "{}");
    assert!(rt; second.placed().len() == 1);
}
