use ld_rec::{Doc, Stored};
use ld_tree::{Items, Text};
use ld_tree_read::read_tree;
use std::alloc::Global;
use std::process::Abort;

/// The document of a short JSON text.
pub fn document(rt: &impl Abort, alloc: Global, url: &str, text: &str) -> Doc {
    assert!(rt; text.len() <= 1_048_576);
    let kept = Vec::from_slice(alloc, text.as_bytes()).expect(rt, "memory");
    let tree = read_tree(alloc, text.as_bytes()).expect(rt, "a JSON text");
    Doc {
        url: Text::from_str(alloc, url).expect(rt, "memory"),
        body: Stored::Read(Items::from_vec(kept), tree),
    }
}
