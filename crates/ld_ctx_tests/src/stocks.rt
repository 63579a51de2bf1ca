use crate::documents::document;
use ld_ctx::{Doc, Stock};
use ld_tree::Text;
use std::alloc::Global;
use std::process::Abort;
use std::sync::Arc;

fn entry(rt: &impl Abort, alloc: Global, iri: &str, text: &str) -> (Text, Doc) {
    let name = Text::from_str(alloc, iri).expect(rt, "memory");
    (name, document(rt, alloc, iri, text))
}

#[test]
fn a_stock_gives_each_document_by_its_iri(rt: HostRuntime) {
    let alloc = rt.alloc();
    let mut entries = Vec::new(alloc);
    entries
        .push(entry(&rt, alloc, "http://c/b", "{}"))
        .expect(&rt, "memory");
    entries
        .push(entry(&rt, alloc, "http://c/a", "[]"))
        .expect(&rt, "memory");
    let stock = Stock::of(alloc, entries).expect(&rt, "memory");
    let found = stock.get("http://c/a").expect(&rt, "the document");
    assert!(rt; found.url.as_str() == "http://c/a");
    let found = stock.get("http://c/b").expect(&rt, "the document");
    assert!(rt; found.url.as_str() == "http://c/b");
    assert!(rt; stock.get("http://c/").is_none());
}

#[test]
fn a_stock_shares_its_documents(rt: HostRuntime) {
    let alloc = rt.alloc();
    let (iri, doc) = entry(&rt, alloc, "http://c/a", "{}");
    let mine = Arc::new(alloc, doc).expect(&rt, "memory");
    let theirs = Arc::try_clone(&mine).expect(&rt, "a share");
    let mut entries = Vec::new(alloc);
    entries.push((iri, theirs)).expect(&rt, "memory");
    let stock = Stock::of_shared(alloc, entries).expect(&rt, "memory");
    let found = stock.get("http://c/a").expect(&rt, "the document");
    assert!(rt; found.url.as_str() == mine.url.as_str());
}
