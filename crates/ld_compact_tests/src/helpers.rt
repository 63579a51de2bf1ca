use ld_compact::compact;
use ld_context::Plain;
use ld_ctx::Stock;
use ld_iri::is_iri;
use ld_rec::{Doc, Stop, Stored};
use ld_tree::{Items, Text, Tree};
use ld_tree_read::read_tree;
use std::alloc::Global;
use std::process::Abort;

pub fn read(rt: &impl Abort, alloc: Global, text: &str) -> Tree {
    read_tree(alloc, text.as_bytes()).expect(rt, "a JSON text")
}

fn document(rt: &impl Abort, alloc: Global, url: &str, text: &str) -> Doc {
    assert!(rt; text.len() <= 1_048_576);
    let kept = Vec::from_slice(alloc, text.as_bytes()).expect(rt, "memory");
    let tree = read_tree(alloc, text.as_bytes()).expect(rt, "a JSON text");
    Doc {
        url: Text::from_str(alloc, url).expect(rt, "memory"),
        body: Stored::Read(Items::from_vec(kept), tree),
    }
}

/// The stock of these texts, each at the IRI that asks for it.
pub fn stock(rt: &impl Abort, alloc: Global, texts: &[(&str, &str)]) -> Stock {
    let mut entries = Vec::new(alloc);
    for (iri, text) in texts {
        let name = Text::from_str(alloc, iri).expect(rt, "memory");
        entries
            .push((name, document(rt, alloc, iri, text)))
            .expect(rt, "memory");
    }
    Stock::of(alloc, entries).expect(rt, "memory")
}

/// What compaction answers over the texts.
pub fn answer(
    rt: &impl Abort,
    alloc: Global,
    texts: &[(&str, &str)],
    base: Option<&str>,
    arrays: bool,
    expanded: &str,
    context: &str,
) -> Result<Tree, Stop> {
    if let Some(base) = base {
        assert!(rt; is_iri(base));
    }
    let stock = stock(rt, alloc, texts);
    let mut work = Plain::new(alloc, &stock);
    let expanded = read(rt, alloc, expanded);
    let context = read(rt, alloc, context);
    compact(alloc, &mut work, &expanded, &context, base, arrays)
}

/// A row: an expanded document, a context, and what they compact to.
pub type Row = (&'static str, &'static str, &'static str);

/// That the expanded document compacts to the text.
pub fn compacts(rt: &impl Abort, alloc: Global, base: Option<&str>, arrays: bool, row: &Row) {
    let (expanded, context, want) = row;
    let want = read(rt, alloc, want);
    match answer(rt, alloc, &[], base, arrays, expanded, context) {
        Ok(got) => assert!(rt; got.is_same(&want), "at {expanded}"),
        Err(_) => rt.panic("refused"),
    }
}

/// The same for each row, with `compactArrays` true and without a base.
pub fn all_compact(rt: &impl Abort, alloc: Global, rows: &[Row]) {
    for row in rows {
        compacts(rt, alloc, None, true, row);
    }
}
