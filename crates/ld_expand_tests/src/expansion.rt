use crate::contexts::Fresh;
use ld_expand::expand;
use ld_tree::Tree;
use ld_tree_read::read_tree;
use std::alloc::Global;
use std::process::Abort;

pub fn read(rt: &impl Abort, alloc: Global, text: &str) -> Tree {
    read_tree(alloc, text.as_bytes()).expect(rt, "a JSON text")
}

fn expands(rt: &impl Abort, alloc: Global, base: Option<&str>, document: &str, want: &str) {
    let tree = read(rt, alloc, document);
    let got = expand(alloc, &mut Fresh, base, &tree);
    let want = read(rt, alloc, want);
    match got {
        Ok(got) => assert!(rt; got.is_same(&want), "at {document}"),
        Err(_) => rt.panic("refused"),
    }
}

// A row: a document, and what it expands to.
type Row = (&'static str, &'static str);

fn all_expand(rt: &impl Abort, alloc: Global, rows: &[Row]) {
    for (document, want) in rows {
        expands(rt, alloc, None, document, want);
    }
}

#[test]
fn documents_that_say_nothing(rt: HostRuntime) {
    let rows = [
        ("{}", "[]"),
        ("null", "[]"),
        ("[]", "[]"),
        ("\"free\"", "[]"),
        (r#"{"@id":"http://e/a"}"#, "[]"),
        (r#"{"@value":"free"}"#, "[]"),
        (r#"{"a term of no context":1}"#, "[]"),
    ];
    all_expand(&rt, rt.alloc(), &rows);
}

#[test]
fn values_lists_and_sets(rt: HostRuntime) {
    let rows = [
        (
            r#"{"http://e/p":["a",null,[true,[5]]]}"#,
            r#"[{"http://e/p":[{"@value":"a"},{"@value":true},{"@value":5}]}]"#,
        ),
        (
            r#"{"http://e/p":{"@list":["a",null]}}"#,
            r#"[{"http://e/p":[{"@list":[{"@value":"a"}]}]}]"#,
        ),
        (
            r#"{"http://e/p":{"@list":null}}"#,
            r#"[{"http://e/p":[{"@list":[]}]}]"#,
        ),
        (
            r#"{"http://e/p":{"@set":["a",["b"]]}}"#,
            r#"[{"http://e/p":[{"@value":"a"},{"@value":"b"}]}]"#,
        ),
        (
            r#"{"http://e/p":{"@index":"i","@language":"DE","@value":"a"}}"#,
            r#"[{"http://e/p":[{"@index":"i","@language":"de","@value":"a"}]}]"#,
        ),
        (
            r#"{"http://e/p":{"@type":"@json","@value":{"b":[1,null]}}}"#,
            r#"[{"http://e/p":[{"@type":"@json","@value":{"b":[1,null]}}]}]"#,
        ),
        (r#"{"http://e/p":{"@value":null}}"#, r#"[]"#),
    ];
    all_expand(&rt, rt.alloc(), &rows);
}

#[test]
fn nodes_graphs_and_reverse_properties(rt: HostRuntime) {
    let rows = [
        (
            r#"{"@id":"http://e/a","@type":"http://e/T","http://e/p":{"@id":"http://e/b"}}"#,
            r#"[{"@id":"http://e/a","@type":["http://e/T"],"http://e/p":[{"@id":"http://e/b"}]}]"#,
        ),
        (
            r#"{"@id":"http://e/a","@language":"en"}"#,
            r#"[{"@id":"http://e/a","@language":"en"}]"#,
        ),
        (
            r#"{"@graph":[{"@id":"http://e/a","http://e/p":1},{"@id":"http://e/b"}]}"#,
            r#"[{"@id":"http://e/a","http://e/p":[{"@value":1}]}]"#,
        ),
        (
            r#"{"http://e/p":{"@graph":5}}"#,
            r#"[{"http://e/p":[{"@graph":[]}]}]"#,
        ),
        (
            r#"{"http://e/p":{"@included":["x"]}}"#,
            r#"[{"http://e/p":[{"@included":[]}]}]"#,
        ),
        (
            r#"{"@reverse":{"http://e/p":[]}}"#,
            r#"[{"@reverse":{"http://e/p":[]}}]"#,
        ),
        (
            r#"{"@id":"http://e/a","@reverse":{"http://e/q":{"@id":"http://e/b"},"http://e/p":[]}}"#,
            r#"[{"@id":"http://e/a","@reverse":{"http://e/p":[],"http://e/q":[{"@id":"http://e/b"}]}}]"#,
        ),
    ];
    all_expand(&rt, rt.alloc(), &rows);
}

#[test]
fn identifiers_are_resolved_against_the_base(rt: HostRuntime) {
    expands(
        &rt,
        rt.alloc(),
        Some("http://e/d/"),
        r#"{"@id":"a","@type":"../T","http://e/p":{"@id":"?f"}}"#,
        r#"[{"@id":"http://e/d/a","@type":["http://e/T"],"http://e/p":[{"@id":"http://e/d/?f"}]}]"#,
    );
}
