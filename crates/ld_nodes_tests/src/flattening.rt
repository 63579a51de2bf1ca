use ld_codes::Code;
use ld_nodes::flatten;
use ld_rec::Stop;
use ld_tree::Tree;
use ld_tree_read::read_tree;
use std::alloc::Global;
use std::process::Abort;

fn read(rt: &impl Abort, alloc: Global, text: &str) -> Tree {
    read_tree(alloc, text.as_bytes()).expect(rt, "a JSON text")
}

pub fn flattens(rt: &impl Abort, alloc: Global, expanded: &str, want: &str) {
    let tree = read(rt, alloc, expanded);
    let got = flatten(alloc, &tree);
    let want = read(rt, alloc, want);
    match got {
        Ok(got) => assert!(rt; got.is_same(&want), "at {expanded}"),
        Err(_) => rt.panic("refused"),
    }
}

// A row: an expanded document, and its flattened form.
pub type Row = (&'static str, &'static str);

pub fn all_flatten(rt: &impl Abort, alloc: Global, rows: &[Row]) {
    for (expanded, want) in rows {
        flattens(rt, alloc, expanded, want);
    }
}

#[test]
fn nested_nodes(rt: HostRuntime) {
    let rows = [
        ("[]", "[]"),
        (r#"[{"@id":"http://e/a"}]"#, "[]"),
        (
            r#"[{"@id":"http://e/a","http://e/k":[{"http://e/n":[{"@value":"x"}]}]}]"#,
            r#"[{"@id":"_:b0","http://e/n":[{"@value":"x"}]},{"@id":"http://e/a","http://e/k":[{"@id":"_:b0"}]}]"#,
        ),
        (
            r#"[{"@id":"http://e/ann","@type":["http://a/ns#Person"],"http://a/ns#name":[{"@language":"de","@value":"Anne"},{"@language":"en","@value":"Ann"}],"http://f/knows":[{"@id":"http://e/bob","@type":["http://a/ns#Person"],"http://a/ns#name":[{"@value":"Bob"}]},{"@id":"http://e/cy"}],"http://f/made":[{"@id":"http://e/n1","@type":["http://a/ns#Note"],"http://a/ns#name":[{"@value":"Hi"}]}]}]"#,
            r#"[{"@id":"http://e/ann","@type":["http://a/ns#Person"],"http://a/ns#name":[{"@language":"de","@value":"Anne"},{"@language":"en","@value":"Ann"}],"http://f/knows":[{"@id":"http://e/bob"},{"@id":"http://e/cy"}],"http://f/made":[{"@id":"http://e/n1"}]},{"@id":"http://e/bob","@type":["http://a/ns#Person"],"http://a/ns#name":[{"@value":"Bob"}]},{"@id":"http://e/n1","@type":["http://a/ns#Note"],"http://a/ns#name":[{"@value":"Hi"}]}]"#,
        ),
        (
            r#"[{"@id":"http://e/a","@language":"en","http://e/p":[{"@value":1}]}]"#,
            r#"[{"@id":"http://e/a","http://e/p":[{"@value":1}]}]"#,
        ),
    ];
    all_flatten(&rt, rt.alloc(), &rows);
}

#[test]
fn values_where_they_are_not_there(rt: HostRuntime) {
    let rows = [
        (
            r#"[{"@id":"http://e/a","http://e/p":[{"@value":2},{"@value":1},{"@value":2}]},{"@id":"http://e/a","http://e/p":[{"@value":1},{"@value":3}]}]"#,
            r#"[{"@id":"http://e/a","http://e/p":[{"@value":2},{"@value":1},{"@value":3}]}]"#,
        ),
        (
            r#"[{"@id":"http://e/a","http://e/p":[{"@id":"http://e/b","http://e/q":[{"@id":"http://e/a","http://e/p":[{"@value":1}]}]},{"@value":2}]}]"#,
            r#"[{"@id":"http://e/a","http://e/p":[{"@id":"http://e/b"},{"@value":1},{"@value":2}]},{"@id":"http://e/b","http://e/q":[{"@id":"http://e/a"}]}]"#,
        ),
        (
            r#"[{"@id":"http://e/a","http://e/p":[]}]"#,
            r#"[{"@id":"http://e/a","http://e/p":[]}]"#,
        ),
    ];
    all_flatten(&rt, rt.alloc(), &rows);
}

#[test]
fn reverse_properties_give_the_subject(rt: HostRuntime) {
    let rows = [
        (
            r#"[{"@id":"http://e/a","@reverse":{"http://e/p":[{"@id":"http://e/b"},{"@id":"http://e/c","http://e/q":[{"@value":1}]}]}}]"#,
            r#"[{"@id":"http://e/b","http://e/p":[{"@id":"http://e/a"}]},{"@id":"http://e/c","http://e/p":[{"@id":"http://e/a"}],"http://e/q":[{"@value":1}]}]"#,
        ),
        (
            r#"[{"@reverse":{"http://e/p":[{"@id":"http://e/b"},{"@id":"http://e/b","http://e/p":[{"@value":1}]}]}}]"#,
            r#"[{"@id":"http://e/b","http://e/p":[{"@id":"_:b0"},{"@value":1}]}]"#,
        ),
    ];
    all_flatten(&rt, rt.alloc(), &rows);
}

#[test]
fn lists_of_their_own(rt: HostRuntime) {
    let rows = [
        (
            r#"[{"@id":"http://e/a","http://e/p":[{"@list":[{"@value":1},{"@list":[{"@id":"http://e/b","http://e/q":[]}]}]},{"@list":[]},{"@list":[]}]}]"#,
            r#"[{"@id":"http://e/a","http://e/p":[{"@list":[{"@value":1},{"@list":[{"@id":"http://e/b"}]}]},{"@list":[]},{"@list":[]}]},{"@id":"http://e/b","http://e/q":[]}]"#,
        ),
        (
            r#"[{"@id":"http://e/a","http://e/p":[{"@list":[{"@id":"http://e/b","http://e/p":[{"@list":[{"@value":1}]}]},{"@value":2},{"@value":2}]}]}]"#,
            r#"[{"@id":"http://e/a","http://e/p":[{"@list":[{"@id":"http://e/b"},{"@value":2},{"@value":2}]}]},{"@id":"http://e/b","http://e/p":[{"@list":[{"@value":1}]}]}]"#,
        ),
    ];
    all_flatten(&rt, rt.alloc(), &rows);
}

#[test]
fn graphs_under_their_nodes(rt: HostRuntime) {
    let rows = [
        (
            r#"[{"@id":"http://e/g","@graph":[{"@id":"http://e/a","http://e/p":[{"@value":1}]}],"http://e/q":[{"@value":2}]},{"@id":"http://e/a","http://e/p":[{"@value":3}]}]"#,
            r#"[{"@id":"http://e/a","http://e/p":[{"@value":3}]},{"@graph":[{"@id":"http://e/a","http://e/p":[{"@value":1}]}],"@id":"http://e/g","http://e/q":[{"@value":2}]}]"#,
        ),
        (
            r#"[{"@id":"http://e/z","@graph":[{"@id":"http://e/g","@graph":[{"@id":"http://e/b","http://e/q":[{"@value":1}]}]}]}]"#,
            r#"[{"@graph":[{"@id":"http://e/b","http://e/q":[{"@value":1}]}],"@id":"http://e/g"},{"@graph":[],"@id":"http://e/z"}]"#,
        ),
        (r#"[{"@id":"http://e/g","@graph":[]}]"#, "[]"),
        (
            r#"[{"@id":"http://e/g","@graph":[{"@id":"http://e/b"}]}]"#,
            r#"[{"@graph":[],"@id":"http://e/g"}]"#,
        ),
        (
            r#"[{"@id":"http://e/g","@graph":[{"@value":"x"},{"@list":[{"@id":"http://e/b","http://e/q":[]}]}]}]"#,
            r#"[{"@graph":[{"@id":"http://e/b","http://e/q":[]}],"@id":"http://e/g"}]"#,
        ),
        (
            r#"[{"@id":"http://e/a","@included":[{"@id":"http://e/b","http://e/p":[{"@value":1}]}]}]"#,
            r#"[{"@id":"http://e/b","http://e/p":[{"@value":1}]}]"#,
        ),
    ];
    all_flatten(&rt, rt.alloc(), &rows);
}

fn conflicts(rt: &impl Abort, alloc: Global, expanded: &str) {
    let tree = read(rt, alloc, expanded);
    match flatten(alloc, &tree) {
        Err(Stop::Code(Code::ConflictingIndexes)) => {}
        _ => rt.panic("no conflict"),
    }
}

#[test]
fn one_index_a_node(rt: HostRuntime) {
    conflicts(
        &rt,
        rt.alloc(),
        r#"[{"@id":"http://e/a","@index":"x"},{"@id":"http://e/a","@index":"y"}]"#,
    );
    flattens(
        &rt,
        rt.alloc(),
        r#"[{"@id":"http://e/a","@index":"x"},{"@id":"http://e/a","@index":"x"}]"#,
        r#"[{"@id":"http://e/a","@index":"x"}]"#,
    );
}
