use crate::helpers::all_compact;

#[test]
fn graph_objects_in_their_containers(rt: HostRuntime) {
    let rows = [
        (
            r#"[{"http://e/g":[{"@graph":[{"@id":"http://e/a"}]}]}]"#,
            r#"{"g":{"@id":"http://e/g","@container":"@graph"}}"#,
            r#"{"@context":{"g":{"@id":"http://e/g","@container":"@graph"}},"g":{"@id":"http://e/a"}}"#,
        ),
        (
            r#"[{"http://e/g":[{"@graph":[{"@id":"http://e/a"},{"@id":"http://e/b"}]}]}]"#,
            r#"{"g":{"@id":"http://e/g","@container":"@graph"}}"#,
            r#"{"@context":{"g":{"@id":"http://e/g","@container":"@graph"}},"g":{"@included":[{"@id":"http://e/a"},{"@id":"http://e/b"}]}}"#,
        ),
        (
            r#"[{"http://e/g":[{"@id":"http://e/n","@graph":[{"@id":"http://e/a"}]}]}]"#,
            r#"{"g":{"@id":"http://e/g","@container":["@graph","@id"]}}"#,
            r#"{"@context":{"g":{"@id":"http://e/g","@container":["@graph","@id"]}},"g":{"http://e/n":{"@id":"http://e/a"}}}"#,
        ),
        (
            r#"[{"http://e/g":[{"@index":"i","@graph":[{"@id":"http://e/a"}]}]}]"#,
            r#"{"g":{"@id":"http://e/g","@container":["@graph","@index"]}}"#,
            r#"{"@context":{"g":{"@id":"http://e/g","@container":["@graph","@index"]}},"g":{"i":{"@id":"http://e/a"}}}"#,
        ),
        (
            r#"[{"http://e/g":[{"@id":"http://e/n","@graph":[{"@id":"http://e/a"}]}]}]"#,
            r#"{"g":{"@id":"http://e/g","@container":"@graph"}}"#,
            r#"{"@context":{"g":{"@id":"http://e/g","@container":"@graph"}},"g":{"@graph":{"@id":"http://e/a"},"@id":"http://e/n"}}"#,
        ),
    ];
    all_compact(&rt, rt.alloc(), &rows);
}

#[test]
fn scoped_contexts_go_and_come_back(rt: HostRuntime) {
    let context =
        r#"{"@vocab":"http://e/","T":{"@context":{"s":"http://s/p"}},"p":{"@context":{"q":"http://s/q"}}}"#;
    let rows = [
        (
            r#"[{"@type":["http://e/T"],"http://s/p":[{"http://s/p":[{"@value":"x"}]}]}]"#,
            context,
            r#"{"@context":{"@vocab":"http://e/","T":{"@context":{"s":"http://s/p"}},"p":{"@context":{"q":"http://s/q"}}},"@type":"T","s":{"http://s/p":"x"}}"#,
        ),
        (
            r#"[{"http://e/p":[{"http://s/q":[{"@value":"x"}]}]}]"#,
            context,
            r#"{"@context":{"@vocab":"http://e/","T":{"@context":{"s":"http://s/p"}},"p":{"@context":{"q":"http://s/q"}}},"p":{"q":"x"}}"#,
        ),
    ];
    all_compact(&rt, rt.alloc(), &rows);
}
