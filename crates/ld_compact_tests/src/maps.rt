use crate::helpers::all_compact;

#[test]
fn language_and_index_maps(rt: HostRuntime) {
    let rows = [
        (
            r#"[{"http://e/n":[{"@value":"a","@language":"en"},{"@value":"b","@language":"en"},{"@value":"c"}]}]"#,
            r#"{"n":{"@id":"http://e/n","@container":"@language"},"none":"@none"}"#,
            r#"{"@context":{"n":{"@id":"http://e/n","@container":"@language"},"none":"@none"},"n":{"en":["a","b"],"none":"c"}}"#,
        ),
        (
            r#"[{"http://e/p":[{"@value":"a","@index":"i"},{"@value":"b","@index":"j"},{"@value":"c"}]}]"#,
            r#"{"p":{"@id":"http://e/p","@container":"@index"}}"#,
            r#"{"@context":{"p":{"@id":"http://e/p","@container":"@index"}},"p":{"@none":"c","i":"a","j":"b"}}"#,
        ),
        (
            r#"[{"http://e/p":[{"@graph":[{"@id":"http://e/a","http://e/q":[{"@value":1}]}],"@index":"i"},{"@id":"http://e/b","@index":"j"}]}]"#,
            r#"{"p":{"@id":"http://e/p","@container":"@index"}}"#,
            r#"{"@context":{"p":{"@id":"http://e/p","@container":"@index"}},"p":{"@graph":{"@id":"http://e/a","http://e/q":1},"@index":"i","j":{"@id":"http://e/b"}}}"#,
        ),
    ];
    all_compact(&rt, rt.alloc(), &rows);
}

#[test]
fn identifier_and_type_maps(rt: HostRuntime) {
    let rows = [
        (
            r#"[{"http://e/p":[{"@id":"http://e/a","http://e/q":[{"@value":1}]},{"http://e/q":[{"@value":2}]}]}]"#,
            r#"{"p":{"@id":"http://e/p","@container":"@id"}}"#,
            r#"{"@context":{"p":{"@id":"http://e/p","@container":"@id"}},"p":{"@none":{"http://e/q":2},"http://e/a":{"http://e/q":1}}}"#,
        ),
        (
            r#"[{"http://e/p":[{"@id":"http://e/a","@type":["http://e/T","http://e/U"]},{"@id":"http://e/b","@type":["http://e/T"]}]}]"#,
            r#"{"@vocab":"http://e/","p":{"@container":"@type"}}"#,
            r#"{"@context":{"@vocab":"http://e/","p":{"@container":"@type"}},"p":{"T":[{"@id":"http://e/a","@type":"U"},"http://e/b"]}}"#,
        ),
    ];
    all_compact(&rt, rt.alloc(), &rows);
}

#[test]
fn lists_and_reverse_properties(rt: HostRuntime) {
    let rows = [
        (
            r#"[{"http://e/l":[{"@list":[{"@value":"x"},{"@list":[]}]}]}]"#,
            r#"{"l":{"@id":"http://e/l","@container":"@list"}}"#,
            r#"{"@context":{"l":{"@id":"http://e/l","@container":"@list"}},"l":["x",[]]}"#,
        ),
        (
            r#"[{"http://e/l":[{"@list":[{"@value":"x"}],"@index":"i"}]}]"#,
            "{}",
            r#"{"http://e/l":{"@index":"i","@list":["x"]}}"#,
        ),
        (
            r#"[{"@id":"http://e/a","@reverse":{"http://e/p":[{"@id":"http://e/b"}],"http://e/q":[{"@id":"http://e/c"}]}}]"#,
            r#"{"r":{"@reverse":"http://e/p"}}"#,
            r#"{"@context":{"r":{"@reverse":"http://e/p"}},"@id":"http://e/a","@reverse":{"http://e/q":{"@id":"http://e/c"}},"r":{"@id":"http://e/b"}}"#,
        ),
    ];
    all_compact(&rt, rt.alloc(), &rows);
}
