use crate::helpers::{all_compact, answer, compacts, read};
use ld_codes::Code;
use ld_rec::Stop;
use std::process::Abort;

#[test]
fn names_values_and_identifiers(rt: HostRuntime) {
    let rows = [
        (
            r#"[{"@id":"http://a.example/1","http://xmlns.com/foaf/0.1/name":[{"@value":"Ann"}]}]"#,
            r#"{"name":"http://xmlns.com/foaf/0.1/name"}"#,
            r#"{"@context":{"name":"http://xmlns.com/foaf/0.1/name"},"@id":"http://a.example/1","name":"Ann"}"#,
        ),
        (
            r#"[{"http://e/p":[{"@value":"x"}]}]"#,
            r#"{"aa":"http://e/p","b":"http://e/p"}"#,
            r#"{"@context":{"aa":"http://e/p","b":"http://e/p"},"b":"x"}"#,
        ),
        (
            r#"[{"http://e/p":[{"@value":"x"}]}]"#,
            r#"{"ab":"http://e/p","aa":"http://e/p"}"#,
            r#"{"@context":{"aa":"http://e/p","ab":"http://e/p"},"aa":"x"}"#,
        ),
        ("[]", "{}", "{}"),
        ("[]", "null", "{}"),
        (
            r#"[{"@id":"http://e/a","http://e/p":[]},{"@id":"http://e/b","http://e/p":[]}]"#,
            r#"{"g":"@graph"}"#,
            r#"{"@context":{"g":"@graph"},"g":[{"@id":"http://e/a","http://e/p":[]},{"@id":"http://e/b","http://e/p":[]}]}"#,
        ),
    ];
    all_compact(&rt, rt.alloc(), &rows);
}

#[test]
fn a_context_may_stand_in_a_document(rt: HostRuntime) {
    let rows = [(
        r#"[{"http://e/p":[{"@value":1},{"@value":2}]}]"#,
        r#"{"@context":{"p":"http://e/p"},"p":3}"#,
        r#"{"@context":{"p":"http://e/p"},"p":[1,2]}"#,
    )];
    all_compact(&rt, rt.alloc(), &rows);
}

#[test]
fn arrays_stay_where_they_are_asked_for(rt: HostRuntime) {
    let alloc = rt.alloc();
    let row = (
        r#"[{"@id":"http://e/a","@type":["http://e/T"],"http://e/p":[{"@value":"x"}]}]"#,
        "{}",
        r#"{"@graph":[{"@id":"http://e/a","@type":["http://e/T"],"http://e/p":["x"]}]}"#,
    );
    compacts(&rt, alloc, None, false, &row);
    let row = (
        r#"[{"http://e/p":[{"@value":"x"}],"http://e/q":[{"@value":"y"}]}]"#,
        r#"{"p":{"@id":"http://e/p","@container":"@set"}}"#,
        r#"{"@context":{"p":{"@id":"http://e/p","@container":"@set"}},"http://e/q":"y","p":["x"]}"#,
    );
    compacts(&rt, alloc, None, true, &row);
}

#[test]
fn references_are_relative_to_the_base(rt: HostRuntime) {
    let row = (
        r#"[{"@id":"http://e/d/x","http://e/p":[{"@id":"http://e/d/doc#f"}]}]"#,
        "{}",
        r##"{"@id":"x","http://e/p":{"@id":"#f"}}"##,
    );
    compacts(&rt, rt.alloc(), Some("http://e/d/doc"), true, &row);
}

#[test]
fn a_loaded_context_is_used_and_named(rt: HostRuntime) {
    let alloc = rt.alloc();
    let texts = [(
        "http://c/as",
        r##"{"@context":{"@vocab":"_:","a":"http://a/ns#","f":"http://f/","id":"@id","type":"@type","Person":"a:Person","Note":"a:Note","name":{"@id":"a:name"},"nameMap":{"@id":"a:name","@container":"@language"},"knows":{"@id":"f:knows","@type":"@id"},"made":{"@id":"f:made","@container":"@type"}}}"##,
    )];
    let expanded =
        r##"[{"@id":"http://e/ann","@type":["http://a/ns#Person"],"http://a/ns#name":[{"@language":"de","@value":"Anne"},{"@language":"en","@value":"Ann"}],"http://f/knows":[{"@id":"http://e/bob","@type":["http://a/ns#Person"],"http://a/ns#name":[{"@value":"Bob"}]},{"@id":"http://e/cy"}],"http://f/made":[{"@id":"http://e/n1","@type":["http://a/ns#Note"],"http://a/ns#name":[{"@value":"Hi"}]}]}]"##;
    let want =
        r#"{"@context":"http://c/as","id":"http://e/ann","knows":[{"id":"http://e/bob","name":"Bob","type":"Person"},"http://e/cy"],"made":{"Note":{"id":"http://e/n1","name":"Hi"}},"nameMap":{"de":"Anne","en":"Ann"},"type":"Person"}"#;
    match answer(&rt, alloc, &texts, None, true, expanded, "\"http://c/as\"") {
        Ok(got) => assert!(rt; got.is_same(&read(&rt, alloc, want))),
        Err(_) => rt.panic("refused"),
    }
    match answer(&rt, alloc, &[], None, true, expanded, "\"http://c/as\"") {
        Err(Stop::Missing(iri)) => assert_eq!(rt; iri.as_str(), "http://c/as"),
        _ => rt.panic("not missing"),
    }
}

#[test]
fn an_iri_that_a_prefix_would_take_is_refused(rt: HostRuntime) {
    let alloc = rt.alloc();
    let context = r#"{"T":{"@id":"http://e/T","@context":{"ex":null}},"ex":"http://x/"}"#;
    let named = r#"[{"@id":"http://e/a","@type":["http://e/T"],"ex:p":[{"@value":1}]}]"#;
    match answer(&rt, alloc, &[], None, true, named, context) {
        Err(Stop::Code(code)) => assert!(rt; code == Code::IriConfusedWithPrefix),
        _ => rt.panic("no code"),
    }
    let unnamed = r#"[{"@type":["http://e/T"],"ex:p":[{"@value":1}]}]"#;
    assert!(rt; answer(&rt, alloc, &[], None, true, unnamed, context).is_ok());
}
