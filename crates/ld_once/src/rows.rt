use crate::tests::run;
use ld_edge::Status;
use std::test::Fail;

const ROWS: [(&str, Status, &str); 25] = [
    (
        r#"{"@context":{"name":"http://xmlns.com/foaf/0.1/name"},"@id":"http://a.example/1","name":"Ann"}"#,
        Status::Done,
        r#"[{"@id":"http://a.example/1","http://xmlns.com/foaf/0.1/name":[{"@value":"Ann"}]}]"#,
    ),
    (
        r#"{"http://e/p":[5.0,1.1,1e2,-9223372036854775808]}"#,
        Status::Done,
        r#"[{"http://e/p":[{"@value":5},{"@value":1.1},{"@value":100},{"@value":-9223372036854775808}]}]"#,
    ),
    (
        r#"{"@context":{"a":"b:x","b":"a:y"}}"#,
        Status::Refused,
        r#"{"code":"cyclic IRI mapping"}"#,
    ),
    (
        r#"{"@context":[{"@protected":true,"n":"http://e/n"},{"n":"http://e/m"}]}"#,
        Status::Refused,
        r#"{"code":"protected term redefinition"}"#,
    ),
    (
        r#"{"@context":[{"@protected":true,"n":"http://e/n"},{"n":"http://e/n"}],"n":1}"#,
        Status::Done,
        r#"[{"http://e/n":[{"@value":1}]}]"#,
    ),
    (
        r#"{"@context":{"@protected":true,"n":"http://e/n"},"http://e/p":{"@context":null}}"#,
        Status::Refused,
        r#"{"code":"invalid context nullification"}"#,
    ),
    (
        r#"{"@context":{"@vocab":"http://e/","T":{"@context":{"p":"http://s/p"}}},"@type":"T","p":{"p":"x"}}"#,
        Status::Done,
        r#"[{"@type":["http://e/T"],"http://s/p":[{"http://e/p":[{"@value":"x"}]}]}]"#,
    ),
    (
        r#"{"@context":{"@vocab":"http://e/","T":{"@context":{"@propagate":true,"p":"http://s/p"}}},"@type":"T","p":{"p":"x"}}"#,
        Status::Done,
        r#"[{"@type":["http://e/T"],"http://s/p":[{"http://s/p":[{"@value":"x"}]}]}]"#,
    ),
    (
        r#"{"@context":{"n":{"@id":"http://e/n","@container":"@language"}},"n":{"en":"a","DE":["b",null]}}"#,
        Status::Done,
        r#"[{"http://e/n":[{"@language":"de","@value":"b"},{"@language":"en","@value":"a"}]}]"#,
    ),
    (
        r#"{"@context":{"l":{"@id":"http://e/l","@container":"@list"}},"l":[["x"],[]]}"#,
        Status::Done,
        r#"[{"http://e/l":[{"@list":[{"@list":[{"@value":"x"}]},{"@list":[]}]}]}]"#,
    ),
    (
        r#"{"@context":{"p":{"@reverse":"http://e/p"}},"@id":"http://e/a","p":{"@id":"http://e/b"}}"#,
        Status::Done,
        r#"[{"@id":"http://e/a","@reverse":{"http://e/p":[{"@id":"http://e/b"}]}}]"#,
    ),
    (
        r#"{"@context":{"p":{"@reverse":"http://e/p"}},"@id":"http://e/a","p":"x"}"#,
        Status::Refused,
        r#"{"code":"invalid reverse property value"}"#,
    ),
    (
        r#"{"@context":{"@vocab":"_:","a":"http://a/ns#","f":"http://f/","id":"@id","type":"@type","Person":"a:Person","Note":"a:Note","name":{"@id":"a:name"},"nameMap":{"@id":"a:name","@container":"@language"},"knows":{"@id":"f:knows","@type":"@id"},"made":{"@id":"f:made","@container":"@type"}},"id":"http://e/ann","type":"Person","nameMap":{"en":"Ann","de":"Anne"},"knows":[{"id":"http://e/bob","type":"Person","name":"Bob"},"http://e/cy"],"made":{"Note":{"id":"http://e/n1","name":"Hi"}}}"#,
        Status::Done,
        r#"[{"@id":"http://e/ann","@type":["http://a/ns#Person"],"http://a/ns#name":[{"@language":"de","@value":"Anne"},{"@language":"en","@value":"Ann"}],"http://f/knows":[{"@id":"http://e/bob","@type":["http://a/ns#Person"],"http://a/ns#name":[{"@value":"Bob"}]},{"@id":"http://e/cy"}],"http://f/made":[{"@id":"http://e/n1","@type":["http://a/ns#Note"],"http://a/ns#name":[{"@value":"Hi"}]}]}]"#,
    ),
    (
        r#"{"@context":{"a":"@type","b":"@type","T":{"@id":"http://e/T","@context":{"b":"http://x/b"}},"U":{"@id":"http://e/U","@context":{"p":"http://u/p"}}},"a":"T","b":"U","p":1}"#,
        Status::Done,
        r#"[{"@type":["http://e/T"],"http://x/b":[{"@value":"U"}]}]"#,
    ),
    (
        r#"{"http://e/p":{"@graph":5}}"#,
        Status::Done,
        r#"[{"http://e/p":[{"@graph":[]}]}]"#,
    ),
    (
        r#"{"http://e/p":{"@list":null}}"#,
        Status::Done,
        r#"[{"http://e/p":[{"@list":[]}]}]"#,
    ),
    (
        r#"{"http://e/p":{"@included":["x"]}}"#,
        Status::Done,
        r#"[{"http://e/p":[{"@included":[]}]}]"#,
    ),
    (
        r#"{"@reverse":{"http://e/p":[]}}"#,
        Status::Done,
        r#"[{"@reverse":{"http://e/p":[]}}]"#,
    ),
    (
        r#"{"@context":{"p":{"@reverse":"http://e/p"}},"p":[]}"#,
        Status::Done,
        r#"[{"@reverse":{"http://e/p":[]}}]"#,
    ),
    (
        r#"{"@context":{"p":{"@id":"http://e/p","@container":"@type"}},"p":{"T":{"@value":"x"}}}"#,
        Status::Done,
        r#"[{"http://e/p":[{"@type":["T"],"@value":"x"}]}]"#,
    ),
    (
        r#"{"@id":"http://e/a","@language":"en"}"#,
        Status::Done,
        r#"[{"@id":"http://e/a","@language":"en"}]"#,
    ),
    (
        r#"{"@context":{"@vocab":"http://e/","a/b":{}},"a/b":1}"#,
        Status::Done,
        r#"[{"http://e/a/b":[{"@value":1}]}]"#,
    ),
    (
        r#"{"@context":[{"@protected":true,"n":"http://e/n"},{"n":"@foo"}],"n":1}"#,
        Status::Done,
        r#"[]"#,
    ),
    (
        r#"{"@context":{"n":{"@id":"http://e/n","@nest":"x"}}}"#,
        Status::Refused,
        r#"{"keyword":"@nest","own":"outside profile"}"#,
    ),
    (
        r#"{"@context":{"@version":1.1,"n":"http://e/n"},"n":1}"#,
        Status::Done,
        r#"[{"http://e/n":[{"@value":1}]}]"#,
    ),
];

// Each document by itself, as an envelope's.
#[test]
fn expands_documents_with_contexts(rt: HostRuntime) -> Result<(), Fail> {
    let alloc = rt.alloc();
    for (document, status, output) in ROWS {
        let envelope = format!(in alloc; "{{\"document\":{document}}}")?;
        let line = format!(in alloc; "{output}\n")?;
        let seen = run(alloc, &["expand"], envelope.into_bytes(), 4096, &[], &[])?;
        assert_eq!(rt; seen.0, status, "{document}");
        assert_eq!(rt; seen.1.bytes(), line.as_bytes(), "{document}");
    }
    Ok(())
}
