ghost use Rattle.std.specs.Prelude.{All, IfOk};
ghost use Rattle.ld_flight.specs.Memory.{IsShort};

use crate::run::run_once;
use ld_edge::{MemSink, MemSource, Status};
use ld_flight::{LONGEST_TEXT, MemLoader};
use ld_tree::{Iri, Raw, Text, Url};
use std::alloc::Global;
use std::test::Fail;

// The answers of a loader; a text that is too long for one is left out.
fn answers(alloc: Global, texts: &[(&str, &str)]) -> Result<Vec<(Iri, Url, Raw)>, Fail>
    ensures { IfOk result (λ answers. All IsShort answers.items) }
{
    let mut answers = Vec::new(alloc);
    for (iri, text) in texts {
        if text.len() <= LONGEST_TEXT {
            let bytes = Raw::from_vec(text.as_bytes().to_vec(alloc)?);
            answers.push((
                Text::from_str(alloc, iri)?,
                Text::from_str(alloc, iri)?,
                bytes,
            ))?;
        }
    }
    Ok(answers)
}

fn run(
    alloc: Global,
    form: &str,
    input: &str,
    texts: &[(&str, &str)],
    load_fails: &[u64],
) -> Result<(Status, MemSink), Fail> {
    let words = vec![in alloc; String::from_str(alloc, form)?]?;
    let bytes = Raw::from_vec(input.as_bytes().to_vec(alloc)?);
    let mut source = MemSource::new(bytes, 4096, Vec::new(alloc));
    let mut sink = MemSink::new(alloc, 4096, Vec::new(alloc));
    let mut loader = MemLoader::new(alloc, answers(alloc, texts)?, load_fails.to_vec(alloc)?);
    let status = run_once(alloc, words.as_slice(), &mut source, &mut sink, &mut loader);
    Ok((status, sink))
}

const NEXT: &str = r#"{"@context":{"t":{"@id":"http://e/t","@context":{"@import":"http://c/n"}}}}"#;

const PERSON: &str =
    r#"{"@context":{"@vocab":"_:","a":"http://a/ns#","f":"http://f/","id":"@id","type":"@type","Person":"a:Person","Note":"a:Note","name":{"@id":"a:name"},"nameMap":{"@id":"a:name","@container":"@language"},"knows":{"@id":"f:knows","@type":"@id"},"made":{"@id":"f:made","@container":"@type"}}}"#;

const ANN: &str =
    r#"{"document":{"@context":"http://c/as","id":"http://e/ann","type":"Person","nameMap":{"en":"Ann","de":"Anne"},"knows":[{"id":"http://e/bob","type":"Person","name":"Bob"},"http://e/cy"],"made":{"Note":{"id":"http://e/n1","name":"Hi"}}}}"#;

#[test]
fn contexts_are_loaded(rt: HostRuntime) -> Result<(), Fail> {
    let alloc = rt.alloc();
    let texts = [
        ("http://c/self", r#"{"@context":"http://c/self"}"#),
        ("http://c/n", NEXT),
        (
            "http://c/i",
            r#"{"@context":{"n":"http://e/n","q":"http://e/q"}}"#,
        ),
        ("http://c/as", PERSON),
        ("http://c/none", "not json"),
        ("http://c/list", "[]"),
    ];
    let rows = [
        (
            "expand",
            r#"{"document":{"@context":"http://c/self"}}"#,
            Status::Refused,
            r#"{"code":"context overflow"}"#,
        ),
        (
            "expand",
            r#"{"document":{"@context":"http://c/n"}}"#,
            Status::Refused,
            r#"{"own":"nesting limit"}"#,
        ),
        (
            "expand",
            r#"{"document":{"@context":{"@import":"http://c/i","n":"http://e/m"},"n":"x","q":"y"}}"#,
            Status::Done,
            r#"[{"http://e/m":[{"@value":"x"}],"http://e/q":[{"@value":"y"}]}]"#,
        ),
        (
            "expand",
            r#"{"document":{"@context":"http://c/none"}}"#,
            Status::Refused,
            r#"{"code":"loading remote context failed"}"#,
        ),
        (
            "expand",
            r#"{"document":{"@context":"http://c/list"}}"#,
            Status::Refused,
            r#"{"code":"invalid remote context"}"#,
        ),
        (
            "expand",
            ANN,
            Status::Done,
            r#"[{"@id":"http://e/ann","@type":["http://a/ns#Person"],"http://a/ns#name":[{"@language":"de","@value":"Anne"},{"@language":"en","@value":"Ann"}],"http://f/knows":[{"@id":"http://e/bob","@type":["http://a/ns#Person"],"http://a/ns#name":[{"@value":"Bob"}]},{"@id":"http://e/cy"}],"http://f/made":[{"@id":"http://e/n1","@type":["http://a/ns#Note"],"http://a/ns#name":[{"@value":"Hi"}]}]}]"#,
        ),
        (
            "flatten",
            ANN,
            Status::Done,
            r#"[{"@id":"http://e/ann","@type":["http://a/ns#Person"],"http://a/ns#name":[{"@language":"de","@value":"Anne"},{"@language":"en","@value":"Ann"}],"http://f/knows":[{"@id":"http://e/bob"},{"@id":"http://e/cy"}],"http://f/made":[{"@id":"http://e/n1"}]},{"@id":"http://e/bob","@type":["http://a/ns#Person"],"http://a/ns#name":[{"@value":"Bob"}]},{"@id":"http://e/n1","@type":["http://a/ns#Note"],"http://a/ns#name":[{"@value":"Hi"}]}]"#,
        ),
    ];
    for (form, input, status, output) in rows {
        let line = format!(in alloc; "{output}\n")?;
        let seen = run(alloc, form, input, &texts, &[])?;
        assert_eq!(rt; seen.0, status, "{input}");
        assert_eq!(rt; seen.1.bytes(), line.as_bytes(), "{input}");
    }
    Ok(())
}

// The second of two loads fails.
#[test]
fn a_load_may_fail(rt: HostRuntime) -> Result<(), Fail> {
    let texts = [
        ("http://c/a", r#"{"@context":{"n":"http://e/n"}}"#),
        ("http://c/b", "{}"),
    ];
    let input = r#"{"document":{"@context":["http://c/a","http://c/b"],"n":1}}"#;
    let seen = run(rt.alloc(), "expand", input, &texts, &[2])?;
    assert_eq!(rt; seen.0, Status::LoadFault);
    assert_eq!(rt;
        seen.1.bytes(),
        b"{\"after\":1,\"before\":0,\"flight\":2,\"iri\":\"http://c/b\",\"own\":\"load fault\"}\n".as_slice()
    );
    Ok(())
}

// A text of one byte more than the limit.
#[test]
fn a_text_may_be_too_long(rt: HostRuntime) -> Result<(), Fail> {
    let alloc = rt.alloc();
    let spaces = String::from_utf8(vec![in alloc; b' '; 1_048_575]?)?;
    let text = format!(in alloc; "{{}}{spaces}")?;
    let texts = [("http://c/long", text.as_str())];
    let input = r#"{"document":{"@context":"http://c/long"}}"#;
    let seen = run(alloc, "expand", input, &texts, &[])?;
    assert_eq!(rt; seen.0, Status::Refused);
    assert_eq!(rt;
        seen.1.bytes(),
        b"{\"code\":\"loading remote context failed\"}\n".as_slice()
    );
    Ok(())
}

// A document that names one context more than a request holds.
#[test]
fn contexts_may_be_too_many(rt: HostRuntime) -> Result<(), Fail> {
    let alloc = rt.alloc();
    let mut names = Vec::new(alloc);
    let mut text = String::from_str(alloc, "{\"document\":[")?;
    for number in 1..=65 {
        let name = format!(in alloc; "http://c/{number}")?;
        let comma = if number == 1 { "" } else { "," };
        text.push_str(format!(in alloc; "{comma}{{\"@context\":\"{name}\"}}")?.as_str())?;
        names.push(name)?;
    }
    text.push_str("]}")?;
    let mut texts = Vec::new(alloc);
    for name in names.as_slice() {
        texts.push((name.as_str(), "{\"@context\":{}}"))?;
    }
    let seen = run(alloc, "expand", text.as_str(), texts.as_slice(), &[])?;
    assert_eq!(rt; seen.0, Status::TooMany);
    assert_eq!(rt;
        seen.1.bytes(),
        b"{\"iri\":\"http://c/65\",\"own\":\"too many contexts\"}\n".as_slice()
    );
    Ok(())
}

#[test]
fn documents_are_compacted(rt: HostRuntime) -> Result<(), Fail> {
    let alloc = rt.alloc();
    let texts = [("http://c/as", PERSON)];
    let rows = [
        (
            r#"{"document":[{"@id":"http://a.example/1","http://xmlns.com/foaf/0.1/name":[{"@value":"Ann"}]}],"context":{"name":"http://xmlns.com/foaf/0.1/name"}}"#,
            Status::Done,
            r#"{"@context":{"name":"http://xmlns.com/foaf/0.1/name"},"@id":"http://a.example/1","name":"Ann"}"#,
        ),
        (
            r#"{"document":[{"http://e/p":[{"@value":"x"}]}],"context":{"aa":"http://e/p","b":"http://e/p"}}"#,
            Status::Done,
            r#"{"@context":{"aa":"http://e/p","b":"http://e/p"},"b":"x"}"#,
        ),
        (
            r#"{"document":[{"@id":"http://e/d/x","http://e/p":[{"@id":"http://e/d/doc#f"}]}],"context":{},"base":"http://e/d/doc"}"#,
            Status::Done,
            r##"{"@id":"x","http://e/p":{"@id":"#f"}}"##,
        ),
        (
            r#"{"document":[{"http://e/p":[{"@value":"x"}]}],"context":{},"compactArrays":false}"#,
            Status::Done,
            r#"{"@graph":[{"http://e/p":["x"]}]}"#,
        ),
        (
            r#"{"document":{"@context":"http://c/as","id":"http://e/ann","type":"Person","nameMap":{"en":"Ann","de":"Anne"},"knows":[{"id":"http://e/bob","type":"Person","name":"Bob"},"http://e/cy"],"made":{"Note":{"id":"http://e/n1","name":"Hi"}}},"context":"http://c/as"}"#,
            Status::Done,
            r#"{"@context":"http://c/as","id":"http://e/ann","knows":[{"id":"http://e/bob","name":"Bob","type":"Person"},"http://e/cy"],"made":{"Note":{"id":"http://e/n1","name":"Hi"}},"nameMap":{"de":"Anne","en":"Ann"},"type":"Person"}"#,
        ),
        (
            r#"{"document":{}}"#,
            Status::Refused,
            r#"{"own":"not an envelope"}"#,
        ),
        (
            r#"{"document":{},"context":{},"compactArrays":null}"#,
            Status::Refused,
            r#"{"field":"compactArrays","own":"wrong kind"}"#,
        ),
        (
            r#"{"document":{},"context":{"@context":{"a":"b:x","b":"a:y"}}}"#,
            Status::Refused,
            r#"{"code":"cyclic IRI mapping"}"#,
        ),
    ];
    for (input, status, output) in rows {
        let line = format!(in alloc; "{output}\n")?;
        let seen = run(alloc, "compact", input, &texts, &[])?;
        assert_eq!(rt; seen.0, status, "{input}");
        assert_eq!(rt; seen.1.bytes(), line.as_bytes(), "{input}");
    }
    Ok(())
}
