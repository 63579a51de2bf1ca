//! What is read as the body of a revision or of an eviction.

use ld_answer::{EnvelopeRefusal, read_target, refusal_body};
use ld_tree_write::write_tree;
use std::alloc::Global;
use std::process::Abort;
use std::test::Fail;

// The IRI that the body names, or what it is answered with.
fn told(rt: &impl Abort, alloc: Global, body: &str) -> Result<String, Fail> {
    let refusal = match read_target(alloc, body.as_bytes()) {
        Ok(iri) => return Ok(String::from_str(alloc, iri.as_str())?),
        Err(EnvelopeRefusal::NoMemory) => rt.panic("no memory"),
        Err(refusal) => refusal,
    };
    let Some(tree) = refusal_body(alloc, &refusal)? else {
        rt.panic("no body");
    };
    let mut bytes = Vec::new(alloc);
    write_tree(&tree, &mut bytes)?;
    Ok(String::from_utf8(bytes)?)
}

// Bodies, and what is told of each.
const BODIES: [(&str, &str); 14] = [
    (r#"{"iri":"http://c/x"}"#, "http://c/x"),
    (" {\"iri\" : \"http:\\u002f\\/c/x\"}\n", "http://c/x"),
    (r#"{"iri":"http://c/x","iri":"http://c/y"}"#, "http://c/y"),
    // no JSON text
    (r#"{"iri":"http://c/x"#, r#"{"at":18,"own":"syntax"}"#),
    ("", r#"{"at":0,"own":"syntax"}"#),
    // no map, or without the field
    (r#""http://c/x""#, r#"{"own":"not an envelope"}"#),
    (r#"[{"iri":"http://c/x"}]"#, r#"{"own":"not an envelope"}"#),
    ("{}", r#"{"own":"not an envelope"}"#),
    (r#"{"IRI":"http://c/x"}"#, r#"{"own":"not an envelope"}"#),
    // the least name of another field, whatever the field is
    (
        r#"{"z":1,"iri":2,"document":3}"#,
        r#"{"field":"document","own":"unknown field"}"#,
    ),
    // no IRI as text
    (r#"{"iri":null}"#, r#"{"field":"iri","own":"wrong kind"}"#),
    (r#"{"iri":"x"}"#, r#"{"field":"iri","own":"wrong kind"}"#),
    (r#"{"iri":""}"#, r#"{"field":"iri","own":"wrong kind"}"#),
    (
        r#"{"iri":["http://c/x"]}"#,
        r#"{"field":"iri","own":"wrong kind"}"#,
    ),
];

#[test]
fn a_body_names_a_context_or_is_refused(rt: HostRuntime) -> Result<(), Fail> {
    for (body, wanted) in BODIES {
        let told = told(&rt, rt.alloc(), body)?;
        assert_eq!(&rt; told.as_str(), wanted, "{body}");
    }
    Ok(())
}
