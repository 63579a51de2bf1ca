use crate::locals::{begun, fresh};
use ld_codes::{Code, Keyword, Own};
use ld_rec::Stop;
use ld_term::Next;
use std::alloc::Global;
use std::process::Abort;

fn assert_code(rt: &impl Abort, alloc: Global, local: &str, term: &str, code: Code) {
    match begun(rt, alloc, &mut fresh(rt, alloc), local, term) {
        Err(Stop::Code(given)) => assert!(rt; given == code, "at {local}"),
        _ => assert!(rt; false, "at {local}"),
    }
}

#[test]
fn each_code_has_a_smallest_context(rt: HostRuntime) {
    let alloc = rt.alloc();
    let rows = [
        (r#"{"a":"b:x","b":"a:y"}"#, "a", Code::CyclicIriMapping),
        (r#"{"":"http://e/"}"#, "", Code::InvalidTermDefinition),
        (r#"{"a":5}"#, "a", Code::InvalidTermDefinition),
        (
            r#"{"a":{"@id":"http://e/","x":1}}"#,
            "a",
            Code::InvalidTermDefinition,
        ),
        (
            r#"{"a/b":{"@id":"http://v/a/b","@prefix":true}}"#,
            "a/b",
            Code::InvalidTermDefinition,
        ),
        (
            r#"{"a":{"@id":"@type","@prefix":true}}"#,
            "a",
            Code::InvalidTermDefinition,
        ),
        (r#"{"@id":"http://e/"}"#, "@id", Code::KeywordRedefinition),
        (r#"{"@type":{}}"#, "@type", Code::KeywordRedefinition),
        (
            r#"{"@type":{"@container":"@list"}}"#,
            "@type",
            Code::KeywordRedefinition,
        ),
        (
            r#"{"a":{"@protected":1}}"#,
            "a",
            Code::InvalidProtectedValue,
        ),
        (r#"{"a":{"@type":1}}"#, "a", Code::InvalidTypeMapping),
        (r#"{"a":{"@type":"_:b"}}"#, "a", Code::InvalidTypeMapping),
        (
            r#"{"a":{"@type":"@json","@container":"@type"}}"#,
            "a",
            Code::InvalidTypeMapping,
        ),
        (
            r#"{"a":{"@reverse":"http://e/","@id":"http://e/"}}"#,
            "a",
            Code::InvalidReverseProperty,
        ),
        (
            r#"{"a":{"@reverse":"http://e/","@container":"@list"}}"#,
            "a",
            Code::InvalidReverseProperty,
        ),
        (r#"{"a":{"@reverse":1}}"#, "a", Code::InvalidIriMapping),
        (
            r#"{"a":{"@reverse":"b"},"b":"@type"}"#,
            "a",
            Code::InvalidIriMapping,
        ),
        (r#"{"a":{"@id":1}}"#, "a", Code::InvalidIriMapping),
        (r#"{"a:b":"http://e/"}"#, "a:b", Code::InvalidIriMapping),
        (r#"{"a":"@context"}"#, "a", Code::InvalidKeywordAlias),
        (
            r#"{"a":{"@container":"@none"}}"#,
            "a",
            Code::InvalidContainerMapping,
        ),
        (
            r#"{"a":{"@container":["@list","@set"]}}"#,
            "a",
            Code::InvalidContainerMapping,
        ),
        (
            r#"{"a":{"@language":1}}"#,
            "a",
            Code::InvalidLanguageMapping,
        ),
        (r#"{"a":{"@prefix":1}}"#, "a", Code::InvalidPrefixValue),
    ];
    for (local, term, code) in rows {
        assert_code(&rt, alloc, local, term, code);
    }
}

#[test]
fn a_term_without_a_mapping_needs_a_vocabulary(rt: HostRuntime) {
    let alloc = rt.alloc();
    let mut made = fresh(&rt, alloc);
    made.vocab = None;
    match begun(&rt, alloc, &mut made, r#"{"a":{}}"#, "a") {
        Err(Stop::Code(code)) => assert!(rt; code == Code::InvalidIriMapping),
        _ => rt.panic("a code"),
    }
}

#[test]
fn a_protected_term_keeps_its_definition(rt: HostRuntime) {
    let alloc = rt.alloc();
    let mut made = fresh(&rt, alloc);
    let first = r#"{"a":{"@id":"http://e/","@protected":true}}"#;
    assert!(rt; begun(&rt, alloc, &mut made, first, "a").is_ok());
    let same = r#"{"a":{"@id":"http://e/"}}"#;
    assert!(rt; begun(&rt, alloc, &mut made, same, "a").is_ok());
    match begun(&rt, alloc, &mut made, r#"{"a":"http://f/"}"#, "a") {
        Err(Stop::Code(code)) => assert!(rt; code == Code::ProtectedTermRedefinition),
        _ => rt.panic("a code"),
    }
}

#[test]
fn what_the_profile_leaves_out_is_refused_by_its_keyword(rt: HostRuntime) {
    let alloc = rt.alloc();
    let rows = [
        (r#"{"a":{"@index":"http://e/"}}"#, Keyword::Index),
        (r#"{"a":{"@nest":"@nest"}}"#, Keyword::Nest),
        (r#"{"a":{"@direction":"ltr"}}"#, Keyword::Direction),
    ];
    for (local, keyword) in rows {
        match begun(&rt, alloc, &mut fresh(&rt, alloc), local, "a") {
            Err(Stop::Own(own)) => {
                assert!(rt; own == Own::OutsideProfile(keyword), "at {local}");
            }
            _ => rt.panic("a refusal"),
        }
    }
}

#[test]
fn what_has_the_form_of_a_keyword_is_ignored(rt: HostRuntime) {
    let alloc = rt.alloc();
    let mut made = fresh(&rt, alloc);
    for (local, term) in [
        (r#"{"@word":1}"#, "@word"),
        (r#"{"a":{"@id":"@word"}}"#, "a"),
    ] {
        match begun(&rt, alloc, &mut made, local, term) {
            Ok(Next::Done) => {}
            _ => rt.panic("a defined term"),
        }
    }
}
