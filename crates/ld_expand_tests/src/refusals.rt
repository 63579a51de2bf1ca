use crate::contexts::Fresh;
use crate::expansion::read;
use ld_codes::{Code, Keyword, Own};
use ld_ctx::Stop;
use ld_expand::expand;
use std::process::Abort;

#[test]
fn faulty_documents_get_their_codes(rt: HostRuntime) {
    let alloc = rt.alloc();
    let rows = [
        (r#"{"@id":1}"#, Code::InvalidIdValue),
        (r#"{"@type":[1]}"#, Code::InvalidTypeValue),
        (r#"{"@index":1}"#, Code::InvalidIndexValue),
        (r#"{"@included":"x"}"#, Code::InvalidIncludedValue),
        (r#"{"@reverse":"x"}"#, Code::InvalidReverseValue),
        (
            r#"{"@reverse":{"@id":"http://e/a"}}"#,
            Code::InvalidReversePropertyMap,
        ),
        (
            r#"{"@reverse":{"http://e/p":"x"}}"#,
            Code::InvalidReversePropertyValue,
        ),
        (
            r#"{"http://e/p":{"@value":{"a":1}}}"#,
            Code::InvalidValueObjectValue,
        ),
        (
            r#"{"http://e/p":{"@value":"x","@id":"http://e/a"}}"#,
            Code::InvalidValueObject,
        ),
        (
            r#"{"http://e/p":{"@value":"x","@language":1}}"#,
            Code::InvalidLanguageTaggedString,
        ),
        (
            r#"{"http://e/p":{"@value":1,"@language":"en"}}"#,
            Code::InvalidLanguageTaggedValue,
        ),
        (
            r#"{"http://e/p":{"@value":"x","@type":"y z"}}"#,
            Code::InvalidTypedValue,
        ),
        (
            r#"{"http://e/p":{"@list":[],"@type":"http://e/T"}}"#,
            Code::InvalidSetOrListObject,
        ),
    ];
    for (document, code) in rows {
        let tree = read(&rt, alloc, document);
        match expand(alloc, &mut Fresh, None, &tree) {
            Err(Stop::Code(got)) => assert!(rt; got == code, "at {document}"),
            _ => rt.panic("no code"),
        }
    }
}

#[test]
fn directions_are_outside_the_profile(rt: HostRuntime) {
    let alloc = rt.alloc();
    let tree = read(&rt, alloc, r#"{"@direction":"ltr"}"#);
    match expand(alloc, &mut Fresh, None, &tree) {
        Err(Stop::Own(own)) => assert!(rt; own == Own::OutsideProfile(Keyword::Direction)),
        _ => rt.panic("not refused"),
    }
}

// A context of the document's own is asked for, with what stands beside it still to come.
#[test]
fn contexts_are_asked_for(rt: HostRuntime) {
    let alloc = rt.alloc();
    let tree = read(&rt, alloc, r#"{"@context":{"p":"http://e/p"},"@id":1}"#);
    match expand(alloc, &mut Fresh, None, &tree) {
        Err(Stop::NoMemory) => {}
        _ => rt.panic("not asked for"),
    }
}
