use crate::locals::{begun, definition, fresh, local_context, mapping, rest};
use ld_codes::Code;
use ld_rec::Stop;
use ld_term::{Defined, Next, define, resume};
use ld_tree::Tree;
use std::process::Abort;

#[test]
fn terms_have_the_mappings_of_the_algorithm(rt: HostRuntime) {
    let alloc = rt.alloc();
    let rows = [
        (r#"{"a":"http://e/a"}"#, "a", "http://e/a"),
        (r#"{"a":{"@id":"b:x"},"b":"http://e/"}"#, "a", "http://e/x"),
        (r#"{"b:x":{},"b":"http://e/"}"#, "b:x", "http://e/x"),
        (r#"{"b:x":{}}"#, "b:x", "b:x"),
        (r#"{"a/b":{}}"#, "a/b", "http://v/a/b"),
        (r#"{"a":{}}"#, "a", "http://v/a"),
        (r#"{"a":"@type"}"#, "a", "@type"),
        (r#"{"a":null}"#, "a", "null"),
        (r#"{"a":"_:b"}"#, "a", "_:b"),
        (r#"{"@type":{"@container":"@set"}}"#, "@type", "@type"),
    ];
    for (local, term, iri) in rows {
        let mut made = fresh(&rt, alloc);
        assert!(rt; begun(&rt, alloc, &mut made, local, term).is_ok());
        assert!(rt; mapping(&rt, &made, term) == iri, "at {local}");
    }
}

#[test]
fn a_definition_keeps_what_its_map_says(rt: HostRuntime) {
    let alloc = rt.alloc();
    let mut made = fresh(&rt, alloc);
    let local =
        r#"{"a":{"@container":["@set","@type"],"@language":"EN","@protected":true,"@reverse":"http://e/a"}}"#;
    // a reverse term takes no container but `@set`, `@index` and null
    assert!(rt; begun(&rt, alloc, &mut made, local, "a").is_err());
    let local =
        r#"{"a":{"@container":["@set","@type"],"@id":"http://e/a/","@language":"EN","@protected":true}}"#;
    assert!(rt; begun(&rt, alloc, &mut made, local, "a").is_ok());
    let def = definition(&rt, &made, "a");
    assert!(rt; def.containers.set && def.containers.types && !def.containers.list);
    assert!(rt; def.protected && !def.reverse && !def.prefix);
    match &def.typed {
        Some(typed) => assert!(rt; typed.as_str() == "@id"),
        None => rt.panic("a type mapping"),
    }
    let local = r#"{"p":"http://e/p/","q":{"@id":"http://e/q/"}}"#;
    assert!(rt; begun(&rt, alloc, &mut made, local, "p").is_ok());
    assert!(rt; begun(&rt, alloc, &mut made, local, "q").is_ok());
    assert!(rt; definition(&rt, &made, "p").prefix && !definition(&rt, &made, "q").prefix);
}

#[test]
fn a_scoped_context_is_told_and_kept(rt: HostRuntime) {
    let alloc = rt.alloc();
    let mut made = fresh(&rt, alloc);
    let mut defined = Defined::new(alloc);
    let local = local_context(&rt, alloc, r#"{"a":{"@context":"http://c/x"}}"#);
    let rest = rest(alloc);
    match define(alloc, &mut made, &local, "a", &mut defined, &rest) {
        Ok(Next::Check(waiting)) => {
            match waiting.scoped() {
                Tree::Text(iri) => assert!(rt; iri.as_str() == "http://c/x"),
                _ => rt.panic("the scoped context"),
            }
            let next = resume(
                alloc,
                &mut made,
                &local,
                waiting,
                &mut defined,
                &rest,
                Ok(()),
            );
            assert!(rt; next.is_ok());
        }
        _ => rt.panic("a scoped context"),
    }
    assert!(rt; definition(&rt, &made, "a").scoped.is_some());
}

#[test]
fn a_code_of_a_scoped_context_becomes_its_own(rt: HostRuntime) {
    let alloc = rt.alloc();
    let mut made = fresh(&rt, alloc);
    let mut defined = Defined::new(alloc);
    let local = local_context(&rt, alloc, r#"{"a":{"@context":5}}"#);
    let rest = rest(alloc);
    match define(alloc, &mut made, &local, "a", &mut defined, &rest) {
        Ok(Next::Check(waiting)) => {
            let told = Err(Stop::Code(Code::InvalidLocalContext));
            match resume(alloc, &mut made, &local, waiting, &mut defined, &rest, told) {
                Err(Stop::Code(code)) => assert!(rt; code == Code::InvalidScopedContext),
                _ => rt.panic("a code"),
            }
        }
        _ => rt.panic("a scoped context"),
    }
}
