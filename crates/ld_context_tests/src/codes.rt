use crate::helpers::{named, processed};

/// A small context for each code that Context Processing (4.1.2) and Create Term Definition (4.2.2) give, and for
/// each refusal that is the profile's own.
#[test]
fn each_code_has_its_context(rt: HostRuntime) {
    let alloc = rt.alloc();
    let texts = [
        ("http://c/self", r#"{"@context":"http://c/self"}"#),
        ("http://c/none", r#"{"context":{}}"#),
        (
            "http://c/import",
            r#"{"@context":{"@import":"http://c/none"}}"#,
        ),
        (
            "http://c/deep",
            r#"{"@context":{"t":{"@id":"http://e/t","@context":{"@import":"http://c/deep"}}}}"#,
        ),
    ];
    let rows = [
        (
            r#"[{"@protected":true,"n":"http://e/n"},null]"#,
            "invalid context nullification",
        ),
        (r#""http://e/ x""#, "loading document failed"),
        (r#""http://c/self""#, "context overflow"),
        (
            r#"{"@import":"http://e/ x"}"#,
            "loading remote context failed",
        ),
        (r#""http://c/none""#, "invalid remote context"),
        ("1", "invalid local context"),
        (r#"{"@version":1}"#, "invalid @version value"),
        (r#"{"@import":1}"#, "invalid @import value"),
        (r#"{"@import":"http://c/import"}"#, "invalid context entry"),
        (r#"{"@base":1}"#, "invalid base IRI"),
        (r#"{"@vocab":1}"#, "invalid vocab mapping"),
        (r#"{"@language":1}"#, "invalid default language"),
        (r#"{"@propagate":1}"#, "invalid @propagate value"),
        (r#"{"@protected":1}"#, "invalid @protected value"),
        (r#"{"a":"b:x","b":"a:y"}"#, "cyclic IRI mapping"),
        (r#"{"":"http://e/"}"#, "invalid term definition"),
        (r#"{"@id":"http://e/"}"#, "keyword redefinition"),
        (
            r#"{"t":{"@id":"http://e/t","@type":1}}"#,
            "invalid type mapping",
        ),
        (
            r#"{"t":{"@id":"http://e/t","@reverse":"http://e/t"}}"#,
            "invalid reverse property",
        ),
        (r#"{"t":{"@id":1}}"#, "invalid IRI mapping"),
        (r#"{"t":{"@id":"@context"}}"#, "invalid keyword alias"),
        (
            r#"{"t":{"@id":"http://e/t","@container":"x"}}"#,
            "invalid container mapping",
        ),
        (
            r#"{"t":{"@id":"http://e/t","@context":1}}"#,
            "invalid scoped context",
        ),
        (
            r#"{"t":{"@id":"http://e/t","@language":1}}"#,
            "invalid language mapping",
        ),
        (
            r#"{"t":{"@id":"http://e/t","@prefix":1}}"#,
            "invalid @prefix value",
        ),
        (
            r#"[{"@protected":true,"n":"http://e/n"},{"n":"http://e/m"}]"#,
            "protected term redefinition",
        ),
        (r#""http://c/deep""#, "nesting limit"),
        (r#"{"@direction":"ltr"}"#, "@direction"),
        (r#"{"t":{"@id":"http://e/t","@nest":"@nest"}}"#, "@nest"),
        (r#"{"t":{"@id":"http://e/t","@index":"i"}}"#, "@index"),
        (r#"["http://c/missing",1]"#, "http://c/missing"),
    ];
    for (local, code) in rows.iter() {
        let answer = processed(&rt, alloc, &texts, local);
        assert_eq!(rt; named(&answer), *code);
    }
}
