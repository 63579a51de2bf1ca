use ld_answer::{Answer, Op, read_envelope};
use ld_context::Plain;
use ld_ctx::Stock;
use ld_tree::Tree;
use ld_tree_write::write_tree;
use std::alloc::Global;
use std::process::Abort;
use std::test::Fail;

// What the operation gives for an envelope over no loaded contexts.
fn answered(rt: &impl Abort, alloc: Global, op: Op, envelope: &str) -> Result<Tree, Fail> {
    let Ok(envelope) = read_envelope(alloc, op, envelope.as_bytes()) else {
        rt.panic("no envelope");
    };
    let stock = Stock::of(alloc, Vec::new(alloc))?;
    let mut work = Plain::new(alloc, &stock);
    match envelope.answer(alloc, op, &mut work) {
        Answer::Result(tree) => Ok(tree),
        _ => rt.panic("no result"),
    }
}

// Documents, each with the context that stands in it and that it is compacted with.
const DOCUMENTS: [(&str, &str); 30] = [
    (r#"{"n":"http://e/n"}"#, r#""n":"x""#),
    (r#"{"n":"http://e/n"}"#, r#""n":["x",1,true,1.1]"#),
    (
        r#"{"n":"http://e/n"}"#,
        r#""@id":"http://e/a","@type":"http://e/T","n":null"#,
    ),
    (
        r#"{"@vocab":"http://e/"}"#,
        r#""@type":["T","U"],"n":{"m":{"k":1}}"#,
    ),
    (
        r#"{"id":"@id","type":"@type","T":"http://e/T"}"#,
        r#""id":"http://e/a","type":"T""#,
    ),
    (r#"{"p":"http://e/"}"#, r#""p:a":"x","p:b":{"@id":"p:c"}"#),
    (
        r#"{"@language":"en","n":"http://e/n"}"#,
        r#""n":["x",{"@value":"y","@language":"de"},{"@value":"z"}]"#,
    ),
    (
        r#"{"n":{"@id":"http://e/n","@language":"de"}}"#,
        r#""n":"x""#,
    ),
    (
        r#"{"n":{"@id":"http://e/n","@container":"@language"}}"#,
        r#""n":{"de":["x","y"],"en":"z"}"#,
    ),
    (
        r#"{"n":{"@id":"http://e/n","@container":["@language","@set"]}}"#,
        r#""n":{"de":["x"],"@none":["z"]}"#,
    ),
    (
        r#"{"k":{"@id":"http://e/k","@type":"@id"}}"#,
        r#""k":["http://e/a","http://e/b"]"#,
    ),
    (
        r#"{"k":{"@id":"http://e/k","@type":"@vocab"},"a":"http://e/a"}"#,
        r#""k":["a","http://e/b"]"#,
    ),
    (
        r#"{"d":{"@id":"http://e/d","@type":"http://e/date"}}"#,
        r#""d":["1","2"]"#,
    ),
    (
        r#"{"j":{"@id":"http://e/j","@type":"@json"}}"#,
        r#""j":{"a":[1,{"b":null}],"c":"d"}"#,
    ),
    (
        r#"{"l":{"@id":"http://e/l","@container":"@list"}}"#,
        r#""l":["x","y",1]"#,
    ),
    (
        r#"{"l":{"@id":"http://e/l","@container":"@list"}}"#,
        r#""l":[["x"],[],[["y"]]]"#,
    ),
    (
        r#"{"l":{"@id":"http://e/l","@container":"@list"}}"#,
        r#""l":[]"#,
    ),
    (
        r#"{"s":{"@id":"http://e/s","@container":"@set"}}"#,
        r#""s":["x"]"#,
    ),
    (
        r#"{"s":{"@id":"http://e/s","@container":"@set"}}"#,
        r#""s":[]"#,
    ),
    (
        r#"{"i":{"@id":"http://e/i","@container":"@index"}}"#,
        r#""i":{"a":"x","b":["y","z"],"@none":"w"}"#,
    ),
    (
        r#"{"i":{"@id":"http://e/i","@container":"@id"},"n":"http://e/n"}"#,
        r#""i":{"http://e/a":{"n":1},"http://e/b":{"n":2}}"#,
    ),
    (
        r#"{"i":{"@id":"http://e/i","@container":"@type"},"n":"http://e/n","@vocab":"http://v/"}"#,
        r#""i":{"T":{"n":1},"U":[{"n":2},{"n":3}]}"#,
    ),
    (
        r#"{"g":{"@id":"http://e/g","@container":"@graph"},"n":"http://e/n"}"#,
        r#""g":{"n":1}"#,
    ),
    (
        r#"{"g":{"@id":"http://e/g","@container":["@graph","@id"]},"n":"http://e/n"}"#,
        r#""g":{"http://e/a":{"n":1},"http://e/b":{"n":2}}"#,
    ),
    (
        r#"{"g":{"@id":"http://e/g","@container":["@graph","@index"]},"n":"http://e/n"}"#,
        r#""g":{"a":{"n":1},"b":{"n":2}}"#,
    ),
    (
        r#"{"r":{"@reverse":"http://e/r"},"n":"http://e/n"}"#,
        r#""@id":"http://e/a","r":[{"@id":"http://e/b","n":1},{"@id":"http://e/c"}]"#,
    ),
    (
        r#"{"n":"http://e/n"}"#,
        r#""@id":"http://e/a","@reverse":{"http://e/r":{"@id":"http://e/b"}}"#,
    ),
    (
        r#"{"T":{"@id":"http://e/T","@context":{"n":"http://t/n"}},"n":"http://e/n","m":"http://e/m"}"#,
        r#""@type":"T","n":1,"m":{"n":2}"#,
    ),
    (
        r#"{"m":{"@id":"http://e/m","@context":{"n":"http://m/n"}},"n":"http://e/n"}"#,
        r#""n":1,"m":{"n":{"n":2}}"#,
    ),
    (
        r#"{"n":"http://e/n","in":"@included"}"#,
        r#""@id":"http://e/a","n":1,"in":[{"@id":"http://e/b","n":2}],"@index":"x""#,
    ),
];

#[test]
fn what_is_compacted_expands_again(rt: HostRuntime) -> Result<(), Fail> {
    let alloc = rt.alloc();
    for (context, body) in DOCUMENTS {
        let document = format!(in alloc; "{{\"@context\":{context},{body}}}")?;
        let envelope = format!(in alloc; "{{\"document\":{document}}}")?;
        let expanded = answered(&rt, alloc, Op::Expand, envelope.as_str())?;
        let envelope = format!(in alloc; "{{\"document\":{document},\"context\":{context}}}")?;
        let compacted = answered(&rt, alloc, Op::Compact, envelope.as_str())?;
        let mut bytes = Vec::new(alloc);
        write_tree(&compacted, &mut bytes)?;
        let text = String::from_utf8(bytes)?;
        let envelope = format!(in alloc; "{{\"document\":{text}}}")?;
        let again = answered(&rt, alloc, Op::Expand, envelope.as_str())?;
        assert!(rt; again.is_same(&expanded), "{document}");
    }
    Ok(())
}
