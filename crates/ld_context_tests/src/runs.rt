use crate::helpers::{ask, named, stock, tree};
use ld_context::{Runs, process};
use ld_tree::Text;
use std::process::Abort;

/// Remote contexts, scoped contexts and those within them count, also where the answer is an error.
#[test]
fn runs_are_told_at_each_answer(rt: HostRuntime) {
    let alloc = rt.alloc();
    let stock = stock(
        &rt,
        alloc,
        &[
            ("http://c/1", r#"{"@context":"http://c/2"}"#),
            ("http://c/2", r#"{"@context":{"n":"http://e/n"}}"#),
        ],
    );
    let rows = [
        ("{}", "a context", 1, 0),
        (
            r#"["http://c/1",{"@import":"http://c/2"}]"#,
            "a context",
            3,
            3,
        ),
        (
            r#"{"t":{"@id":"http://e/t","@context":[{},"http://c/1"]}}"#,
            "a context",
            4,
            2,
        ),
        (r#"["http://c/1",1]"#, "invalid local context", 3, 2),
        (r#"["http://c/1","http://c/3"]"#, "http://c/3", 3, 3),
    ];
    for (local, due, count, read) in rows.iter() {
        let mut runs = Runs::new(alloc);
        let ask = ask(&rt, alloc, tree(&rt, alloc, local));
        let answer = process(alloc, &ask, &stock, &mut runs);
        assert_eq!(rt; named(&answer), *due);
        assert_eq!(rt; runs.count, *count);
        assert_eq!(rt; runs.read.as_slice().len(), *read);
    }
}

#[test]
fn runs_go_on(rt: HostRuntime) {
    let alloc = rt.alloc();
    let stock = stock(&rt, alloc, &[("http://c/1", r#"{"@context":{}}"#)]);
    let mut runs = Runs::new(alloc);
    runs.count = u64::MAX - 1;
    runs.read
        .push(Text::from_str(alloc, "http://c/0").expect(&rt, "memory"))
        .map_err(|_| "memory")
        .expect(&rt, "memory");
    let ask = ask(&rt, alloc, tree(&rt, alloc, r#""http://c/1""#));
    let answer = process(alloc, &ask, &stock, &mut runs);
    assert_eq!(rt; named(&answer), "a context");
    assert_eq!(rt; runs.count, u64::MAX);
    let [first, second] = runs.read.as_slice() else {
        return rt.panic("two IRIs");
    };
    assert_eq!(rt; first.as_str(), "http://c/0");
    assert_eq!(rt; second.as_str(), "http://c/1");
}
