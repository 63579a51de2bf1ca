use crate::helpers::{ask, mapping, named, processed, stock, tree};
use ld_context::{Plain, Runs, process};
use ld_ctx::{Ask, Containers, Contexts, View};
use ld_inverse::{Inverses, Kind};
use ld_tree::{Entries, Items, Text, Tree};
use std::process::Abort;

#[test]
fn an_equal_protected_term_passes(rt: HostRuntime) {
    let alloc = rt.alloc();
    let local = r#"[{"@protected":true,"n":"http://e/n"},{"n":"http://e/n"}]"#;
    let answer = processed(&rt, alloc, &[], local);
    assert_eq!(rt; mapping(&answer, "n"), Some("http://e/n"));
}

#[test]
fn null_gives_the_original_base(rt: HostRuntime) {
    let alloc = rt.alloc();
    let local = r#"[{"@base":"http://z/","@vocab":"http://v/","n":"http://e/n"},null]"#;
    let made = processed(&rt, alloc, &[], local).expect(&rt, "a context");
    assert!(rt; made.base() == Some("http://b/"));
    assert!(rt; made.vocab().is_none());
    assert!(rt; made.def("n").is_none());
}

#[test]
fn an_import_yields_to_the_entries_over_it(rt: HostRuntime) {
    let alloc = rt.alloc();
    let texts = [(
        "http://c/i",
        r#"{"@context":{"n":"http://e/n","q":"http://e/q"}}"#,
    )];
    let local = r#"{"@import":"http://c/i","n":"http://e/m"}"#;
    let answer = processed(&rt, alloc, &texts, local);
    assert_eq!(rt; mapping(&answer, "n"), Some("http://e/m"));
    assert_eq!(rt; mapping(&answer, "q"), Some("http://e/q"));
}

#[test]
fn a_base_counts_in_no_remote_context_and_behind_none(rt: HostRuntime) {
    let alloc = rt.alloc();
    let texts = [(
        "http://c/1",
        r#"{"@context":{"@base":"http://y/","n":"http://e/n"}}"#,
    )];
    let behind = processed(
        &rt,
        alloc,
        &texts,
        r#"["http://c/1",{"@base":"http://z/"}]"#,
    )
    .expect(&rt, "a context");
    assert!(rt; behind.base() == Some("http://b/"));
    let before = processed(&rt, alloc, &texts, r#"[{"@base":"../z/"},"http://c/1"]"#).expect(
        &rt,
        "a context",
    );
    assert!(rt; before.base() == Some("http://b/z/"));
}

#[test]
fn a_context_that_is_not_propagated_keeps_the_previous_one(rt: HostRuntime) {
    let alloc = rt.alloc();
    let mut ask = ask(
        &rt,
        alloc,
        tree(&rt, alloc, r#"{"@propagate":false,"n":"http://e/n"}"#),
    );
    ask.active.vocab = Some(Text::from_str(alloc, "http://v/").expect(&rt, "memory"));
    let stock = stock(&rt, alloc, &[]);
    let made = process(alloc, &ask, &stock, &mut Runs::new(alloc)).expect(&rt, "a context");
    assert!(rt; made.def("n").is_some());
    let previous = made.previous().expect(&rt, "a previous context");
    assert!(rt; previous.vocab() == Some("http://v/"));
    assert!(rt; previous.def("n").is_none());
    assert!(rt; previous.previous().is_none());
}

#[test]
fn a_scoped_context_is_tried_and_kept_as_it_is(rt: HostRuntime) {
    let alloc = rt.alloc();
    let texts = [("http://c/2", r#"{"@context":{"ex":"urn:x:"}}"#)];
    let inline =
        r#"{"@protected":true,"ex":null,"q":{"@id":"http://e/q","@context":{"ex":"urn:x:"}}}"#;
    let made = processed(&rt, alloc, &texts, inline).expect(&rt, "a context");
    let kept = made
        .def("q")
        .expect(&rt, "a definition")
        .scoped
        .as_ref()
        .expect(&rt, "a context");
    assert!(rt; kept.is_same(&tree(&rt, alloc, r#"{"ex":"urn:x:"}"#)));
    assert!(rt; made.def("ex").expect(&rt, "a definition").mapping.is_none());
    let remote =
        r#"{"@protected":true,"ex":null,"q":{"@id":"http://e/q","@context":"http://c/2"}}"#;
    let answer = processed(&rt, alloc, &texts, remote);
    assert_eq!(rt; named(&answer), "invalid scoped context");
}

#[test]
fn a_scoped_context_that_names_itself_is_not_validated_further(rt: HostRuntime) {
    let alloc = rt.alloc();
    let texts = [(
        "http://c/t",
        r#"{"@context":{"t":{"@id":"http://e/t","@context":"http://c/t"}}}"#,
    )];
    let answer = processed(&rt, alloc, &texts, r#""http://c/t""#);
    assert_eq!(rt; mapping(&answer, "t"), Some("http://e/t"));
}

#[test]
fn at_most_32_previous_contexts(rt: HostRuntime) {
    let alloc = rt.alloc();
    let stock = stock(&rt, alloc, &[]);
    let mut local = Items::new(alloc);
    for count in 1..33 {
        local
            .push(Tree::Null)
            .map_err(|_| "memory")
            .expect(&rt, "memory");
        let copy = Tree::List(local).try_copy(alloc).expect(&rt, "memory");
        let Tree::List(again) = copy.try_copy(alloc).expect(&rt, "memory") else {
            return rt.panic("a list");
        };
        local = again;
        let mut ask = ask(&rt, alloc, copy);
        ask.propagate = false;
        let answer = process(alloc, &ask, &stock, &mut Runs::new(alloc));
        let due = if count < 32 {
            "a context"
        } else {
            "nesting limit"
        };
        assert_eq!(rt; named(&answer), due);
    }
}

#[test]
fn a_long_chain_of_prefixes(rt: HostRuntime) {
    let alloc = rt.alloc();
    let mut entries = Vec::new(alloc);
    for place in 0..50_000_u32 {
        let next = place + 1;
        let name = format!(in alloc; "t{place:05}").expect(&rt, "memory");
        let value = if next < 50_000 {
            format!(in alloc; "t{next:05}:").expect(&rt, "memory")
        } else {
            format!(in alloc; "http://e/").expect(&rt, "memory")
        };
        entries
            .push((
                Text::from_string(name),
                Tree::Text(Text::from_string(value)),
            ))
            .expect(&rt, "memory");
    }
    let mut map = Entries::new(alloc);
    for (name, value) in entries {
        map.put(name, value)
            .map_err(|_| "memory")
            .expect(&rt, "memory");
    }
    let ask = ask(&rt, alloc, Tree::Map(map));
    let stock = stock(&rt, alloc, &[]);
    let answer = process(alloc, &ask, &stock, &mut Runs::new(alloc));
    assert_eq!(rt; mapping(&answer, "t00000"), Some("http://e/"));
}

#[test]
fn many_terms_with_scoped_contexts(rt: HostRuntime) {
    let alloc = rt.alloc();
    let value = tree(
        &rt,
        alloc,
        r#"{"@id":"http://e/t","@context":{"@vocab":"http://v/","u":"http://e/u"}}"#,
    );
    let mut map = Entries::new(alloc);
    for place in 0..50_000_u32 {
        let name = format!(in alloc; "t{place:05}").expect(&rt, "memory");
        let copy = value.try_copy(alloc).expect(&rt, "memory");
        map.put(Text::from_string(name), copy)
            .map_err(|_| "memory")
            .expect(&rt, "memory");
    }
    let ask = ask(&rt, alloc, Tree::Map(map));
    let stock = stock(&rt, alloc, &[]);
    let answer = process(alloc, &ask, &stock, &mut Runs::new(alloc));
    assert_eq!(rt; mapping(&answer, "t49999"), Some("http://e/t"));
    assert_eq!(rt; mapping(&answer, "u"), None);
}

#[test]
fn plain_gives_contexts_and_takes_them_again(rt: HostRuntime) {
    let alloc = rt.alloc();
    let stock = stock(
        &rt,
        alloc,
        &[("http://c/1", r#"{"@context":{"n":"http://e/n"}}"#)],
    );
    let mut plain = Plain::new(alloc, &stock);
    let fresh = plain.fresh(alloc, Some("http://b/")).expect(&rt, "memory");
    let first = Ask {
        active: fresh,
        local: tree(&rt, alloc, r#"{"@propagate":false,"m":"http://e/m"}"#),
        base: None,
        remote: Items::new(alloc),
        over: false,
        propagate: true,
        validate: true,
        depth: 1,
    };
    let made = plain.context(alloc, first).expect(&rt, "a context");
    let second = Ask {
        active: made.try_copy(alloc).expect(&rt, "memory"),
        local: tree(&rt, alloc, r#""http://c/1""#),
        base: None,
        remote: Items::new(alloc),
        over: false,
        propagate: true,
        validate: true,
        depth: 1,
    };
    let both = plain.context(alloc, second).expect(&rt, "a context");
    assert!(rt; both.def("m").is_some() && both.def("n").is_some());
    assert!(rt;
        both.previous()
            .expect(&rt, "a previous context")
            .def("m")
            .is_none()
    );
    assert!(rt; made.def("n").is_none());
    assert_eq!(rt; plain.runs().count, 3);
    assert_eq!(rt; plain.runs().read.as_slice().len(), 1);
}

#[test]
fn plain_gives_the_inverse_of_a_context(rt: HostRuntime) {
    let alloc = rt.alloc();
    let stock = stock(&rt, alloc, &[]);
    let mut plain = Plain::new(alloc, &stock);
    let ask = Ask {
        active: plain.fresh(alloc, None).expect(&rt, "memory"),
        local: tree(&rt, alloc, r#"{"n":"http://e/n"}"#),
        base: None,
        remote: Items::new(alloc),
        over: false,
        propagate: true,
        validate: true,
        depth: 1,
    };
    let made = plain.context(alloc, ask).expect(&rt, "a context");
    let inverse = plain.inverse(alloc, &made).expect(&rt, "memory");
    let none = Containers {
        graph: false,
        id: false,
        index: false,
        language: false,
        list: false,
        set: false,
        types: false,
    };
    assert_eq!(rt;
        inverse.select("http://e/n", &[none], Kind::Tag, &["@null", "@none"]),
        Some("n")
    );
}
