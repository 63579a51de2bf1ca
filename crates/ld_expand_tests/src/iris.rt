use ld_iri::{is_blank, is_iri, is_keyword, is_keyword_form, relative, resolve, split};

// RFC 3986, sections 5.4.1 and 5.4.2: the normal and the abnormal examples, strict.
#[test]
fn resolves_as_the_examples_of_the_standard(rt: HostRuntime) {
    let base = "http://a/b/c/d;p?q";
    let rows = [
        ("g:h", "g:h"),
        ("g", "http://a/b/c/g"),
        ("./g", "http://a/b/c/g"),
        ("g/", "http://a/b/c/g/"),
        ("/g", "http://a/g"),
        ("//g", "http://g"),
        ("?y", "http://a/b/c/d;p?y"),
        ("g?y", "http://a/b/c/g?y"),
        ("#s", "http://a/b/c/d;p?q#s"),
        ("g#s", "http://a/b/c/g#s"),
        ("g?y#s", "http://a/b/c/g?y#s"),
        (";x", "http://a/b/c/;x"),
        ("g;x", "http://a/b/c/g;x"),
        ("g;x?y#s", "http://a/b/c/g;x?y#s"),
        ("", "http://a/b/c/d;p?q"),
        (".", "http://a/b/c/"),
        ("./", "http://a/b/c/"),
        ("..", "http://a/b/"),
        ("../", "http://a/b/"),
        ("../g", "http://a/b/g"),
        ("../..", "http://a/"),
        ("../../", "http://a/"),
        ("../../g", "http://a/g"),
        ("../../../g", "http://a/g"),
        ("../../../../g", "http://a/g"),
        ("/./g", "http://a/g"),
        ("/../g", "http://a/g"),
        ("g.", "http://a/b/c/g."),
        (".g", "http://a/b/c/.g"),
        ("g..", "http://a/b/c/g.."),
        ("..g", "http://a/b/c/..g"),
        ("./../g", "http://a/b/g"),
        ("./g/.", "http://a/b/c/g/"),
        ("g/./h", "http://a/b/c/g/h"),
        ("g/../h", "http://a/b/c/h"),
        ("g;x=1/./y", "http://a/b/c/g;x=1/y"),
        ("g;x=1/../y", "http://a/b/c/y"),
        ("g?y/./x", "http://a/b/c/g?y/./x"),
        ("g?y/../x", "http://a/b/c/g?y/../x"),
        ("g#s/./x", "http://a/b/c/g#s/./x"),
        ("g#s/../x", "http://a/b/c/g#s/../x"),
        ("http:g", "http:g"),
    ];
    assert!(rt; is_iri(base));
    for (reference, target) in rows {
        let text = resolve(rt.alloc(), base, reference).expect(&rt, "memory");
        assert!(rt; text.as_str() == target, "at {reference}");
    }
}

// Bases without an authority or a path, and what stands before a colon without the form of a scheme.
#[test]
fn resolves_under_other_bases(rt: HostRuntime) {
    let rows = [
        ("http://h", "x", "http://h/x"),
        ("http://h?q", "../x", "http://h/x"),
        ("ex:", "x", "ex:x"),
        ("ex:a/b", "../../c", "ex:/c"),
        ("ex:a", "../../c", "ex:c"),
        ("ex:a", "./b/.", "ex:b/"),
        ("ex:a", "..", "ex:"),
        ("http://f/d/doc", "1a:b", "http://f/d/1a:b"),
    ];
    for (base, reference, target) in rows {
        assert!(rt; is_iri(base), "at {base}");
        let text = resolve(rt.alloc(), base, reference).expect(&rt, "memory");
        assert!(rt; text.as_str() == target, "at {base} and {reference}");
    }
}

#[test]
fn relative_references(rt: HostRuntime) {
    let base = "http://a/b/c/d";
    let rows = [
        (base, "http://a/b/x", "../x"),
        (base, "http://a/b/c/d#f", "#f"),
        (base, "http://a/b/c/", "./"),
        (base, base, "d"),
        (base, "http://z/", "http://z/"),
        (base, "http://a/b/c/d?x:y", "d?x:y"),
        (base, "http://a/b/c/x:y", "./x:y"),
        (base, "http://a/b/c/@type", "./@type"),
        (base, "http://a/b/c/@type?", "@type?"),
        (base, "http://a/b/c?q", "../c?q"),
        (base, "http://a/b/c/e/../f", "http://a/b/c/e/../f"),
        ("http://h", "http://h/q", "http://h/q"),
    ];
    for (base, iri, reference) in rows {
        assert!(rt; is_iri(base) && is_iri(iri), "at {iri}");
        let text = relative(rt.alloc(), base, iri).expect(&rt, "memory");
        assert!(rt; text.as_str() == reference, "at {base} and {iri}");
    }
}

#[test]
fn words_by_their_form(rt: HostRuntime) {
    for text in ["ex:", "a1+-.:é", "http://h/\u{A0}\u{2028}"] {
        assert!(rt; is_iri(text), "at {text}");
    }
    for text in [
        "", ":x", "1a:b", "_:b", "a b:c", "a:b c", "a:<", "a:\u{1F}", "a:\u{7F}", "a:\u{80}",
        "a:\u{9F}",
    ] {
        assert!(rt; !is_iri(text), "at {text}");
    }
    assert!(rt; is_blank("_:") && is_blank("_:b") && !is_blank(":_"));
    assert!(rt; is_keyword("@type") && !is_keyword("@types"));
    assert!(rt; is_keyword_form("@types") && !is_keyword_form("@"));
    assert!(rt; !is_keyword_form("@a1") && !is_keyword_form("type"));
    let parts = split("1a:b?c#d?e");
    assert!(rt; parts.scheme == None && parts.authority == None);
    assert!(rt; parts.path == "1a:b" && parts.query == Some("c") && parts.fragment == Some("d?e"));
}
