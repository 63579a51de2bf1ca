use ld_tree::{Num, Tree};
use ld_tree_read::{ReadRefusal, read_tree};
use std::alloc::Global;
use std::process::Abort;
use std::test::Fail;

/// Asserts that the bytes read as no tree.
fn refuses(rt: &impl Abort, alloc: Global, bytes: &[u8]) {
    match read_tree(alloc, bytes) {
        Ok(_) => assert!(rt; false, "{bytes:?} reads"),
        Err(e) => assert!(rt; e != ReadRefusal::NoMemory),
    }
}

/// Asserts that both read as one tree.
fn reads_alike(rt: &impl Abort, alloc: Global, bytes: &[u8], other: &[u8]) -> Result<(), Fail> {
    let tree = read_tree(alloc, bytes)?;
    let expected = read_tree(alloc, other)?;
    assert_eq!(rt; tree, expected);
    Ok(())
}

/// Asserts that the bytes read as this text.
fn reads_text(rt: &impl Abort, alloc: Global, bytes: &[u8], expected: &str) -> Result<(), Fail> {
    match read_tree(alloc, bytes)? {
        Tree::Text(text) => assert_eq!(rt; text.as_str(), expected),
        _ => assert!(rt; false, "no text"),
    }
    Ok(())
}

/// As many brackets that open, and as many that close.
fn nested(alloc: Global, levels: usize) -> Result<Vec<u8>, Fail> {
    let mut text = Vec::new(alloc);
    for _ in 0..levels {
        text.push(b'[')?;
    }
    for _ in 0..levels {
        text.push(b']')?;
    }
    Ok(text)
}

#[test]
fn literals_and_space(rt: HostRuntime) -> Result<(), Fail> {
    let alloc = rt.alloc();
    assert_eq!(rt; read_tree(alloc, b"null")?, Tree::Null);
    assert_eq!(rt; read_tree(alloc, b" true\r\n")?, Tree::Bool(true));
    assert_eq!(rt; read_tree(alloc, b"\tfalse ")?, Tree::Bool(false));
    for bytes in [
        b"" as &[u8],
        b" ",
        b"nul",
        b"nulll",
        b"Null",
        b"tru",
        b"fals",
        b"true false",
        b"\x0Cnull",
        b"\xC2\xA0null",
        b"null,",
    ] {
        refuses(&rt, alloc, bytes);
    }
    Ok(())
}

#[test]
fn numbers(rt: HostRuntime) -> Result<(), Fail> {
    let alloc = rt.alloc();
    let table: [(&[u8], i64); 7] = [
        (b"0", 0),
        (b"-0", 0),
        (b"10", 10),
        (b"-12", -12),
        (b"9223372036854775807", i64::MAX),
        (b"-9223372036854775807", -9223372036854775807),
        (b"-9223372036854775808", i64::MIN),
    ];
    for (bytes, value) in table {
        assert_eq!(rt; read_tree(alloc, bytes)?, Tree::Num(Num::Whole(value)));
    }
    for bytes in [
        b"9223372036854775808" as &[u8],
        b"-9223372036854775809",
        b"18446744073709551616",
        b"99999999999999999999999",
        b"01",
        b"-01",
        b"00",
        b"-",
        b"+1",
        b"1.5",
        b"-1.1",
        b"0.11",
        b"1.11",
        b"111e-2",
        b"1.",
        b".5",
        b"1.e2",
        b"1e",
        b"1e+",
        b"1e2.0",
        b"1e19",
        b"-1e19",
        b"1e99999999999999999999",
        b"1e-99999999999999999999",
        b"9223372036854775807.1",
        b"0x1",
        b"1_000",
        b"NaN",
        b"- 1",
    ] {
        refuses(&rt, alloc, bytes);
    }
    Ok(())
}

#[test]
fn numbers_are_read_by_their_exact_value(rt: HostRuntime) -> Result<(), Fail> {
    let alloc = rt.alloc();
    let whole: [(&[u8], i64); 12] = [
        (b"1.0", 1),
        (b"-0.0", 0),
        (b"0e9", 0),
        (b"0e-99999999999999999999", 0),
        (b"1e2", 100),
        (b"1E+2", 100),
        (b"100e-2", 1),
        (b"1.50e1", 15),
        (b"-12.0e0", -12),
        (b"9.223372036854775807e18", i64::MAX),
        (b"-9223372036854775808.000", i64::MIN),
        (b"92233720368547758070000e-4", i64::MAX),
    ];
    for (bytes, value) in whole {
        assert_eq!(rt; read_tree(alloc, bytes)?, Tree::Num(Num::Whole(value)));
    }
    for bytes in [
        b"1.1" as &[u8],
        b"11e-1",
        b"1.10",
        b"0.11e1",
        b"110E-2",
        b"0.000011e+5",
    ] {
        assert_eq!(rt; read_tree(alloc, bytes)?, Tree::Num(Num::OneOne));
    }
    Ok(())
}

#[test]
fn lists_and_maps(rt: HostRuntime) -> Result<(), Fail> {
    let alloc = rt.alloc();
    reads_alike(&rt, alloc, b" [ 1 , [ ] , { } , null ] ", b"[1,[],{},null]")?;
    reads_alike(&rt, alloc, b"\xEF\xBB\xBF [1]", b"[1]")?;
    reads_alike(
        &rt,
        alloc,
        b"{\"b\":1,\"a\":2}",
        b"{ \"a\" : 2 , \"b\" : 1 }",
    )?;
    reads_alike(
        &rt,
        alloc,
        b"{\"a\":1,\"b\":2,\"a\":3,\"a\":4}",
        b"{\"a\":4,\"b\":2}",
    )?;
    reads_alike(&rt, alloc, b"{\"a\":1,\"\\u0061\":2}", b"{\"a\":2}")?;
    match read_tree(alloc, b"{\"b\":1,\"a\":[true]}")?.get("b") {
        Some(value) => assert_eq!(rt; *value, Tree::Num(Num::Whole(1))),
        None => assert!(rt; false, "no entry"),
    }
    for bytes in [
        b"[" as &[u8],
        b"]",
        b"[1",
        b"[1,",
        b"[1,]",
        b"[,1]",
        b"[1 2]",
        b"[1}",
        b"[]]",
        b"{",
        b"}",
        b"{\"a\"}",
        b"{\"a\":}",
        b"{\"a\":1,}",
        b"{,}",
        b"{1:1}",
        b"{a:1}",
        b"{\"a\" 1}",
        b"{\"a\":1]",
        b"{\"a\":1 \"b\":2}",
        b"\xEF\xBB\xBF",
        b"\xEF\xBB\xBF\xEF\xBB\xBF1",
        b" \xEF\xBB\xBF1",
        b"\xEF\xBB1",
        b"\xFE\xFF\x001",
    ] {
        refuses(&rt, alloc, bytes);
    }
    Ok(())
}

#[test]
fn strings(rt: HostRuntime) -> Result<(), Fail> {
    let alloc = rt.alloc();
    let table: [(&[u8], &str); 9] = [
        (b"\"\"", ""),
        (b"\"a b\"", "a b"),
        (b"\"\\\"\\\\\\/\\b\\f\\n\\r\\t\"", "\"\\/\u{8}\u{c}\n\r\t"),
        (
            b"\"\\u0041\\u00e9\\u20AC\\uFFFD\"",
            "A\u{e9}\u{20ac}\u{fffd}",
        ),
        (b"\"\\u0000\\uD7FF\\uE000\"", "\u{0}\u{d7ff}\u{e000}"),
        (
            b"\"\\uD83D\\ude00\\uD800\\uDC00\\uDBFF\\uDFFF\"",
            "\u{1f600}\u{10000}\u{10ffff}",
        ),
        (b"\"\x7F\xC2\x80\xDF\xBF\"", "\u{7f}\u{80}\u{7ff}"),
        (
            b"\"\xE0\xA0\x80\xED\x9F\xBF\xEE\x80\x80\xEF\xBF\xBF\"",
            "\u{800}\u{d7ff}\u{e000}\u{ffff}",
        ),
        (
            b"\"\xF0\x90\x80\x80\xF4\x8F\xBF\xBF\"",
            "\u{10000}\u{10ffff}",
        ),
    ];
    for (bytes, text) in table {
        reads_text(&rt, alloc, bytes, text)?;
    }
    for bytes in [
        b"\"" as &[u8],
        b"\"a",
        b"\"\\\"",
        b"'a'",
        b"\"\\x\"",
        b"\"\\U0041\"",
        b"\"\\u004\"",
        b"\"\\u00g0\"",
        b"\"\\a\"",
        b"\"\n\"",
        b"\"\x00\"",
        b"\"\x1F\"",
        b"\"\t\"",
    ] {
        refuses(&rt, alloc, bytes);
    }
    // Halves of surrogate pairs, as escapes and as bytes.
    for bytes in [
        b"\"\\uD83D\"" as &[u8],
        b"\"\\uDE00\"",
        b"\"\\uDE00\\uD83D\"",
        b"\"\\uD83D\\uD83D\"",
        b"\"\\uD83Dx\"",
        b"\"\\uD83D\\n\"",
        b"\"\\uD83D\\u0041\"",
        b"\"\xED\xA0\x80\"",
        b"\"\xED\xBF\xBF\"",
        b"\"\xED\xA0\xBD\xED\xB8\x80\"",
    ] {
        refuses(&rt, alloc, bytes);
    }
    // Overlong forms, bytes above F4, characters that are cut, and those past the last.
    for bytes in [
        b"\"\xC0\x80\"" as &[u8],
        b"\"\xC1\xBF\"",
        b"\"\xE0\x9F\xBF\"",
        b"\"\xF0\x8F\xBF\xBF\"",
        b"\"\xF4\x90\x80\x80\"",
        b"\"\xF5\x80\x80\x80\"",
        b"\"\xFF\"",
        b"\"\x80\"",
        b"\"\xE2\x82\"",
        b"\"\xE2\x82\\n\"",
        b"\"\xE2\\u0082\xAC\"",
        b"{\"\xC0\x80\":1}",
    ] {
        refuses(&rt, alloc, bytes);
    }
    Ok(())
}

#[test]
fn depth(rt: HostRuntime) -> Result<(), Fail> {
    let alloc = rt.alloc();
    let deepest = nested(alloc, 128)?;
    assert_eq!(rt; read_tree(alloc, deepest.as_slice())?.depth(), 128);
    let deeper = nested(alloc, 129)?;
    refuses(&rt, alloc, deeper.as_slice());
    let mut mixed = Vec::new(alloc);
    mixed.extend_from_slice(b"{\"a\":")?;
    mixed.extend_from_slice(deepest.as_slice())?;
    mixed.push(b'}')?;
    refuses(&rt, alloc, mixed.as_slice());
    let open = nested(alloc, 2_097_152)?;
    refuses(&rt, alloc, open.as_slice());
    Ok(())
}

#[test]
fn many_names(rt: HostRuntime) -> Result<(), Fail> {
    let alloc = rt.alloc();
    let mut text = Vec::new(alloc);
    text.push(b'{')?;
    for _ in 0..100 {
        text.extend_from_slice(b"\"b\":[1],\"a\":[2],\"c\":[3],")?;
    }
    text.extend_from_slice(b"\"b\":4}")?;
    reads_alike(
        &rt,
        alloc,
        text.as_slice(),
        b"{\"a\":[2],\"b\":4,\"c\":[3]}",
    )
}
