use ld_tree::{Num, Tree};
use ld_tree_read::{ReadRefusal, read_tree};
use std::alloc::Global;
use std::process::Abort;
use std::test::Fail;

/// Asserts what the bytes are refused with.
fn refused(rt: &impl Abort, alloc: Global, bytes: &[u8], expected: ReadRefusal) {
    assert_eq!(rt; read_tree(alloc, bytes), Err(expected), "{bytes:?}");
}

#[test]
fn numbers(rt: HostRuntime) -> Result<(), Fail> {
    let alloc = rt.alloc();
    let value = b"{\"http://e/p\":1.5}";
    refused(&rt, alloc, value, ReadRefusal::Fraction { at: 14 });
    let value = b"{\"http://e/p\":9223372036854775808}";
    refused(&rt, alloc, value, ReadRefusal::TooLarge { at: 14 });
    for bytes in [
        b"1.5" as &[u8],
        b"-1.1",
        b"1e-1",
        b"1.5 x",
        b"1.5\xFF",
        b"1.5]",
    ] {
        refused(&rt, alloc, bytes, ReadRefusal::Fraction { at: 0 });
    }
    for bytes in [
        b"9223372036854775808" as &[u8],
        b"-9223372036854775809",
        b"1e99999999999",
    ] {
        refused(&rt, alloc, bytes, ReadRefusal::TooLarge { at: 0 });
    }
    assert_eq!(rt; read_tree(alloc, b"0e9")?, Tree::Num(Num::Whole(0)));
    Ok(())
}

#[test]
fn places(rt: HostRuntime) -> Result<(), Fail> {
    let alloc = rt.alloc();
    let table: [(&[u8], usize); 26] = [
        (b"", 0),
        (b" ", 1),
        (b"nul", 3),
        (b"nulx", 3),
        (b"nulll", 4),
        (b"01", 1),
        (b"1.5.", 3),
        (b"1.5e", 4),
        (b"1e+x", 3),
        (b"-", 1),
        (b"[1,]", 3),
        (b"{\"a\"}", 4),
        (b"{\"a\":1,}", 7),
        (b"[1]]", 3),
        (b"\"a", 2),
        (b"\"\n\"", 1),
        (b"\"\\uDC00\"", 4),
        (b"\"\\uD83Dx\"", 7),
        (b"\"\\uD83D\\u0041\"", 9),
        (b"\"\\uD83D\\uDB00\"", 10),
        (b"\"\\x\"", 2),
        (b"\"\xC3\xA9\x1F", 3),
        (b"\xEF\xBB\xBF", 3),
        (b"\xEF\x80\x80", 1),
        (b"\xC3\xA9", 0),
        (b"1\xEF\xBB\xBF", 1),
    ];
    for (bytes, at) in table {
        refused(&rt, alloc, bytes, ReadRefusal::Syntax { at });
    }
    Ok(())
}

#[test]
fn places_in_characters(rt: HostRuntime) -> Result<(), Fail> {
    let alloc = rt.alloc();
    let table: [(&[u8], usize); 10] = [
        (b"\xFF", 0),
        (b"\"\xC0\x80\"", 1),
        (b"\"\xE2\x82", 3),
        (b"\"\xE2\x28", 2),
        (b"\"a\xC3\xA9\xE2\x82\"", 6),
        (b"\"\xED\xA0\x80\"", 2),
        (b"\"\xF4\x90\x80\x80\"", 2),
        (b"\xEF", 1),
        (b"\xEF\xBBx", 2),
        (b"\"\\uD83D\xFF", 7),
    ];
    for (bytes, at) in table {
        refused(&rt, alloc, bytes, ReadRefusal::NotUtf8 { at });
    }
    Ok(())
}

#[test]
fn depth(rt: HostRuntime) -> Result<(), Fail> {
    let alloc = rt.alloc();
    let mut text = Vec::new(alloc);
    for _ in 0..128 {
        text.push(b'[')?;
    }
    let at = 128;
    refused(&rt, alloc, text.as_slice(), ReadRefusal::Syntax { at });
    text.push(b'{')?;
    refused(&rt, alloc, text.as_slice(), ReadRefusal::TooDeep { at });
    text.truncate(128);
    text.extend_from_slice(b"1]x{")?;
    refused(&rt, alloc, text.as_slice(), ReadRefusal::Syntax { at: 130 });
    Ok(())
}

const WHOLE: &[u8] =
    b" {\"a\" : [null,true,false,-10,5.0e1, \"\\u00e9\\ud83d\\ude00\\\"\xC3\xA9\"],\n\"b\":{}}";

/// Each prefix of a text with everything in it is refused at its own length.
#[test]
fn prefixes(rt: HostRuntime) -> Result<(), Fail> {
    let alloc = rt.alloc();
    let cut = 58;
    for at in 0..WHOLE.len() {
        let expected = if at == cut {
            ReadRefusal::NotUtf8 { at }
        } else {
            ReadRefusal::Syntax { at }
        };
        refused(&rt, alloc, &WHOLE[..at], expected);
    }
    assert!(rt; read_tree(alloc, WHOLE).is_ok());
    Ok(())
}

// The text with another byte at this place.
fn with_byte(alloc: Global, at: usize, byte: u8) -> Result<Vec<u8>, Fail> {
    let mut text = WHOLE.to_vec(alloc)?;
    if let Some(place) = text.get_mut(at) {
        *place = byte;
    }
    Ok(text)
}

// Where the byte at this place may be another one, or only a later byte is then refused.
const OTHERS: [(usize, u8, Option<ReadRefusal>); 16] = [
    (58, 0x00, Some(ReadRefusal::NotUtf8 { at: 58 })),
    (58, 0x80, None),
    (2, b'}', Some(ReadRefusal::Syntax { at: 3 })),
    (3, b'}', None),
    (4, b'}', Some(ReadRefusal::Syntax { at: 37 })),
    (37, b'}', None),
    (43, b'}', Some(ReadRefusal::Syntax { at: 52 })),
    (55, b'}', Some(ReadRefusal::Syntax { at: 57 })),
    (57, b'}', Some(ReadRefusal::NotUtf8 { at: 58 })),
    (58, b'}', Some(ReadRefusal::NotUtf8 { at: 58 })),
    (59, b'}', Some(ReadRefusal::Syntax { at: 62 })),
    (61, b'}', Some(ReadRefusal::Syntax { at: 63 })),
    (64, b'}', None),
    (65, b'}', Some(ReadRefusal::Syntax { at: 70 })),
    (68, b'}', None),
    (69, b'}', None),
];

fn expected_with(at: usize, byte: u8) -> Option<ReadRefusal> {
    for (place, other, refusal) in OTHERS {
        if place == at && other == byte {
            return refusal;
        }
    }
    Some(match byte {
        0x80 | 0xFF => ReadRefusal::NotUtf8 { at },
        _ => ReadRefusal::Syntax { at },
    })
}

/// Each byte of that text is replaced: a byte that may not stand there is refused at its own place.
#[test]
fn replaced_bytes(rt: HostRuntime) -> Result<(), Fail> {
    let alloc = rt.alloc();
    for at in 0..WHOLE.len() {
        for byte in [0x00, 0x80, 0xFF, b'}'] {
            let text = with_byte(alloc, at, byte)?;
            let answer = read_tree(alloc, text.as_slice()).err();
            assert_eq!(rt; answer, expected_with(at, byte), "{at} {byte}");
        }
    }
    Ok(())
}
