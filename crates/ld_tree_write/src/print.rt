ghost use Rattle.std.specs.Prelude.{◌≡◌, ◌<◌, ◌≤◌, ◌++◌, length, map, take, drop, slice_index, IsTrue, OnOk};
ghost use Rattle.ld_tree.specs.CompactText.{text, quoted, escaped, escape, needs_escape, hex_digit, number, with_commas, member_texts};

use itoa::Buffer;
use ld_tree::{Entries, Items, NoMemory, Num, Tree, plain_len};

/// Appends the compact text of the tree.
#[cycle(print)]
pub fn print_tree(tree: &Tree, out: &mut Vec<u8>) -> Result<(), NoMemory>
    ensures { OnOk result (out.new.items ≡ out.old.items ++ text tree.now) }
{
    match tree {
        Tree::Null => print_bytes(b"null", out),
        Tree::Bool(true) => print_bytes(b"true", out),
        Tree::Bool(false) => print_bytes(b"false", out),
        Tree::Num(n) => print_number(*n, out),
        Tree::Text(text) => print_text(text.as_str(), out),
        Tree::List(items) => {
            out.push(b'[')?;
            print_items(items, out)?;
            out.push(b']')?;
            Ok(())
        }
        Tree::Map(entries) => {
            out.push(b'{')?;
            print_members(entries, out)?;
            out.push(b'}')?;
            Ok(())
        }
    }
}

#[cycle(print)]
fn print_items(items: &Items<Tree>, out: &mut Vec<u8>) -> Result<(), NoMemory>
    ensures { OnOk result (out.new.items ≡ out.old.items ++ with_commas (map text items.now)) }
{
    let mut first = true;
    for item in items.as_slice() {
        if !first {
            out.push(b',')?;
        }
        print_tree(item, out)?;
        first = false;
    }
    Ok(())
}

#[cycle(print)]
fn print_members(entries: &Entries<Tree>, out: &mut Vec<u8>) -> Result<(), NoMemory>
    ensures { OnOk result (out.new.items ≡ out.old.items ++ with_commas (member_texts (map (λ e. (e.0, text e.1)) entries.now.0))) }
{
    let mut first = true;
    for (name, value) in entries.as_slice() {
        if !first {
            out.push(b',')?;
        }
        print_text(name.as_str(), out)?;
        out.push(b':')?;
        print_tree(value, out)?;
        first = false;
    }
    Ok(())
}

/// Appends the bytes as they are.
fn print_bytes(bytes: &[u8], out: &mut Vec<u8>) -> Result<(), NoMemory>
    ensures { OnOk result (out.new.items ≡ out.old.items ++ bytes.now) }
{
    out.extend_from_slice(bytes)?;
    Ok(())
}

fn print_number(n: Num, out: &mut Vec<u8>) -> Result<(), NoMemory>
    ensures { OnOk result (out.new.items ≡ out.old.items ++ number n) }
{
    match n {
        Num::Whole(whole) => {
            let mut buffer = Buffer::new();
            print_bytes(buffer.format(whole).as_bytes(), out)
        }
        Num::OneOne => print_bytes(b"1.1", out),
    }
}

/// Appends the text as a JSON string.
pub fn print_text(text: &str, out: &mut Vec<u8>) -> Result<(), NoMemory>
    ensures { OnOk result (out.new.items ≡ out.old.items ++ quoted text.now) }
{
    out.reserve(text.len())?;
    out.push(b'"')?;
    print_escaped(text.as_bytes(), out)?;
    out.push(b'"')?;
    Ok(())
}

// Runs of bytes that stand for themselves are copied whole.
fn print_escaped(bytes: &[u8], out: &mut Vec<u8>) -> Result<(), NoMemory>
    ensures { OnOk result (out.new.items ≡ out.old.items ++ escaped bytes.now) }
{
    let mut rest = bytes;
    while !rest.is_empty() {
        let (plain, others) = rest.split_at(plain_run(rest));
        print_bytes(plain, out)?;
        rest = match others.split_first() {
            None => return Ok(()),
            Some((byte, after)) => {
                print_escape(*byte, out)?;
                after
            }
        };
    }
    Ok(())
}

// The length of the run of plain bytes at the front.
fn plain_run(bytes: &[u8]) -> usize
    ensures within { result ≤ length bytes.now }
    ensures plain { escaped bytes.now ≡ take result bytes.now ++ escaped (drop result bytes.now) }
    ensures ended { result < length bytes.now → IsTrue (needs_escape (slice_index bytes.now result)) }
{
    plain_len(bytes)
}

fn print_escape(byte: u8, out: &mut Vec<u8>) -> Result<(), NoMemory>
    ensures { OnOk result (out.new.items ≡ out.old.items ++ escape byte) }
{
    match byte {
        b'"' => print_bytes(b"\\\"", out),
        b'\\' => print_bytes(b"\\\\", out),
        0x08 => print_bytes(b"\\b", out),
        b'\t' => print_bytes(b"\\t", out),
        b'\n' => print_bytes(b"\\n", out),
        0x0c => print_bytes(b"\\f", out),
        b'\r' => print_bytes(b"\\r", out),
        _ => print_bytes(
            &[b'\\', b'u', b'0', b'0', hex(byte / 16), hex(byte % 16)],
            out,
        ),
    }
}

fn hex(n: u8) -> u8
    requires { n < 16 }
    ensures { result ≡ hex_digit n }
{
    if n < 10 { b'0' + n } else { b'a' - 10 + n }
}
