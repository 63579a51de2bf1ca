use ld_tree::{Items, Num, Text, Tree};
use ld_tree_read::read_tree;
use ld_tree_write::{write_text, write_tree};
use std::alloc::Global;
use std::process::Abort;
use std::test::Fail;

/// Asserts that what the bytes read as is printed as this text, behind what was there.
fn prints(rt: &impl Abort, alloc: Global, bytes: &[u8], expected: &[u8]) -> Result<(), Fail> {
    let tree = read_tree(alloc, bytes)?;
    let mut out = b"x".to_vec(alloc)?;
    write_tree(&tree, &mut out)?;
    assert_eq!(rt; &out.as_slice()[..1], b"x" as &[u8]);
    assert_eq!(rt; &out.as_slice()[1..], expected);
    Ok(())
}

#[test]
fn texts(rt: HostRuntime) -> Result<(), Fail> {
    let alloc = rt.alloc();
    let text = "\u{8}\u{1f}\"\u{e9}";
    let mut out = Vec::new(alloc);
    write_tree(&Tree::Text(Text::from_str(alloc, text)?), &mut out)?;
    assert_eq!(rt; out.as_slice(), "\"\\b\\u001f\\\"\u{e9}\"".as_bytes());
    let again = read_tree(alloc, out.as_slice())?;
    assert_eq!(rt; again, Tree::Text(Text::from_str(alloc, text)?));
    out.clear();
    write_text("a/\\\u{7f}\n", &mut out)?;
    assert_eq!(rt; out.as_slice(), "\"a/\\\\\u{7f}\\n\"".as_bytes());
    Ok(())
}

#[test]
fn trees(rt: HostRuntime) -> Result<(), Fail> {
    let alloc = rt.alloc();
    prints(
        &rt,
        alloc,
        b" { \"b\" : [ ] , \"a\" : [ 1.10 , -0 , null , true , false , { } ] } ",
        b"{\"a\":[1.1,0,null,true,false,{}],\"b\":[]}",
    )?;
    prints(&rt, alloc, b"-9223372036854775808", b"-9223372036854775808")?;
    let mut out = Vec::new(alloc);
    write_tree(&Tree::List(Items::new(alloc)), &mut out)?;
    write_tree(&Tree::Num(Num::OneOne), &mut out)?;
    assert_eq!(rt; out.as_slice(), b"[]1.1" as &[u8]);
    Ok(())
}
