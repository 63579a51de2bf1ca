use crate::locals::{fresh, mapping, rest};
use ld_codes::Code;
use ld_rec::Stop;
use ld_term::{Defined, Next, define};
use ld_tree::{Entries, NameMap, Text, Tree};
use std::alloc::Global;
use std::process::Abort;

const LENGTH: u32 = 50_000;

fn put(rt: &impl Abort, alloc: Global, names: &mut NameMap<Tree>, place: u32, value: &str) {
    let name = format!(in alloc; "t{place}").expect(rt, "memory");
    let value = Tree::Text(Text::from_str(alloc, value).expect(rt, "memory"));
    if names.put(Text::from_string(name), value).is_err() {
        rt.panic("memory");
    }
}

/// Terms that each name the one before as their prefix, behind a first one.
fn chain(rt: &impl Abort, alloc: Global, first: &str) -> Entries<Tree> {
    let mut names = NameMap::new(alloc);
    put(rt, alloc, &mut names, 0, first);
    for place in 1..LENGTH {
        let before = place - 1;
        let value = format!(in alloc; "t{before}:x").expect(rt, "memory");
        put(rt, alloc, &mut names, place, value.as_str());
    }
    match names.into_entries(alloc) {
        Ok(entries) => entries,
        Err(_) => rt.panic("memory"),
    }
}

#[test]
fn a_long_chain_of_prefixes_takes_no_call_stack(rt: HostRuntime) {
    let alloc = rt.alloc();
    let local = chain(&rt, alloc, "http://e/");
    let mut made = fresh(&rt, alloc);
    let mut defined = Defined::new(alloc);
    match define(
        alloc,
        &mut made,
        &local,
        "t49999",
        &mut defined,
        &rest(alloc),
    ) {
        Ok(Next::Done) => {}
        _ => rt.panic("a defined term"),
    }
    assert!(rt; mapping(&rt, &made, "t1") == "http://e/x");
    // its mapping doesn't end in a delimiter, so the second term is no prefix of the third one's mapping
    assert!(rt; mapping(&rt, &made, "t2") == "t1:x");
    assert!(rt; mapping(&rt, &made, "t49999") == "t49998:x");
}

#[test]
fn a_long_cycle_of_prefixes_ends_with_its_code(rt: HostRuntime) {
    let alloc = rt.alloc();
    let local = chain(&rt, alloc, "t49999:x");
    let mut made = fresh(&rt, alloc);
    let mut defined = Defined::new(alloc);
    match define(
        alloc,
        &mut made,
        &local,
        "t49999",
        &mut defined,
        &rest(alloc),
    ) {
        Err(Stop::Code(code)) => assert!(rt; code == Code::CyclicIriMapping),
        _ => rt.panic("a code"),
    }
}
