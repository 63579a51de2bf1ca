use ld_tree::{Entries, Items, NameMap, NoMemory, Num, Text, Tree};
use std::alloc::Global;
use std::cmp::Ordering;
use std::test::Fail;

fn text(alloc: Global, s: &str) -> Result<Text, Fail> {
    Ok(Text::from_str(alloc, s)?)
}

fn one_entry(alloc: Global, name: &str, value: Tree) -> Result<Tree, Fail> {
    let mut entries = Entries::new(alloc);
    match entries.put(text(alloc, name)?, value) {
        Ok(_) => Ok(Tree::Map(entries)),
        Err((_, _, e)) => Err(Fail::from(e)),
    }
}

// `{"document":{"@id":"http://a.example/1","n":[1.1,[]]}}`
fn sample(alloc: Global) -> Result<Tree, Fail> {
    let mut items = Items::new(alloc);
    items.push(Tree::Num(Num::OneOne)).map_err(|e| e.1)?;
    items.push(Tree::List(Items::new(alloc))).map_err(|e| e.1)?;
    let mut inner = Entries::new(alloc);
    let id = Tree::Text(text(alloc, "http://a.example/1")?);
    inner
        .put(text(alloc, "n")?, Tree::List(items))
        .map_err(|e| e.2)?;
    inner.put(text(alloc, "@id")?, id).map_err(|e| e.2)?;
    one_entry(alloc, "document", Tree::Map(inner))
}

#[test]
fn names_stand_in_order(rt: HostRuntime) -> Result<(), Fail> {
    let alloc = rt.alloc();
    let mut entries = Entries::with_capacity(alloc, 5)?;
    for name in ["b", "a", "é", "", "ab", "b"] {
        let value = Tree::Text(text(alloc, name)?);
        entries.put(text(alloc, name)?, value).map_err(|e| e.2)?;
    }
    let want = ["", "a", "ab", "b", "é"];
    assert_eq!(rt; entries.as_slice().len(), want.len());
    for (entry, name) in entries.as_slice().iter().zip(want) {
        assert_eq!(rt; entry.0.as_str(), name);
    }
    for name in want {
        assert!(rt; entries.get(name).is_some(), "at {name}");
    }
    assert!(rt; entries.get("aa").is_none());
    Ok(())
}

#[test]
fn copies_and_compares(rt: HostRuntime) -> Result<(), Fail> {
    let alloc = rt.alloc();
    let tree = sample(alloc)?;
    let copy = tree.try_copy(alloc)?;
    assert!(rt; copy.is_same(&tree) && copy == tree);
    assert_eq!(rt; tree.depth(), 4);
    let other = one_entry(alloc, "document", Tree::Null)?;
    assert!(rt; !other.is_same(&tree));
    assert_eq!(rt; other.cmp(&tree), Ordering::Less);
    assert!(rt; tree.get("document").is_some() && tree.get("n").is_none());
    Ok(())
}

#[test]
fn a_map_is_built_in_any_order(rt: HostRuntime) {
    let alloc = rt.alloc();
    let mut map = NameMap::new(alloc);
    for (name, n) in [("b", 1), ("é", 2), ("a", 3), ("", 4), ("ab", 5), ("b", 6)] {
        let name = Text::from_str(alloc, name).expect(&rt, "memory");
        map.put(name, n).expect(&rt, "memory");
    }
    assert_eq!(rt; map.len(), 5);
    assert_eq!(rt; map.get("b").copied(), Some(6));
    assert_eq!(rt; map.replace("a", 7), Ok(3));
    assert_eq!(rt; map.replace("aa", 8), Err(8));
    assert_eq!(rt; map.take_out("ab"), Some(5));
    let entries = map.into_entries(alloc).expect(&rt, "memory");
    let again = NameMap::from_entries(alloc, entries).expect(&rt, "memory");
    let mut entries = again.into_entries(alloc).expect(&rt, "memory");
    assert_eq!(rt; entries.take_out("b"), Some(6));
    let want = [("", 4), ("a", 7), ("é", 2)];
    assert_eq!(rt; entries.as_slice().len(), want.len());
    for (entry, (name, n)) in entries.as_slice().iter().zip(want) {
        assert_eq!(rt; entry.0.as_str(), name);
        assert_eq!(rt; entry.1, n);
    }
}
