//! Expanded documents of hostile kinds.
use ld_tree::{Entries, Items, NoMemory, Num, Text, Tree};
use std::alloc::Global;

#[derive(Clone, Copy)]
pub enum Kind {
    Values,
    Meetings,
    Types,
    Blanks,
    Long,
}

/// A document of the kind, with so many values.
pub fn document(alloc: Global, kind: Kind, count: u32) -> Result<Tree, NoMemory> {
    match kind {
        Kind::Values => node(alloc, "http://e/a", "http://e/p", values(alloc, count)?),
        Kind::Meetings => meetings(alloc, count),
        Kind::Types => node(alloc, "http://e/a", "@type", types(alloc, count)?),
        Kind::Blanks => blanks(alloc, count),
        Kind::Long => {
            let name = long_name(alloc)?;
            node(alloc, name.as_str(), name.as_str(), values(alloc, count)?)
        }
    }
}

fn put(entries: &mut Entries<Tree>, name: Text, value: Tree) -> Result<(), NoMemory> {
    match entries.put(name, value) {
        Ok(_) => Ok(()),
        Err((_, _, e)) => Err(e),
    }
}

// The numbers in no order.
fn value(alloc: Global, number: u32) -> Result<Tree, NoMemory> {
    let mut entries = Entries::new(alloc);
    let spread = i64::from(number ^ 0x5555);
    put(
        &mut entries,
        Text::from_str(alloc, "@value")?,
        Tree::Num(Num::Whole(spread)),
    )?;
    Ok(Tree::Map(entries))
}

fn values(alloc: Global, count: u32) -> Result<Items<Tree>, NoMemory> {
    let mut values = Vec::new(alloc);
    for number in 0..count {
        values.push(value(alloc, number)?)?;
    }
    Ok(Items::from_vec(values))
}

fn types(alloc: Global, count: u32) -> Result<Items<Tree>, NoMemory> {
    let mut types = Vec::new(alloc);
    for number in 0..count {
        let name = format!(in alloc; "http://e/{number}")?;
        types.push(Tree::Text(Text::from_string(name)))?;
    }
    Ok(Items::from_vec(types))
}

fn node(alloc: Global, id: &str, name: &str, values: Items<Tree>) -> Result<Tree, NoMemory> {
    let mut entries = Entries::new(alloc);
    let id = Tree::Text(Text::from_str(alloc, id)?);
    put(&mut entries, Text::from_str(alloc, "@id")?, id)?;
    put(
        &mut entries,
        Text::from_str(alloc, name)?,
        Tree::List(values),
    )?;
    Ok(Tree::Map(entries))
}

fn one_value(alloc: Global, number: u32) -> Result<Items<Tree>, NoMemory> {
    let mut values = Vec::new(alloc);
    values.push(value(alloc, number)?)?;
    Ok(Items::from_vec(values))
}

fn meetings(alloc: Global, count: u32) -> Result<Tree, NoMemory> {
    let mut nodes = Vec::new(alloc);
    for number in 0..count {
        let values = one_value(alloc, number)?;
        nodes.push(node(alloc, "http://e/a", "http://e/p", values)?)?;
    }
    Ok(Tree::List(Items::from_vec(nodes)))
}

fn blanks(alloc: Global, count: u32) -> Result<Tree, NoMemory> {
    let mut nodes = Vec::new(alloc);
    for number in 0..count {
        let mut entries = Entries::new(alloc);
        let values = Tree::List(one_value(alloc, number)?);
        put(&mut entries, Text::from_str(alloc, "http://e/p")?, values)?;
        nodes.push(Tree::Map(entries))?;
    }
    Ok(Tree::List(Items::from_vec(nodes)))
}

fn long_name(alloc: Global) -> Result<String, NoMemory> {
    let mut name = String::new(alloc);
    for _ in 0u32..64 {
        name.push_str("http://e/a/long/")?;
    }
    Ok(name)
}
