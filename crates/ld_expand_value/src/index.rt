ghost use Rattle.std.specs.Prelude.{◌≡◌, Ok, IfOk, OnOk, codes, option_copied, ◌∷◌, []};
ghost use Rattle.ld_rec.specs.Outcome.{Gives};
ghost use Rattle.ld_rec.specs.Kinds.{is_graph_object, text_tree as tree_of_text};
ghost use Rattle.ld_rec.specs.Records.{same_text};
ghost use Rattle.ld_rec.specs.Words.{names_are_among};
ghost use Rattle.ld_rec.specs.Values.{index_item, as_graph, graphed_item, keyed_item, with_key, put_absent, put_type, types_in};

use crate::making::{one_entry, put, replace, text_tree};
use ld_ctx::{Containers, Stop};
use ld_tree::{Entries, Items, NoMemory, Tree};
use std::alloc::Global;

/// Finishes an item that stands under a key of an index, id, type or graph map (JSON-LD 1.1 API, 5.1.2,
/// 13.8.3.7). `expanded` is the key's expansion: document relative with a container `@id` and no `@index`,
/// unless it is `@none` by vocabulary, and else by vocabulary. A key that is `@none` adds nothing.
pub fn index_item(
    alloc: Global,
    item: Tree,
    key: &str,
    expanded: Option<&str>,
    containers: &Containers,
) -> Result<Tree, Stop>
    ensures { Gives result (Ok (index_item containers.now key.now (option_copied expanded.entry) item)) }
{
    let item = graphed_item(alloc, item, containers)?;
    if is_none_key(expanded) {
        Ok(item)
    } else {
        Ok(keyed_item(alloc, item, key, expanded, containers)?)
    }
}

fn is_none_key(expanded: Option<&str>) -> bool
    ensures { result ≡ same_text (option_copied expanded.entry) (Some (codes "@none")) }
{
    match expanded {
        Some(iri) => iri == "@none",
        None => false,
    }
}

// 13.8.3.7.1
fn graphed_item(alloc: Global, item: Tree, containers: &Containers) -> Result<Tree, NoMemory>
    ensures { IfOk result (λ tree. tree ≡ graphed_item containers.now item) }
{
    if containers.graph && !is_graph_object(&item) {
        as_graph(alloc, item)
    } else {
        Ok(item)
    }
}

fn is_graph_object(item: &Tree) -> bool
    ensures { result ≡ is_graph_object item.now }
{
    match item {
        Tree::Map(entries) => entries.get("@graph").is_some() && are_graph_names(entries),
        _ => false,
    }
}

fn are_graph_names(entries: &Entries<Tree>) -> bool
    ensures { result ≡ names_are_among (codes "@graph" ∷ codes "@id" ∷ codes "@index" ∷ []) entries.now }
{
    for (name, _) in entries.as_slice() {
        if !matches!(name.as_str(), "@graph" | "@id" | "@index") {
            return false;
        }
    }
    true
}

/// The item as the one in a graph object (13.8.3.7.1).
pub fn as_graph(alloc: Global, item: Tree) -> Result<Tree, NoMemory>
    ensures { IfOk result (λ tree. tree ≡ as_graph item) }
{
    let mut items = Vec::with_capacity(alloc, 1)?;
    items.push(item)?;
    one_entry(alloc, "@graph", Tree::List(Items::from_vec(items)))
}

fn keyed_item(
    alloc: Global,
    item: Tree,
    key: &str,
    expanded: Option<&str>,
    containers: &Containers,
) -> Result<Tree, NoMemory>
    ensures { IfOk result (λ tree. tree ≡ keyed_item containers.now key.now (option_copied expanded.entry) item) }
{
    match item {
        Tree::Map(entries) => {
            let mut entries = entries;
            add_key(alloc, &mut entries, key, expanded, containers)?;
            Ok(Tree::Map(entries))
        }
        other => Ok(other),
    }
}

fn add_key(
    alloc: Global,
    entries: &mut Entries<Tree>,
    key: &str,
    expanded: Option<&str>,
    containers: &Containers,
) -> Result<(), NoMemory>
    ensures { OnOk result (entries.new ≡ with_key containers.now key.now (option_copied expanded.entry) entries.old) }
{
    if containers.index {
        put_absent(alloc, entries, "@index", Some(key))
    } else if containers.id {
        put_absent(alloc, entries, "@id", expanded)
    } else if containers.types {
        put_type(alloc, entries, expanded)
    } else {
        Ok(())
    }
}

// 13.8.3.7.3 and 13.8.3.7.4
fn put_absent(
    alloc: Global,
    entries: &mut Entries<Tree>,
    name: &str,
    text: Option<&str>,
) -> Result<(), NoMemory>
    ensures { OnOk result (entries.new ≡ put_absent name.now (option_copied text.entry) entries.old) }
{
    match text {
        Some(text) if entries.get(name).is_none() => {
            put(alloc, entries, name, text_tree(alloc, text)?)
        }
        _ => Ok(()),
    }
}

// 13.8.3.7.5. The former types are moved out of the map while their list is made.
fn put_type(alloc: Global, entries: &mut Entries<Tree>, first: Option<&str>) -> Result<(), NoMemory>
    ensures { OnOk result (entries.new ≡ put_type (option_copied first.entry) entries.old) }
{
    match first {
        Some(first) => {
            let former = replace(alloc, entries, "@type", Tree::Null)?;
            let types = types_behind(alloc, first, former)?;
            put(alloc, entries, "@type", Tree::List(Items::from_vec(types)))
        }
        None => Ok(()),
    }
}

fn types_behind(alloc: Global, first: &str, former: Option<Tree>) -> Result<Vec<Tree>, NoMemory>
    ensures { IfOk result (λ types. types.items ≡ tree_of_text first.now ∷ types_in former) }
{
    let mut types = Vec::new(alloc);
    types.push(text_tree(alloc, first)?)?;
    match former {
        Some(Tree::List(former)) => types.append(&mut former.into_vec())?,
        Some(former) => types.push(former)?,
        None => {}
    }
    Ok(types)
}
