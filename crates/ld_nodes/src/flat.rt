//! Flattening (JSON-LD 1.1 API, 7.1).
ghost use Rattle.std.specs.Prelude.{◌≡◌, ◌++◌, List, IfOk, OnOk};
ghost use Rattle.std.specs.List.{cons_option};
ghost use Rattle.std.specs.Map.{lookup};
ghost use Rattle.std.specs.BTreeMap.{is_at};
ghost use Rattle.ld_tree.specs.Names.{name_cmp};
ghost use Rattle.ld_group.specs.Shelves.{IsLeftOf};
ghost use Rattle.ld_tree.specs.declared.tree.Tree.{Tree};
ghost use Rattle.ld_nodes.specs.declared.node.Node.{Node};
ghost use Rattle.ld_nodes.specs.Flat.{put_each, put_graph, put_index, object_entries, is_bare, node_object, objects, graph_of, flattened, Flattens};
ghost use Rattle.ld_nodes.specs.Numbers.{graph_at, flat_object, flat_objects};

use crate::gathering::{NodeMap, gather};
use crate::make::{no_entries, one_more, put_entry};
use crate::node::Node;
use crate::place::Place;
use crate::walk::Walker;
use ld_group::Shelf;
use ld_rec::Stop;
use ld_tree::{Entries, Items, NoMemory, Text, Tree};
use std::alloc::Global;
use std::collections::BTreeMap;

fn put_each(entries: &mut Entries<Tree>, properties: Vec<(Text, Tree)>) -> Result<(), NoMemory>
    ensures { OnOk result (entries.new ≡ put_each entries.old properties.items) }
{
    for (name, value) in properties {
        put_entry(entries, name, value)?;
    }
    Ok(())
}

fn put_graph(
    alloc: Global,
    entries: &mut Entries<Tree>,
    graph: Option<Items<Tree>>,
) -> Result<(), NoMemory>
    ensures { OnOk result (entries.new ≡ put_graph entries.old graph) }
{
    match graph {
        None => Ok(()),
        Some(objects) => put_entry(
            entries,
            Text::from_str(alloc, "@graph")?,
            Tree::List(objects),
        ),
    }
}

fn put_index(
    alloc: Global,
    entries: &mut Entries<Tree>,
    index: Option<Text>,
) -> Result<(), NoMemory>
    ensures { OnOk result (entries.new ≡ put_index entries.old index) }
{
    match index {
        None => Ok(()),
        Some(index) => put_entry(entries, Text::from_str(alloc, "@index")?, Tree::Text(index)),
    }
}

fn object_entries(
    alloc: Global,
    graph: Option<Items<Tree>>,
    node: Node,
) -> Result<Entries<Tree>, NoMemory>
    ensures { IfOk result (λ entries. entries ≡ object_entries graph node) }
{
    let Node {
        id,
        index,
        properties,
    } = node;
    let mut entries = no_entries(alloc);
    put_graph(alloc, &mut entries, graph)?;
    put_entry(&mut entries, Text::from_str(alloc, "@id")?, Tree::Text(id))?;
    put_index(alloc, &mut entries, index)?;
    put_each(&mut entries, properties.into_vec())?;
    Ok(entries)
}

fn is_bare(graph: &Option<Items<Tree>>, node: &Node) -> bool
    ensures { result ≡ is_bare graph.now node.now }
{
    graph.is_none() && node.index.is_none() && node.properties.as_slice().is_empty()
}

fn node_object(
    alloc: Global,
    graph: Option<Items<Tree>>,
    node: Node,
) -> Result<Option<Tree>, NoMemory>
    ensures { IfOk result (λ object. object ≡ node_object graph node) }
{
    if is_bare(&graph, &node) {
        return Ok(None);
    }
    Ok(Some(Tree::Map(object_entries(alloc, graph, node)?)))
}

fn add_object(made: &mut Vec<Tree>, object: Option<Tree>) -> Result<(), NoMemory>
    ensures { (rest : List Tree) → OnOk result (made.new.items ++ rest ≡ made.old.items ++ cons_option object rest) }
{
    match object {
        None => Ok(()),
        Some(object) => Ok(made.push(object)?),
    }
}

fn objects(alloc: Global, nodes: Vec<Node>) -> Result<Items<Tree>, NoMemory>
    ensures { IfOk result (λ made. made ≡ objects nodes.items) }
{
    let mut made = Vec::new(alloc);
    for node in nodes {
        let object = node_object(alloc, None, node)?;
        add_object(&mut made, object)?;
    }
    Ok(Items::from_vec(made))
}

fn graph_of(alloc: Global, nodes: Items<Node>) -> Result<Option<Items<Tree>>, NoMemory>
    ensures { IfOk result (λ graph. graph ≡ graph_of nodes) }
{
    if nodes.as_slice().is_empty() {
        return Ok(None);
    }
    Ok(Some(objects(alloc, nodes.into_vec())?))
}

fn take_graph(
    alloc: Global,
    graphs: &mut Shelf<Node>,
    number: Option<usize>,
) -> Result<Option<Items<Tree>>, NoMemory>
    ensures graph { (all : List (List Node)) → IsLeftOf all graphs.old.lists.items → IfOk result (λ graph. graph ≡ graph_at all number) }
    ensures left { (all : List (List Node)) → IsLeftOf all graphs.old.lists.items → OnOk result (IsLeftOf all graphs.new.lists.items) }
{
    let Some(number) = number else {
        return Ok(None);
    };
    let nodes = graphs.take(one_more(number)?)?;
    graph_of(alloc, nodes)
}

fn number_of(names: &BTreeMap<Text, usize>, name: &Text) -> Option<usize>
    ensures { result ≡ lookup (is_at (name_cmp name.now)) names.now.entries }
{
    names.get(name).copied()
}

fn flat_object(
    alloc: Global,
    graphs: &mut Shelf<Node>,
    names: &BTreeMap<Text, usize>,
    node: Node,
) -> Result<Option<Tree>, NoMemory>
    ensures object { (all : List (List Node)) → IsLeftOf all graphs.old.lists.items → IfOk result (λ object. object ≡ flat_object all names.now.entries node) }
    ensures left { (all : List (List Node)) → IsLeftOf all graphs.old.lists.items → OnOk result (IsLeftOf all graphs.new.lists.items) }
{
    let graph = take_graph(alloc, graphs, number_of(names, &node.id))?;
    node_object(alloc, graph, node)
}

fn flat_objects(alloc: Global, map: NodeMap) -> Result<Items<Tree>, NoMemory>
    ensures { IfOk result (λ made. made ≡ flat_objects map.graphs.items map.names.entries) }
{
    let NodeMap { graphs, names } = map;
    let mut graphs = Shelf::new(alloc, graphs)?;
    let nodes = graphs.take(0)?;
    let mut made = Vec::new(alloc);
    for node in nodes.into_vec() {
        let object = flat_object(alloc, &mut graphs, &names, node)?;
        add_object(&mut made, object)?;
    }
    Ok(Items::from_vec(made))
}

/// The flattened form of an expanded document (JSON-LD 1.1 API, 7.1, 7.2 and 9.3 `flatten`): always a list of node
/// objects, in the order of their identifiers. The one code is `conflicting indexes`, where two `@index` of a node
/// differ. It is defined for any tree, so that none needs to be in expanded form. The time is n log n in the
/// document. Where memory is wanting there is no answer.
pub fn flatten(alloc: Global, expanded: &Tree) -> Result<Tree, Stop>
    ensures { Flattens result (flattened expanded.now) }
{
    let mut walker = Walker::new(alloc);
    walker.visit(alloc, expanded, 0, Place::Nowhere)?;
    let map = gather(alloc, walker)?;
    Ok(Tree::List(flat_objects(alloc, map)?))
}
