//! The node map of a walk.
ghost use Rattle.std.specs.Prelude.{◌≡◌, List, [], IfOk, OnOk, map, replicate};
ghost use Rattle.ld_tree.specs.declared.tree.Tree.{Tree};
ghost use Rattle.std.specs.Map.{lookup};
ghost use Rattle.std.specs.BTreeMap.{is_at};
ghost use Rattle.std.specs.Ordering.{nat_cmp};
ghost use Rattle.ld_group.specs.Firsts.{firsts};
ghost use Rattle.ld_group.specs.Groups.{grouped};
ghost use Rattle.ld_group.specs.Shelves.{IsLeftOf};
ghost use Rattle.ld_nodes.specs.Walks.{walk_of};
ghost use Rattle.ld_nodes.specs.Maps.{Properties, property_of, node_of, node_map};

use crate::make::one_more;
use crate::node::Node;
use crate::walk::Walker;
use ld_group::{Shelf, entries_of, firsts, group};
use ld_tree::{Items, NoMemory, Text, Tree};
use std::alloc::Global;
use std::collections::BTreeMap;

type Row = ((usize, Text), usize);

fn take_property(lists: &mut Shelf<Tree>, row: Row) -> Result<(usize, (Text, Tree)), NoMemory>
    ensures property { (all : List (List Tree)) → IsLeftOf all lists.old.lists.items → IfOk result (λ p. p ≡ property_of all row) }
    ensures left { (all : List (List Tree)) → IsLeftOf all lists.old.lists.items → OnOk result (IsLeftOf all lists.new.lists.items) }
{
    let ((node, name), number) = row;
    let list = lists.take(number)?;
    Ok((node, (name, Tree::List(list))))
}

fn properties(
    alloc: Global,
    rows: Vec<Row>,
    lists: Vec<Items<Tree>>,
) -> Result<Vec<(usize, (Text, Tree))>, NoMemory>
    ensures { IfOk result (λ made. made.items ≡ map (property_of lists.items) rows.items) }
{
    let mut shelf = Shelf::new(alloc, lists)?;
    let mut made = Vec::new(alloc);
    for row in rows {
        made.push(take_property(&mut shelf, row)?)?;
    }
    Ok(made)
}

fn index_of(
    alloc: Global,
    indexes: &BTreeMap<usize, Text>,
    node: usize,
) -> Result<Option<Text>, NoMemory>
    ensures { IfOk result (λ index. index ≡ lookup (is_at (nat_cmp node)) indexes.now.entries) }
{
    match indexes.get(&node) {
        Some(index) => Ok(Some(index.try_copy(alloc)?)),
        None => Ok(None),
    }
}

fn take_node(
    alloc: Global,
    lists: &mut Shelf<(Text, Tree)>,
    indexes: &BTreeMap<usize, Text>,
    node: Row,
) -> Result<(usize, Node), NoMemory>
    ensures node { (all : List Properties) → IsLeftOf all lists.old.lists.items → IfOk result (λ n. n ≡ node_of all indexes.now.entries node) }
    ensures left { (all : List Properties) → IsLeftOf all lists.old.lists.items → OnOk result (IsLeftOf all lists.new.lists.items) }
{
    let ((graph, id), number) = node;
    let index = index_of(alloc, indexes, number)?;
    let properties = lists.take(number)?;
    Ok((
        graph,
        Node {
            id,
            index,
            properties,
        },
    ))
}

fn nodes_of(
    alloc: Global,
    nodes: Vec<Row>,
    lists: Vec<Items<(Text, Tree)>>,
    indexes: &BTreeMap<usize, Text>,
) -> Result<Vec<(usize, Node)>, NoMemory>
    ensures { IfOk result (λ made. made.items ≡ map (node_of lists.items indexes.now.entries) nodes.items) }
{
    let mut shelf = Shelf::new(alloc, lists)?;
    let mut made = Vec::new(alloc);
    for node in nodes {
        made.push(take_node(alloc, &mut shelf, indexes, node)?)?;
    }
    Ok(made)
}

fn row_lists(
    alloc: Global,
    count: usize,
    values: Vec<(usize, Tree)>,
) -> Result<Vec<Items<Tree>>, NoMemory>
    ensures { IfOk result (λ lists. lists.items ≡ grouped (replicate count []) (firsts values.items)) }
{
    let kept = firsts(alloc, values)?;
    group(alloc, count, kept)
}

fn node_lists(
    alloc: Global,
    count: usize,
    rows: BTreeMap<(usize, Text), usize>,
    lists: Vec<Items<Tree>>,
) -> Result<Vec<Items<(Text, Tree)>>, NoMemory>
    ensures { IfOk result (λ made. made.items ≡ grouped (replicate count []) (map (property_of lists.items) rows.entries)) }
{
    let made = properties(alloc, entries_of(alloc, rows)?, lists)?;
    group(alloc, count, made)
}

fn graph_lists(
    alloc: Global,
    count: usize,
    nodes: BTreeMap<(usize, Text), usize>,
    lists: Vec<Items<(Text, Tree)>>,
    indexes: &BTreeMap<usize, Text>,
) -> Result<Vec<Items<Node>>, NoMemory>
    ensures { IfOk result (λ made. made.items ≡ grouped (replicate count []) (map (node_of lists.items indexes.now.entries) nodes.entries)) }
{
    let made = nodes_of(alloc, entries_of(alloc, nodes)?, lists, indexes)?;
    group(alloc, count, made)
}

/// The nodes of each graph, by the number of the graph, and the numbers by name.
#[derive(Drop)]
pub(crate) struct NodeMap {
    pub(crate) graphs: Vec<Items<Node>>,
    pub(crate) names: BTreeMap<Text, usize>,
}

pub(crate) fn gather(alloc: Global, walker: Walker) -> Result<NodeMap, NoMemory>
    ensures graphs { IfOk result (λ map. map.graphs.items ≡ node_map (walk_of walker)) }
    ensures names { IfOk result (λ map. map.names.entries ≡ walker.graphs.entries) }
{
    let Walker {
        names: _,
        given: _,
        graphs: names,
        nodes,
        rows,
        indexes,
        values,
        hand: _,
    } = walker;
    let by_row = row_lists(alloc, rows.len(), values)?;
    let by_node = node_lists(alloc, nodes.len(), rows, by_row)?;
    let graphs = graph_lists(alloc, one_more(names.len())?, nodes, by_node, &indexes)?;
    Ok(NodeMap { graphs, names })
}
