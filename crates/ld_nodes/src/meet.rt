//! What the walk does with single things that it meets.
ghost use Rattle.std.specs.Prelude.{◌≡◌, ◌+◌, IfOk, OnOk, option_copied, unwrap_or};
ghost use Rattle.std.specs.BTreeMap.{insert_entry};
ghost use Rattle.std.specs.Ordering.{nat_cmp};
ghost use Rattle.ld_nodes.specs.Places.{place_of};
ghost use Rattle.ld_nodes.specs.Tables.{number_of, met};
ghost use Rattle.ld_nodes.specs.Walks.{walk_of, Gives, put, link, new_name, rename, give, give_to, give_where, number_given, identifier, identify, node_number, meet_node, graph_number, meet_graph, row_number, meet_row, add_index};

use crate::make::{blank_name, reference};
use crate::place::Place;
use crate::walk::Walker;
use ld_codes::Code;
use ld_iri::is_blank;
use ld_rec::Stop;
use ld_tree::{NoMemory, Text, Tree};
use std::alloc::Global;
use std::collections::BTreeMap;

/// The key's number, the next one where it is new.
fn meet<K: Ord + Drop>(table: &mut BTreeMap<K, usize>, key: K) -> Result<usize, NoMemory>
    ensures number { IfOk result (λ n. n ≡ number_of K.cmp table.old.entries key) }
    ensures table { OnOk result (table.new.entries ≡ met K.cmp table.old.entries key) }
{
    let number = match table.get(&key) {
        Some(number) => *number,
        None => table.len(),
    };
    table.insert(key, number)?;
    Ok(number)
}

fn next(given: u64) -> Result<u64, NoMemory>
    ensures { IfOk result (λ n. n ≡ given + 1) }
{
    given.checked_add(1).ok_or(NoMemory)
}

impl Walker {
    pub(crate) fn put(&mut self, place: Place<'_>, value: Tree) -> Result<(), NoMemory>
        ensures { OnOk result (walk_of self.new ≡ put (place_of place.entry) value (walk_of self.old)) }
    {
        match place {
            Place::Row(row) => Ok(self.values.push((row, value))?),
            Place::Hand => match self.hand.push(value) {
                Ok(()) => Ok(()),
                Err((_, e)) => Err(e),
            },
            Place::Nowhere => Ok(()),
            Place::ReverseMap(_) => Ok(()),
            Place::Reverse(_, _) => Ok(()),
        }
    }

    /// Links the node with the place where it stands.
    pub(crate) fn link(
        &mut self,
        alloc: Global,
        place: Place<'_>,
        id: &Text,
        node: usize,
    ) -> Result<(), NoMemory>
        ensures { OnOk result (walk_of self.new ≡ link (place_of place.entry) id.now node (walk_of self.old)) }
    {
        match place {
            Place::Reverse(subject, property) => {
                let row = self.meet_row(node, property.try_copy(alloc)?)?;
                self.put(Place::Row(row), reference(alloc, subject)?)
            }
            Place::Row(row) => self.put(Place::Row(row), reference(alloc, id)?),
            Place::Hand => self.put(Place::Hand, reference(alloc, id)?),
            Place::Nowhere => Ok(()),
            Place::ReverseMap(_) => Ok(()),
        }
    }

    fn give(&mut self, alloc: Global) -> Result<Text, NoMemory>
        ensures name { IfOk result (λ t. t ≡ identifier None (walk_of self.old)) }
        ensures walk { OnOk result (walk_of self.new ≡ give (walk_of self.old)) }
    {
        let name = blank_name(alloc, self.given)?;
        self.given = next(self.given)?;
        Ok(name)
    }

    fn give_to(&mut self, alloc: Global, name: &Text) -> Result<u64, NoMemory>
        ensures number { IfOk result (λ n. n ≡ self.old.given) }
        ensures walk { OnOk result (walk_of self.new ≡ give_to name.now (walk_of self.old)) }
    {
        let number = self.given;
        self.given = next(number)?;
        self.names.insert(name.try_copy(alloc)?, number)?;
        Ok(number)
    }

    fn number_given(&mut self, alloc: Global, name: &Text) -> Result<u64, NoMemory>
        ensures number { IfOk result (λ n. n ≡ unwrap_or (number_given name.now (walk_of self.old)) self.old.given) }
        ensures walk { OnOk result (walk_of self.new ≡ give_where (number_given name.now (walk_of self.old)) name.now (walk_of self.old)) }
    {
        match self.names.get(name) {
            Some(number) => Ok(*number),
            None => self.give_to(alloc, name),
        }
    }

    /// The new name of a blank node identifier; any other name as it is.
    pub(crate) fn rename(&mut self, alloc: Global, name: &Text) -> Result<Text, NoMemory>
        ensures name { IfOk result (λ t. t ≡ new_name name.now (walk_of self.old)) }
        ensures walk { OnOk result (walk_of self.new ≡ rename name.now (walk_of self.old)) }
    {
        if !is_blank(name.as_str()) {
            return name.try_copy(alloc);
        }
        let number = self.number_given(alloc, name)?;
        blank_name(alloc, number)
    }

    /// The identifier of a node that has this `@id`, or none.
    pub(crate) fn identify(&mut self, alloc: Global, id: Option<&Text>) -> Result<Text, NoMemory>
        ensures name { IfOk result (λ t. t ≡ identifier (option_copied id.entry) (walk_of self.old)) }
        ensures walk { OnOk result (walk_of self.new ≡ identify (option_copied id.entry) (walk_of self.old)) }
    {
        match id {
            None => self.give(alloc),
            Some(id) => self.rename(alloc, id),
        }
    }

    pub(crate) fn meet_node(&mut self, graph: usize, id: Text) -> Result<usize, NoMemory>
        ensures number { IfOk result (λ n. n ≡ node_number graph id (walk_of self.old)) }
        ensures walk { OnOk result (walk_of self.new ≡ meet_node graph id (walk_of self.old)) }
    {
        meet(&mut self.nodes, (graph, id))
    }

    pub(crate) fn meet_row(&mut self, node: usize, property: Text) -> Result<usize, NoMemory>
        ensures number { IfOk result (λ n. n ≡ row_number node property (walk_of self.old)) }
        ensures walk { OnOk result (walk_of self.new ≡ meet_row node property (walk_of self.old)) }
    {
        meet(&mut self.rows, (node, property))
    }

    /// The number of the graph by this name; the default graph has 0.
    pub(crate) fn meet_graph(&mut self, alloc: Global, id: &Text) -> Result<usize, NoMemory>
        ensures number { IfOk result (λ n. n ≡ graph_number id.now (walk_of self.old)) }
        ensures walk { OnOk result (walk_of self.new ≡ meet_graph id.now (walk_of self.old)) }
    {
        let number = meet(&mut self.graphs, id.try_copy(alloc)?)?;
        number.checked_add(1).ok_or(NoMemory)
    }

    fn set_index(&mut self, node: usize, index: Text) -> Result<(), NoMemory>
        ensures { OnOk result (walk_of self.new ≡ record (walk_of self.old) { indexes = insert_entry nat_cmp self.old.indexes.entries node index }) }
    {
        self.indexes.insert(node, index)?;
        Ok(())
    }

    /// The `@index` of a node. A node has at most one.
    pub(crate) fn add_index(
        &mut self,
        alloc: Global,
        node: usize,
        index: Option<&Text>,
    ) -> Result<(), Stop>
        ensures { Gives result (walk_of self.new) (add_index (option_copied index.entry) node (walk_of self.old)) }
    {
        let Some(index) = index else {
            return Ok(());
        };
        match self.indexes.get(&node) {
            Some(other) if other.as_str() == index.as_str() => Ok(()),
            Some(_) => Err(Stop::Code(Code::ConflictingIndexes)),
            None => {
                self.set_index(node, index.try_copy(alloc)?)?;
                Ok(())
            }
        }
    }
}
