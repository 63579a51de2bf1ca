//! The walk over an expanded document (JSON-LD 1.1 API, 7.2).
ghost use Rattle.std.specs.Prelude.{◌≡◌, map, is_some, codes, bytes_eq, option_copied};
ghost use Rattle.ld_rec.specs.Kinds.{is_value_object};
ghost use Rattle.ld_tree.specs.formers.entries.Entries.{on_value};
ghost use Rattle.ld_nodes.specs.Places.{place_of, pass_of};
ghost use Rattle.ld_nodes.specs.Walks.{walk_of, Gives};
ghost use Rattle.ld_nodes.specs.Visits.{child_of, visited, visit_child, visit_each, visit_at, visit_object, visit_kind, visit_list, visit_node, visit_met, visit_content, visit_within, visit_graph, visit_entries, visit_entry, visit_property, visit_reverse_property, only, node_or_list};

use crate::make::{list_object, text_in, types_in};
use crate::place::{Pass, Place};
use crate::walk::Walker;
use ld_iri::is_keyword;
use ld_rec::Stop;
use ld_tree::{Entries, Items, Text, Tree};
use std::alloc::Global;
use std::mem;

impl Walker {
    #[cycle(visit)]
    #[tactic(auto, using(crate::proofs::Levels::visited_levels))]
    pub(crate) fn visit(
        &mut self,
        alloc: Global,
        element: &Tree,
        graph: usize,
        place: Place<'_>,
    ) -> Result<(), Stop>
        ensures { Gives result (walk_of self.new) (visited element.now graph (place_of place.entry) (walk_of self.old)) }
    {
        match element {
            Tree::List(items) => self.visit_each(alloc, items, graph, place),
            Tree::Map(entries) => self.visit_at(alloc, entries, element, graph, place),
            Tree::Null => Ok(()),
            Tree::Bool(_) => Ok(()),
            Tree::Num(_) => Ok(()),
            Tree::Text(_) => Ok(()),
        }
    }

    #[cycle(visit)]
    fn visit_each(
        &mut self,
        alloc: Global,
        items: &Items<Tree>,
        graph: usize,
        place: Place<'_>,
    ) -> Result<(), Stop>
        ensures { Gives result (walk_of self.new) (visit_each (map child_of items.now) graph (place_of place.entry) (walk_of self.old)) }
    {
        for item in items.as_slice() {
            self.visit(alloc, item, graph, place)?;
        }
        Ok(())
    }

    #[cycle(visit)]
    fn visit_at(
        &mut self,
        alloc: Global,
        entries: &Entries<Tree>,
        element: &Tree,
        graph: usize,
        place: Place<'_>,
    ) -> Result<(), Stop>
        ensures { Gives result (walk_of self.new) (visit_at (place_of place.entry) (map (on_value child_of) entries.now.0) element.now graph (walk_of self.old)) }
    {
        match place {
            Place::ReverseMap(subject) => {
                self.visit_entries(alloc, entries, Pass::ReverseProperties(graph, subject))
            }
            Place::Nowhere => self.visit_object(alloc, entries, element, graph, Place::Nowhere),
            Place::Row(row) => self.visit_object(alloc, entries, element, graph, Place::Row(row)),
            Place::Hand => self.visit_object(alloc, entries, element, graph, Place::Hand),
            Place::Reverse(subject, property) => self.visit_object(
                alloc,
                entries,
                element,
                graph,
                Place::Reverse(subject, property),
            ),
        }
    }

    #[cycle(visit)]
    fn visit_object(
        &mut self,
        alloc: Global,
        entries: &Entries<Tree>,
        element: &Tree,
        graph: usize,
        place: Place<'_>,
    ) -> Result<(), Stop>
        ensures { Gives result (walk_of self.new) (visit_object (map (on_value child_of) entries.now.0) element.now graph (place_of place.entry) (walk_of self.old)) }
    {
        self.rename_each(alloc, types_in(element.get("@type")))?;
        self.visit_kind(alloc, entries, element, graph, place)
    }

    #[cycle(visit)]
    fn visit_kind(
        &mut self,
        alloc: Global,
        entries: &Entries<Tree>,
        element: &Tree,
        graph: usize,
        place: Place<'_>,
    ) -> Result<(), Stop>
        ensures { Gives result (walk_of self.new) (visit_kind (is_value_object element.now) (map (on_value child_of) entries.now.0) element.now graph (place_of place.entry) (walk_of self.old)) }
    {
        if element.get("@value").is_some() {
            let value = self.new_value(alloc, element)?;
            return Ok(self.put(place, value)?);
        }
        if element.get("@list").is_some() {
            return self.visit_list(alloc, entries, graph, place);
        }
        self.visit_node(alloc, entries, element, graph, place)
    }

    #[cycle(visit)]
    fn visit_list(
        &mut self,
        alloc: Global,
        entries: &Entries<Tree>,
        graph: usize,
        place: Place<'_>,
    ) -> Result<(), Stop>
        ensures { Gives result (walk_of self.new) (visit_list (map (on_value child_of) entries.now.0) graph (place_of place.entry) (walk_of self.old)) }
    {
        let outer = mem::replace(&mut self.hand, Items::new(alloc));
        self.visit_entries(alloc, entries, Pass::List(graph))?;
        let items = mem::replace(&mut self.hand, outer);
        Ok(self.put(place, list_object(alloc, items)?)?)
    }

    #[cycle(visit)]
    fn visit_node(
        &mut self,
        alloc: Global,
        entries: &Entries<Tree>,
        element: &Tree,
        graph: usize,
        place: Place<'_>,
    ) -> Result<(), Stop>
        ensures { Gives result (walk_of self.new) (visit_node (map (on_value child_of) entries.now.0) element.now graph (place_of place.entry) (walk_of self.old)) }
    {
        let id = self.identify(alloc, text_in(element.get("@id")))?;
        self.visit_met(alloc, entries, element, graph, place, &id)
    }

    // The link comes before what the node has, which can add to the same property.
    #[cycle(visit)]
    fn visit_met(
        &mut self,
        alloc: Global,
        entries: &Entries<Tree>,
        element: &Tree,
        graph: usize,
        place: Place<'_>,
        id: &Text,
    ) -> Result<(), Stop>
        ensures { Gives result (walk_of self.new) (visit_met (map (on_value child_of) entries.now.0) element.now graph (place_of place.entry) id.now (walk_of self.old)) }
    {
        let node = self.meet_node(graph, id.try_copy(alloc)?)?;
        self.link(alloc, place, id, node)?;
        self.visit_content(alloc, entries, element, graph, id, node)
    }

    #[cycle(visit)]
    fn visit_content(
        &mut self,
        alloc: Global,
        entries: &Entries<Tree>,
        element: &Tree,
        graph: usize,
        id: &Text,
        node: usize,
    ) -> Result<(), Stop>
        ensures { Gives result (walk_of self.new) (visit_content (map (on_value child_of) entries.now.0) element.now graph id.now node (walk_of self.old)) }
    {
        self.add_types(alloc, node, types_in(element.get("@type")))?;
        self.add_index(alloc, node, text_in(element.get("@index")))?;
        self.visit_within(alloc, entries, element, graph, id, node)
    }

    #[cycle(visit)]
    fn visit_within(
        &mut self,
        alloc: Global,
        entries: &Entries<Tree>,
        element: &Tree,
        graph: usize,
        id: &Text,
        node: usize,
    ) -> Result<(), Stop>
        ensures { Gives result (walk_of self.new) (visit_within (map (on_value child_of) entries.now.0) element.now graph id.now node (walk_of self.old)) }
    {
        self.visit_entries(alloc, entries, Pass::Reverse(graph, id))?;
        self.visit_graph(alloc, entries, element.get("@graph"), id)?;
        self.visit_entries(alloc, entries, Pass::Included(graph))?;
        self.visit_entries(alloc, entries, Pass::Properties(graph, node))
    }

    #[cycle(visit)]
    fn visit_graph(
        &mut self,
        alloc: Global,
        entries: &Entries<Tree>,
        inner: Option<&Tree>,
        id: &Text,
    ) -> Result<(), Stop>
        ensures { Gives result (walk_of self.new) (visit_graph (option_copied inner.entry) (map (on_value child_of) entries.now.0) id.now (walk_of self.old)) }
    {
        if inner.is_none() {
            return Ok(());
        }
        let graph = self.meet_graph(alloc, id)?;
        self.meet_node(0, id.try_copy(alloc)?)?;
        self.visit_entries(alloc, entries, Pass::Graph(graph))
    }

    #[cycle(visit)]
    fn visit_entries(
        &mut self,
        alloc: Global,
        entries: &Entries<Tree>,
        pass: Pass<'_>,
    ) -> Result<(), Stop>
        ensures { Gives result (walk_of self.new) (visit_entries (pass_of pass.entry) (map (on_value child_of) entries.now.0) (walk_of self.old)) }
    {
        for (name, value) in entries.as_slice() {
            self.visit_entry(alloc, name, value, pass)?;
        }
        Ok(())
    }

    #[cycle(visit)]
    fn visit_entry(
        &mut self,
        alloc: Global,
        name: &Text,
        value: &Tree,
        pass: Pass<'_>,
    ) -> Result<(), Stop>
        ensures { Gives result (walk_of self.new) (visit_entry (pass_of pass.entry) (name.now, child_of value.now) (walk_of self.old)) }
    {
        match pass {
            Pass::List(graph) if name.as_str() == "@list" => {
                self.visit(alloc, value, graph, Place::Hand)
            }
            Pass::Reverse(graph, id) if name.as_str() == "@reverse" => {
                self.visit(alloc, value, graph, Place::ReverseMap(id))
            }
            Pass::ReverseProperties(graph, subject) => {
                self.visit_reverse_property(alloc, name, value, graph, subject)
            }
            Pass::Graph(graph) if name.as_str() == "@graph" => {
                self.visit(alloc, value, graph, Place::Nowhere)
            }
            Pass::Included(graph) if name.as_str() == "@included" => {
                self.visit(alloc, value, graph, Place::Nowhere)
            }
            Pass::Properties(graph, node) if !is_keyword(name.as_str()) => {
                self.visit_property(alloc, name, value, graph, node)
            }
            _ => Ok(()),
        }
    }

    #[cycle(visit)]
    fn visit_reverse_property(
        &mut self,
        alloc: Global,
        property: &Text,
        value: &Tree,
        graph: usize,
        subject: &Text,
    ) -> Result<(), Stop>
        ensures { Gives result (walk_of self.new) (visit_reverse_property graph subject.now property.now (child_of value.now) (walk_of self.old)) }
    {
        let name = self.rename(alloc, property)?;
        self.visit(alloc, value, graph, Place::Reverse(subject, &name))
    }

    #[cycle(visit)]
    fn visit_property(
        &mut self,
        alloc: Global,
        property: &Text,
        value: &Tree,
        graph: usize,
        node: usize,
    ) -> Result<(), Stop>
        ensures { Gives result (walk_of self.new) (visit_property graph node property.now (child_of value.now) (walk_of self.old)) }
    {
        let name = self.rename(alloc, property)?;
        let row = self.meet_row(node, name)?;
        self.visit(alloc, value, graph, Place::Row(row))
    }
}
