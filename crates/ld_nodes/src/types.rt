//! Types and their new names (JSON-LD 1.1 API, 7.2, steps 3 and 6.7).
ghost use Rattle.std.specs.Prelude.{◌≡◌, IfOk, OnOk, map, option_copied, codes};
ghost use Rattle.ld_rec.specs.Kinds.{map_of, entries_of};
ghost use Rattle.ld_tree.specs.Maps.{put as with_put};
ghost use Rattle.ld_nodes.specs.Walks.{walk_of, new_name, rename_text, rename_each, new_type, new_types, new_value, add_type, add_each_type, add_types};

use crate::make::{blank_name, into_entries, put_entry, text_of};
use crate::place::Place;
use crate::walk::Walker;
use ld_iri::is_blank;
use ld_tree::{Items, NoMemory, Text, Tree};
use std::alloc::Global;

impl Walker {
    fn rename_text(&mut self, alloc: Global, name: Option<&Text>) -> Result<(), NoMemory>
        ensures { OnOk result (walk_of self.new ≡ rename_text (option_copied name.entry) (walk_of self.old)) }
    {
        match name {
            None => Ok(()),
            Some(name) => {
                self.rename(alloc, name)?;
                Ok(())
            }
        }
    }

    /// The types of an element get their new names.
    pub(crate) fn rename_each(&mut self, alloc: Global, types: &[Tree]) -> Result<(), NoMemory>
        ensures { OnOk result (walk_of self.new ≡ rename_each types.now (walk_of self.old)) }
    {
        for name in types {
            self.rename_text(alloc, text_of(name))?;
        }
        Ok(())
    }

    fn new_name(&self, alloc: Global, name: &Text) -> Result<Text, NoMemory>
        ensures { IfOk result (λ t. t ≡ new_name name.now (walk_of self.now)) }
    {
        if !is_blank(name.as_str()) {
            return name.try_copy(alloc);
        }
        match self.names.get(name) {
            Some(number) => blank_name(alloc, *number),
            None => blank_name(alloc, self.given),
        }
    }

    fn new_type(&self, alloc: Global, name: &Tree) -> Result<Tree, NoMemory>
        ensures { IfOk result (λ t. t ≡ new_type (walk_of self.now) name.now) }
    {
        match text_of(name) {
            Some(text) => Ok(Tree::Text(self.new_name(alloc, text)?)),
            None => name.try_copy(alloc),
        }
    }

    fn each_new_type(&self, alloc: Global, types: &[Tree]) -> Result<Items<Tree>, NoMemory>
        ensures { IfOk result (λ made. made ≡ map (new_type (walk_of self.now)) types.now) }
    {
        let mut made = Vec::new(alloc);
        for name in types {
            made.push(self.new_type(alloc, name)?)?;
        }
        Ok(Items::from_vec(made))
    }

    fn new_types(&self, alloc: Global, types: &Tree) -> Result<Tree, NoMemory>
        ensures { IfOk result (λ t. t ≡ new_types types.now (walk_of self.now)) }
    {
        match types {
            Tree::List(items) => Ok(Tree::List(self.each_new_type(alloc, items.as_slice())?)),
            _ => self.new_type(alloc, types),
        }
    }

    /// A value object, its types by their new names.
    pub(crate) fn new_value(&self, alloc: Global, value: &Tree) -> Result<Tree, NoMemory>
        ensures { IfOk result (λ t. t ≡ new_value value.now (walk_of self.now)) }
    {
        let copy = value.try_copy(alloc)?;
        match value.get("@type") {
            None => Ok(copy),
            Some(types) => with_types(alloc, copy, self.new_types(alloc, types)?),
        }
    }

    fn add_type(&mut self, alloc: Global, row: usize, name: Option<&Text>) -> Result<(), NoMemory>
        ensures { OnOk result (walk_of self.new ≡ add_type row (option_copied name.entry) (walk_of self.old)) }
    {
        match name {
            None => Ok(()),
            Some(name) => {
                let renamed = self.rename(alloc, name)?;
                self.put(Place::Row(row), Tree::Text(renamed))
            }
        }
    }

    fn add_each_type(&mut self, alloc: Global, row: usize, types: &[Tree]) -> Result<(), NoMemory>
        ensures { OnOk result (walk_of self.new ≡ add_each_type row types.now (walk_of self.old)) }
    {
        for name in types {
            self.add_type(alloc, row, text_of(name))?;
        }
        Ok(())
    }

    /// The types of a node.
    pub(crate) fn add_types(
        &mut self,
        alloc: Global,
        node: usize,
        types: &[Tree],
    ) -> Result<(), NoMemory>
        ensures { OnOk result (walk_of self.new ≡ add_types node types.now (walk_of self.old)) }
    {
        if types.is_empty() {
            return Ok(());
        }
        let row = self.meet_row(node, Text::from_str(alloc, "@type")?)?;
        self.add_each_type(alloc, row, types)
    }
}

#[tactic(auto, using(crate::proofs::Made::map_made))]
fn with_types(alloc: Global, value: Tree, types: Tree) -> Result<Tree, NoMemory>
    ensures { IfOk result (λ t. t ≡ map_of (with_put (entries_of value) (codes "@type") types)) }
{
    let mut entries = into_entries(alloc, value);
    put_entry(&mut entries, Text::from_str(alloc, "@type")?, types)?;
    Ok(Tree::Map(entries))
}
