ghost use Rattle.std.specs.Prelude.{◌≡◌, ◌≤◌, [], ◌∷◌, ◌++◌, IfOk, OnOk, codes, option_copied};
ghost use Rattle.std.specs.List.{list_all};
ghost use Rattle.ld_rec.specs.Outcome.{give};
ghost use Rattle.ld_rec.specs.Words.{is_among, opened};
ghost use Rattle.ld_tree.specs.declared.tree.Tree.{out-Tree};
ghost use Rattle.ld_rec.specs.Terms.{Made, typed_for_types, if_typed, with_containers, count_of, is_single, is_graph_map, is_with_set, is_container_mapping, container_names, containers_of, texts_of, container_texts, containers_named, containers_in};
ghost use Rattle.ld_term.specs.Comes.{Comes};

use crate::words::text_of;
use ld_codes::Code;
use ld_ctx::Names;
use ld_rec::{Containers, Def, Stop};
use ld_tree::{Items, NoMemory, Text, Tree};
use std::alloc::Global;

fn is_id_or_vocab(text: &Text) -> bool
    ensures { result ≡ is_among (codes "@id" ∷ codes "@vocab" ∷ []) text.now }
{
    let text = text.as_str();
    text == "@id" || text == "@vocab"
}

// Step 19.4: the type mapping under a container `@type`.
fn typed_for_types(alloc: Global, typed: &Option<Text>) -> Result<Option<Text>, NoMemory>
    ensures { IfOk result (λ t. t ≡ typed_for_types typed.now) }
{
    match typed {
        None => Ok(Some(Text::from_str(alloc, "@id")?)),
        Some(typed) => {
            if is_id_or_vocab(typed) {
                Ok(Some(typed.try_copy(alloc)?))
            } else {
                Ok(None)
            }
        }
    }
}

fn if_typed(typed: Option<Text>, def: Def) -> Result<Def, Stop>
    ensures { (made : Made) → Comes (λ d. give (record { def = d; made = made })) result (if_typed (record { def = def; made = made }) typed) }
{
    match typed {
        None => Err(Stop::Code(Code::InvalidTypeMapping)),
        Some(typed) => {
            let mut def = def;
            def.typed = Some(typed);
            Ok(def)
        }
    }
}

// Step 19.4.
fn with_containers(alloc: Global, containers: Containers, def: Def) -> Result<Def, Stop>
    ensures { (made : Made) → Comes (λ d. give (record { def = d; made = made })) result (with_containers containers (record { def = def; made = made })) }
{
    let mut def = def;
    def.containers = containers;
    if !containers.types {
        return Ok(def);
    }
    let typed = typed_for_types(alloc, &def.typed)?;
    if_typed(typed, def)
}

fn count_of(is_there: bool) -> u8
    ensures count { result ≡ count_of is_there }
    ensures few { result ≤ 1 }
{
    if is_there { 1 } else { 0 }
}

fn is_single(c: Containers) -> bool
    ensures { result ≡ is_single c }
{
    count_of(c.graph)
        + count_of(c.id)
        + count_of(c.index)
        + count_of(c.language)
        + count_of(c.list)
        + count_of(c.set)
        + count_of(c.types)
        == 1
}

fn is_graph_map(c: Containers) -> bool
    ensures { result ≡ is_graph_map c }
{
    c.graph && ((c.id && !c.index) || (c.index && !c.id)) && !(c.language || c.list || c.types)
}

fn is_with_set(c: Containers) -> bool
    ensures { result ≡ is_with_set c }
{
    c.set && !c.list && (c.graph || c.id || c.index || c.language || c.types)
}

// Step 19.1.
fn is_container_mapping(c: Containers) -> bool
    ensures { result ≡ is_container_mapping c }
{
    is_single(c) || is_graph_map(c) || is_with_set(c)
}

fn is_container_name(name: &Text) -> bool
    ensures { result ≡ is_among container_names name.now }
{
    let name = name.as_str();
    name == "@graph"
        || name == "@id"
        || name == "@index"
        || name == "@language"
        || name == "@list"
        || name == "@set"
        || name == "@type"
}

fn are_container_names(names: &Names) -> bool
    ensures { result ≡ list_all (is_among container_names) names.now }
{
    for name in names.as_slice() {
        if !is_container_name(name) {
            return false;
        }
    }
    true
}

fn is_among(names: &Names, name: &str) -> bool
    ensures { result ≡ is_among names.now name.now }
{
    for other in names.as_slice() {
        if name == other.as_str() {
            return true;
        }
    }
    false
}

fn containers_of(names: &Names) -> Containers
    ensures { result ≡ containers_of names.now }
{
    Containers {
        graph: is_among(names, "@graph"),
        id: is_among(names, "@id"),
        index: is_among(names, "@index"),
        language: is_among(names, "@language"),
        list: is_among(names, "@list"),
        set: is_among(names, "@set"),
        types: is_among(names, "@type"),
    }
}

fn push_name(names: &mut Names, name: Text) -> Result<(), NoMemory>
    ensures { OnOk result (names.new ≡ names.old ++ name ∷ []) }
{
    match names.push(name) {
        Ok(()) => Ok(()),
        Err((_, e)) => Err(e),
    }
}

// None where an item is no text.
fn texts_of(alloc: Global, items: &Items<Tree>) -> Result<Option<Names>, NoMemory>
    ensures { IfOk result (λ texts. texts ≡ texts_of items.now) }
{
    let mut texts = Items::new(alloc);
    for item in items.as_slice() {
        match text_of(item) {
            Some(text) => push_name(&mut texts, text.try_copy(alloc)?)?,
            None => return Ok(None),
        }
    }
    Ok(Some(texts))
}

fn one_name(alloc: Global, name: &Text) -> Result<Names, NoMemory>
    ensures { IfOk result (λ names. names ≡ name.now ∷ []) }
{
    let mut names = Items::new(alloc);
    push_name(&mut names, name.try_copy(alloc)?)?;
    Ok(names)
}

fn container_texts(alloc: Global, value: &Tree) -> Result<Option<Names>, NoMemory>
    ensures { IfOk result (λ texts. texts ≡ container_texts (out-Tree value.now)) }
{
    match value {
        Tree::Text(text) => Ok(Some(one_name(alloc, text)?)),
        Tree::List(items) => texts_of(alloc, items),
        _ => Ok(None),
    }
}

fn containers_named(alloc: Global, names: Option<Names>, def: Def) -> Result<Def, Stop>
    ensures { (made : Made) → Comes (λ d. give (record { def = d; made = made })) result (containers_named names (record { def = def; made = made })) }
{
    let Some(names) = names else {
        return Err(Stop::Code(Code::InvalidContainerMapping));
    };
    let containers = containers_of(&names);
    if are_container_names(&names) && is_container_mapping(containers) {
        with_containers(alloc, containers, def)
    } else {
        Err(Stop::Code(Code::InvalidContainerMapping))
    }
}

/// Step 19.
pub fn containers_in(alloc: Global, value: Option<&Tree>, def: Def) -> Result<Def, Stop>
    ensures { (made : Made) → Comes (λ d. give (record { def = d; made = made })) result (containers_in (opened (option_copied value.entry)) (record { def = def; made = made })) }
{
    match value {
        None => Ok(def),
        Some(value) => {
            let names = container_texts(alloc, value)?;
            containers_named(alloc, names, def)
        }
    }
}
