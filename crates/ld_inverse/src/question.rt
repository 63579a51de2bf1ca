ghost use Rattle.std.specs.Prelude.{◌≡◌, ◌++◌, ℕ, List, Option, Some, None, true, IfOk, OnOk, option_copied};
ghost use Rattle.ld_rec.specs.Records.{no_containers};
ghost use Rattle.ld_rec.specs.Wishes.{or_set, only_if, under_set, graph_containers, question, for_list, for_graph, for_value, for_node, for_shape, for_reverse, for_value_or_reverse, before_others, behind_others, is_reference_wish, is_of_any_kind, asked, text_at};
ghost use Rattle.ld_inverse.specs.Questions.{question_of, behind};

use crate::reading::{
    has, has_index, is_empty_list, is_graph_object, is_list_object, is_value_alone,
    is_value_object, items_of_list, text_at,
};
use crate::tags::list_wish;
use ld_ctx::Containers;
use ld_rec::Kind;
use ld_tree::{NoMemory, Tree};
use std::alloc::Global;

/// What IRI compaction asks of the inverse context (JSON-LD 1.1 API, 6.2.2, step 4).
#[derive(Debug, Drop)]
pub struct Question<'a> {
    pub containers: Vec<Containers>,
    pub kind: Kind,
    pub wish: &'a str,
}

fn no_containers() -> Containers
    ensures { result ≡ no_containers }
{
    Containers {
        graph: false,
        id: false,
        index: false,
        language: false,
        list: false,
        set: false,
        types: false,
    }
}

fn by_index() -> Containers
    ensures { result ≡ record no_containers { index = true } }
{
    Containers {
        index: true,
        ..no_containers()
    }
}

fn by_language() -> Containers
    ensures { result ≡ record no_containers { language = true } }
{
    Containers {
        language: true,
        ..no_containers()
    }
}

fn by_graph(index: bool, id: bool) -> Containers
    ensures { result ≡ record no_containers { graph = true; index = index; id = id } }
{
    Containers {
        graph: true,
        index,
        id,
        ..no_containers()
    }
}

// The mapping alone, and with `@set`.
fn push_or_set(made: &mut Vec<Containers>, containers: Containers) -> Result<(), NoMemory>
    ensures { OnOk result (made.new.items ≡ made.old.items ++ or_set containers) }
{
    made.push(containers)?;
    made.push(Containers {
        set: true,
        ..containers
    })?;
    Ok(())
}

fn push_only_if(
    made: &mut Vec<Containers>,
    condition: bool,
    containers: Containers,
) -> Result<(), NoMemory>
    ensures { OnOk result (made.new.items ≡ made.old.items ++ only_if condition (or_set containers)) }
{
    if condition {
        push_or_set(made, containers)
    } else {
        Ok(())
    }
}

fn push_set(made: &mut Vec<Containers>) -> Result<(), NoMemory>
    ensures { OnOk result (made.new.items ≡ made.old.items ++ under_set) }
{
    made.push(Containers {
        set: true,
        ..no_containers()
    })?;
    Ok(())
}

// 4.7
fn for_list<'a>(
    made: &mut Vec<Containers>,
    default: Option<&'a str>,
    value: &'a Tree,
) -> Result<(Kind, &'a str), NoMemory>
    ensures { IfOk result (λ w. question made.new.items w.0 w.1.now ≡ behind made.old.items (for_list (option_copied default.entry) value.now)) }
{
    let wish = list_wish(default, items_of_list(value));
    if !has_index(value) {
        made.push(Containers {
            list: true,
            ..no_containers()
        })?;
    }
    Ok(wish)
}

fn push_graph(made: &mut Vec<Containers>, index: bool, id: bool) -> Result<(), NoMemory>
    ensures { OnOk result (made.new.items ≡ made.old.items ++ graph_containers index id) }
{
    push_only_if(made, index, by_graph(true, false))?;
    push_only_if(made, id, by_graph(false, true))?;
    push_or_set(made, by_graph(false, false))?;
    push_set(made)?;
    push_only_if(made, !index, by_graph(true, false))?;
    push_only_if(made, !id, by_graph(false, true))?;
    push_or_set(made, by_index())
}

// 4.8
fn for_graph<'a>(
    made: &mut Vec<Containers>,
    index: bool,
    id: bool,
) -> Result<(Kind, &'a str), NoMemory>
    ensures { IfOk result (λ w. question made.new.items w.0 w.1.now ≡ behind made.old.items (for_graph index id)) }
{
    push_graph(made, index, id)?;
    Ok((Kind::Typed, "@id"))
}

// 4.9
fn for_value<'a>(
    made: &mut Vec<Containers>,
    index: bool,
    language: Option<&'a str>,
    typed: Option<&'a str>,
) -> Result<(Kind, &'a str), NoMemory>
    ensures { IfOk result (λ w. question made.new.items w.0 w.1.now ≡ behind made.old.items (for_value index (option_copied language.entry) (option_copied typed.entry))) }
{
    match (index, language, typed) {
        (false, Some(language), _) => {
            push_or_set(made, by_language())?;
            push_set(made)?;
            Ok((Kind::Tag, language))
        }
        (_, _, Some(typed)) => {
            push_set(made)?;
            Ok((Kind::Typed, typed))
        }
        (_, _, None) => {
            push_set(made)?;
            Ok((Kind::Tag, "@null"))
        }
    }
}

// 4.9.2
fn for_node<'a>(made: &mut Vec<Containers>) -> Result<(Kind, &'a str), NoMemory>
    ensures { IfOk result (λ w. question made.new.items w.0 w.1.now ≡ behind made.old.items for_node) }
{
    push_or_set(
        made,
        Containers {
            id: true,
            ..no_containers()
        },
    )?;
    push_or_set(
        made,
        Containers {
            types: true,
            ..no_containers()
        },
    )?;
    push_set(made)?;
    Ok((Kind::Typed, "@id"))
}

// 4.6
fn for_reverse<'a>(made: &mut Vec<Containers>) -> Result<(Kind, &'a str), NoMemory>
    ensures { IfOk result (λ w. question made.new.items w.0 w.1.now ≡ behind made.old.items for_reverse) }
{
    push_set(made)?;
    Ok((Kind::Typed, "@reverse"))
}

fn for_shape<'a>(
    made: &mut Vec<Containers>,
    default: Option<&'a str>,
    value: &'a Tree,
) -> Result<(Kind, &'a str), NoMemory>
    ensures { IfOk result (λ w. question made.new.items w.0 w.1.now ≡ behind made.old.items (for_shape (option_copied default.entry) value.now)) }
{
    if is_list_object(value) {
        for_list(made, default, value)
    } else if is_graph_object(value) {
        for_graph(made, has_index(value), has(value, "@id"))
    } else if is_value_object(value) {
        for_value(
            made,
            has_index(value),
            text_at(value, "@language"),
            text_at(value, "@type"),
        )
    } else {
        for_node(made)
    }
}

fn for_value_or_reverse<'a>(
    made: &mut Vec<Containers>,
    reverse: bool,
    default: Option<&'a str>,
    value: &'a Tree,
) -> Result<(Kind, &'a str), NoMemory>
    ensures { IfOk result (λ w. question made.new.items w.0 w.1.now ≡ behind made.old.items (for_value_or_reverse reverse (option_copied default.entry) value.now)) }
{
    if reverse {
        for_reverse(made)
    } else {
        for_shape(made, default, value)
    }
}

// 4.5
fn push_before(made: &mut Vec<Containers>, value: &Tree) -> Result<(), NoMemory>
    ensures { OnOk result (made.new.items ≡ made.old.items ++ before_others value.now) }
{
    let by_itself = has_index(value) && !is_graph_object(value);
    push_only_if(made, by_itself, by_index())
}

// 4.10 to 4.12
fn push_behind(made: &mut Vec<Containers>, value: &Tree) -> Result<(), NoMemory>
    ensures { OnOk result (made.new.items ≡ made.old.items ++ behind_others value.now) }
{
    made.push(no_containers())?;
    push_only_if(made, !has_index(value), by_index())?;
    push_only_if(made, is_value_alone(value), by_language())
}

/// Whether the wish asks what the IRI under `@id` compacts to (4.16).
pub fn is_reference_wish(wish: &str) -> bool
    ensures { result ≡ is_reference_wish wish.now }
{
    wish == "@id" || wish == "@reverse"
}

// 4.17
fn is_of_any_kind(wish: &str, value: &Tree) -> bool
    ensures { result ≡ is_of_any_kind wish.now value.now }
{
    is_empty_list(value) && !(is_reference_wish(wish) && text_at(value, "@id").is_some())
}

// The longest question, that for a graph object with `@index`, has 16 containers.
const ROOM: usize = 16;

fn asked_for<'a>(
    alloc: Global,
    reverse: bool,
    default: Option<&'a str>,
    value: &'a Tree,
) -> Result<Question<'a>, NoMemory>
    ensures { IfOk result (λ q. question_of q ≡ asked reverse (option_copied default.entry) (Some value.now)) }
{
    let mut containers = Vec::with_capacity(alloc, ROOM)?;
    push_before(&mut containers, value)?;
    let (kind, wish) = for_value_or_reverse(&mut containers, reverse, default, value)?;
    push_behind(&mut containers, value)?;
    let kind = if is_of_any_kind(wish, value) {
        Kind::Any
    } else {
        kind
    };
    Ok(Question {
        containers,
        kind,
        wish,
    })
}

fn asked_bare<'a>(alloc: Global, reverse: bool) -> Result<Question<'a>, NoMemory>
    ensures { (default : Option (List ℕ)) → IfOk result (λ q. question_of q ≡ asked reverse default None) }
{
    let mut containers = Vec::with_capacity(alloc, ROOM)?;
    let (kind, wish) = if reverse {
        for_reverse(&mut containers)?
    } else {
        for_node(&mut containers)?
    };
    containers.push(no_containers())?;
    push_or_set(&mut containers, by_index())?;
    Ok(Question {
        containers,
        kind,
        wish,
    })
}

/// What is asked for a value, or for none, under a default language.
pub fn asked<'a>(
    alloc: Global,
    reverse: bool,
    default: Option<&'a str>,
    value: Option<&'a Tree>,
) -> Result<Question<'a>, NoMemory>
    ensures { IfOk result (λ q. question_of q ≡ asked reverse (option_copied default.entry) (option_copied value.entry)) }
{
    match value {
        Some(value) => asked_for(alloc, reverse, default, value),
        None => asked_bare(alloc, reverse),
    }
}
