ghost use Rattle.std.specs.Prelude.{◌≡◌, option_copied, option_and_then};
ghost use Rattle.ld_rec.specs.Records.{def_of};
ghost use Rattle.ld_rec.specs.Places.{containers_of as containers_in, held_by as holder};

use ld_ctx::{Containers, Def, View};
use ld_rec::Way;

/// Where an element stands, and how it is taken (JSON-LD 1.1 API, 5.1.2, the algorithm's inputs).
#[derive(Drop)]
pub struct Place<'a, K> {
    /// The base URL of the document.
    pub base: Option<&'a str>,
    /// The active context.
    pub view: &'a K,
    /// The active property.
    pub property: Option<&'a str>,
    pub way: Way,
}

/// A map at hand, with its contexts: what the rules for its entries look at.
#[derive(Drop)]
pub struct Node<'a, K> {
    /// The base URL of the document.
    pub base: Option<&'a str>,
    /// The active context.
    pub view: &'a K,
    /// The type-scoped context.
    pub type_view: &'a K,
    /// The active property.
    pub property: Option<&'a str>,
    /// Whether the input type is `@json`.
    pub json: bool,
}

/// The definition of the property, where there is one.
pub fn property_def<'a, K: View>(view: &'a K, property: Option<&str>) -> Option<&'a Def>
    ensures { option_copied result ≡ option_and_then (def_of (K.flat view.now)) (option_copied property.entry) }
{
    match property {
        Some(name) => view.def(name),
        None => None,
    }
}

/// The container mapping of the definition: with none, no containers.
pub fn containers_of(def: Option<&Def>) -> Containers
    ensures { result ≡ containers_in (option_copied def.entry) }
{
    match def {
        Some(def) => def.containers,
        None => Containers {
            graph: false,
            id: false,
            index: false,
            language: false,
            list: false,
            set: false,
            types: false,
        },
    }
}

/// The active property, where it is neither absent nor `@graph`.
pub fn held_by<'a>(property: Option<&'a str>) -> Option<&'a str>
    ensures { option_copied result ≡ holder (option_copied property.entry) }
{
    match property {
        Some(name) => { if name == "@graph" { None } else { Some(name) } }
        None => None,
    }
}
