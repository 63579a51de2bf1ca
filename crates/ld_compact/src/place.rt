//! Where an element stands, and properties of the result.
ghost use Rattle.std.specs.Prelude.{◌≡◌, ◌∷◌, [], ◌||◌, option_copied, codes, Some};
ghost use Rattle.ld_rec.specs.Promises.{KeepsContext};
ghost use Rattle.ld_rec.specs.Records.{def_of as definition_of};
ghost use Rattle.ld_rec.specs.Places.{containers_of as containers_in};
ghost use Rattle.ld_compact.specs.Elements.{def_at};
ghost use Rattle.ld_compact.specs.Compaction.{is_in_reverse as has_reverse, wants_list as wants, property_of as property_in};
ghost use Rattle.ld_compact.specs.Standing.{Stands, MayStand, view_of, IsDefKept};
ghost use Rattle.ld_compact.specs.Steps.{named};

use ld_ctx::{Containers, Def, View};
use ld_inverse::Inverse;
use std::sync::Arc;

/// Where an element stands (JSON-LD 1.1 API, 6.1.2, the algorithm's inputs). The inverses are made once for a
/// context, and held beside it.
#[derive(Drop)]
pub struct Place<'a, K> {
    /// The active context.
    pub view: &'a K,
    /// Its inverse.
    pub inverse: &'a Inverse,
    /// The inverses of its previous contexts, the nearest first.
    pub behind: &'a [Arc<Inverse>],
    /// The active property.
    pub property: Option<&'a str>,
    /// Whether an array of one item becomes that item.
    pub arrays: bool,
}

/// A context that was made, with its inverse and those of its previous contexts.
#[derive(Drop)]
pub struct Made<K> {
    pub kept: K,
    pub inverse: Arc<Inverse>,
    pub behind: Vec<Arc<Inverse>>,
}

/// A property of the result: its name, its containers, and whether it holds an array in any case.
#[derive(Drop)]
pub struct Property<'a> {
    pub name: &'a str,
    pub containers: Containers,
    pub as_list: bool,
}

/// The place in the context that was made, or else the place itself.
pub fn active<'a, K: View>(made: &'a Option<Made<K>>, place: &Place<'a, K>) -> Place<'a, K>
    requires stands { Stands K.flat place.now }
    requires made { MayStand K.flat made.now }
    ensures view { result.view.now ≡ view_of made.now place.now.view.now }
    ensures stands { Stands K.flat result }
    ensures property { option_copied result.property ≡ option_copied place.now.property }
    ensures arrays { result.arrays ≡ place.now.arrays }
{
    match made {
        Some(made) => Place {
            view: &made.kept,
            inverse: &*made.inverse,
            behind: made.behind.as_slice(),
            property: place.property,
            arrays: place.arrays,
        },
        None => under(place, place.property),
    }
}

/// The place under another property.
pub fn under<'a, K: View>(place: &Place<'a, K>, property: Option<&'a str>) -> Place<'a, K>
    requires { Stands K.flat place.now }
    ensures view { result.view.now ≡ place.now.view.now }
    ensures stands { Stands K.flat result }
    ensures property { option_copied result.property ≡ option_copied property.entry }
    ensures arrays { result.arrays ≡ place.now.arrays }
{
    Place {
        view: place.view,
        inverse: place.inverse,
        behind: place.behind,
        property,
        arrays: place.arrays,
    }
}

/// The definition of the term.
pub fn def_of<'a, K: View>(view: &'a K, term: &str) -> Option<&'a Def>
    requires { KeepsContext (K.flat view.now) }
    ensures value { option_copied result ≡ definition_of (K.flat view.now) term.now }
    ensures keeps { IsDefKept (option_copied result) }
{
    view.def(term)
}

/// The definition of the active property, where there is one.
pub fn property_def<'a, K: View>(view: &'a K, property: Option<&str>) -> Option<&'a Def>
    requires { KeepsContext (K.flat view.now) }
    ensures value { option_copied result ≡ def_at (K.flat view.now) (option_copied property.entry) }
    ensures keeps { IsDefKept (option_copied result) }
{
    match property {
        Some(name) => def_of(view, name),
        None => None,
    }
}

/// The container mapping of the definition: with none, no containers.
pub fn containers_of(def: Option<&Def>) -> Containers
    ensures { result ≡ containers_in (option_copied def.entry) }
{
    match def {
        Some(def) => def.containers,
        None => Containers {
            graph: false,
            id: false,
            index: false,
            language: false,
            list: false,
            set: false,
            types: false,
        },
    }
}

/// The containers of the active property.
pub fn containers_at<K: View>(place: &Place<'_, K>) -> Containers
    ensures { result ≡ containers_in (def_at (K.flat place.now.view.now) (option_copied place.now.property)) }
{
    match place.property {
        Some(name) => containers_of(place.view.def(name)),
        None => containers_of(None),
    }
}

/// Whether the active property is `@reverse`.
pub fn is_in_reverse(property: Option<&str>) -> bool
    ensures { result ≡ has_reverse (option_copied property.entry) }
{
    match property {
        Some(name) => name == "@reverse",
        None => false,
    }
}

/// Whether a name with these containers holds an array in any case.
pub fn wants_list(arrays: bool, containers: &Containers) -> bool
    ensures { result ≡ wants arrays containers.now }
{
    containers.set || !arrays
}

/// The property of that name, for a value of the expanded one.
pub fn property_of<'a, K: View>(place: &Place<'_, K>, expanded: &str, name: &'a str) -> Property<'a>
    ensures { named result ≡ property_in place.now.arrays (K.flat place.now.view.now) expanded.now name.now }
{
    let containers = containers_of(place.view.def(name));
    let as_list = expanded == "@graph"
        || expanded == "@list"
        || wants_list(place.arrays, &containers);
    Property {
        name,
        containers,
        as_list,
    }
}
