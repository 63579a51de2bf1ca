/// How expansion takes an element: as it is; as the value of an entry of an index, id, type or graph map (from
/// map: JSON-LD 1.1 API, 5.1.2); or as such a map itself, whose values come from it.
#[derive(Clone, Copy, Debug, PartialEq, Eq)]
pub enum Way {
    Plain,
    FromMap,
    AsMap,
}
