//! What a worker serves with.
/// Where a worker stands: the door that its links come from, and the loader of the contexts that their requests lack.
#[derive(Debug, Drop)]
pub struct Post<D, L> {
    pub door: D,
    pub loader: L,
}
