//! Contexts as values, and what stands for their processing (JSON-LD 1.1 Processing Algorithms and API,
//! sections 4 and 5.2).
//!
//! - [`Ctx`] is an active context that can be read and changed. What it stands for is the `Context` of
//!   ld_rec's definitions: `flat`, in `specs/Flat.antt`, which is the one definition here to be believed.
//! - [`View`] reads a context, whatever keeps it. [`expand_iri`] is IRI expansion over any `View`,
//!   and [`means`] tells whether a text expands to a keyword.
//! - [`Contexts`] gives contexts. Expansion and compaction are written over this trait alone: they ask, and
//!   what they get is what context processing gives over the [`Stock`] that the object stands for.
//! - [`Def`], [`Doc`], [`Stop`] and their parts are ld_rec's.
#![tactic(auto)]

mod ask;
mod contexts;
mod ctx;
mod iri;
mod stock;
mod terms;
mod view;

pub use ask::{Ask, Names};
pub use contexts::Contexts;
pub use ctx::Ctx;
pub use iri::{expand_iri, has_inner_colon, is_keyword_mapping, is_whole, means, parts};
pub use ld_rec::{Containers, Def, Doc, Stop, Stored};
pub use stock::Stock;
pub use terms::Terms;
pub use view::View;
