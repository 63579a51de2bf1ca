//! Context Processing (JSON-LD 1.1 Processing Algorithms and API, section 4.1.2) over a stock of documents.
//!
//! - [`process`] processes a local context over an active context, with remote contexts and imports out of the stock.
//!   It gives exactly ld_rec's `processed`: its context, its code, its own refusal, or the first document that the
//!   stock lacks.
//! - [`Runs`] tells what that took: how many invocations of the algorithm, and which documents were asked for.
//! - [`Plain`] gives contexts over a stock to whoever asks through ld_ctx's `Contexts`, and their inverses to whoever
//!   asks through ld_inverse's `Inverses`. It makes each anew. Its contexts are [`Kept`]: shared by their copies.
//!
//! The active context is copied once, and then handed from item to item and from invocation to invocation. A
//! document's context is read where it stands in the stock; for `@import` a map of both is made. A scoped context that
//! is a map without `@import`, and propagated, is tried on the context that is being made itself: of that one the base
//! IRI, the vocabulary mapping, the default language and the definitions under the map's own names are copied before,
//! and put back after. So a scoped context costs what it holds, and what the terms held that it defines again. Any
//! other scoped context (null, a text, a list, a map with `@import` or not propagated) is tried over a copy of the
//! whole: many of those among many terms cost the product.
//!
//! To be believed, since the public clauses speak by them: `specs/Counts.antt` (what is told but at want of memory) and
//! `specs/Kept.antt` (the context that a `Kept` stands for). The code's own: `specs/Tells.antt`, `specs/Calls.antt` and
//! `specs/Starts.antt`, by which the functions of the algorithm, which call one another in a cycle, say what they do to
//! `Runs` and answer, and `specs/Trials.antt`, by which a context is as it was after a scoped context was tried on it.
//! The modules, from below: runs, inputs, null (steps 2, 3 and 5.1), remote (5.2.1 to 5.2.5), keywords (5.5 and 5.7 to
//! 5.11), import (5.6), term (5.13), trial (scoped contexts), walk, kept, plain.
#![tactic(auto)]

mod import;
mod inputs;
mod kept;
mod keywords;
mod null;
mod plain;
mod remote;
mod runs;
mod term;
mod trial;
mod walk;

pub use inputs::{Call, Inputs, Progress};
pub use kept::Kept;
pub use plain::Plain;
pub use runs::Runs;
pub use walk::process;
