//! The Expansion Algorithm of JSON-LD 1.1 Processing Algorithms and API (section 5.1.2, and 9.1 `expand`).
//!
//! Call [`expand`]. It works over any [`Contexts`](ld_ctx::Contexts): where a context is to be processed it asks,
//! and it never stands on how that is done. Its contract says that it gives what `expanded` of ld_rec's
//! `specs/Expansion.antt` gives over the documents that the contexts stand for: that definition, with the files
//! that it names, is to be believed. Nothing here is: `specs/Steps.antt` says what the calls within answer, and
//! `specs/Slots.antt` what a result at work stands for.
//!
//! The modules follow the algorithm: `expansion` is the cycle, a call for each stage of an element; `contexts` and
//! `types` make the contexts of a map; `keywords` and `properties` have the rules that expand nothing within;
//! `ending` is the end of a map; `making` is the result at work, in which entries are put in any order, each in
//! logarithmic time, and items are appended where they are.
#![tactic(auto)]

mod contexts;
mod ending;
mod expansion;
mod keywords;
mod making;
mod place;
mod properties;
mod types;

pub use expansion::expand;
