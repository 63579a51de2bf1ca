//! The Compaction Algorithm of JSON-LD 1.1 Processing Algorithms and API (section 6.1.2, and 9.1 `compact`).
//!
//! Call [`compact`]. It works over any [`Inverses`](ld_inverse::Inverses): where a context is to be processed, or its
//! inverse is needed, it asks, and it never stands on how that is done. Its contract says that it gives what
//! `compacted` of `specs/Compaction.antt` gives over the documents that the contexts stand for. To be believed are
//! that file, `Elements.antt` (what a rule sees of an element) and `Adding.antt` (Add Value), with the files of ld_rec
//! that they name. The rest of `specs/` is the code's own: `Standing.antt` says what is known of a context that is
//! held with its inverses, `Steps.antt` what the calls within answer, `Slots.antt` what a result at work stands for,
//! and `Renaming.antt` which nodes need a map in any case, and what Value Compaction refuses of them.
//!
//! The modules follow the algorithm: `document` is the top; `compaction` is the cycle, a call for each stage of an
//! element; `contexts` and `types` make the contexts of a map; `values` has what needs no map; `names` and `rules` have
//! the rules that ask for no context; `making` is the result at work, in which entries are put in any order and values
//! appended where they are, each time in logarithmic time. An inverse is made when a context is, and held beside it.
#![tactic(auto)]

mod compaction;
mod contexts;
mod document;
mod making;
mod names;
mod place;
mod rules;
mod types;
mod values;

pub use document::compact;
