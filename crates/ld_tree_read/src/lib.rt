//! Reading trees from JSON texts (RFC 8259), and why bytes aren't read, and where.
//!
//! What to call: `read_tree` reads a tree from bytes, in one pass, or gives the first of its refusals. The
//! functions of `laws.rt` do nothing: their contracts are the laws of the definitions.
//!
//! To be believed, since the contract speaks by them: `specs/State.antt` (what may stand next in a text, as a
//! function of one byte), `specs/Refusals.antt` (the first refusal), and for the laws `specs/Begun.antt` (the
//! beginnings of texts) and `specs/Grammar.antt` (texts as rules). The code's own: `specs/Cursor.antt`,
//! `specs/Digits.antt`, `specs/Stack.antt`, `specs/Steps.antt`, `specs/Strings.antt` and `specs/Tokens.antt`.
#![tactic(auto)]

mod character;
mod cursor;
mod decimal;
mod escape;
mod frame;
mod laws;
mod mark;
mod members;
mod number;
mod parse;
mod refusal;
mod scalar;
mod space;
mod string;

pub use laws::{
    begun_text, grammar_text, least, longest, prefix_begun, printed_reads, reads_unrefused,
    ruled_text, text_begun, unrefused_text,
};
pub use parse::read_tree;
pub use refusal::ReadRefusal;
