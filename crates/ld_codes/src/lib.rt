//! The error codes and the keywords of JSON-LD 1.1 with their texts, and the refusals of this profile's own.
//!
//! Call `Code::text`, `Keyword::text` and `Keyword::from_text`. `specs/` is to be believed: the texts of the
//! codes (JSON-LD 1.1 API, "Error Handling") and of the keywords (JSON-LD 1.1, "Syntax Tokens and Keywords").
//! Nothing else lists either.
#![tactic(auto)]

mod code;
mod keyword;
mod own;

pub use code::Code;
pub use keyword::Keyword;
pub use own::Own;
