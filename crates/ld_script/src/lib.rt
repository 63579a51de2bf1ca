//! Scripts of store events: a text of lines, each of which is a step on a history that begins empty.
//!
//! Call `run_script`: it answers what the script prints, or the first bad line; and `read_number` for a number that is
//! spelled as in a script. Of `specs/`, Lines, Scripts and Printed are to be believed: how a line is spelled, which
//! texts are scripts, and what is printed. Reading is the code's own.
#![tactic(auto)]

mod laws;
mod line;
mod number;
mod print;
mod read;
mod refusal;
mod run;
mod script;
mod verb;
mod word;

pub use laws::{bad_line_is_one, each_text_is_read, script_is_one};
pub use line::Line;
pub use number::read_number;
pub use refusal::ScriptRefusal;
pub use script::run_script;
