//! Whole scripts.
ghost use Rattle.std.specs.Prelude.{◌≡◌, ◌≤◌, ◌++◌, ◌∷◌, [], ℕ, IfOk, OnOk, Err};
ghost use Rattle.ld_script.specs.declared.refusal.ScriptRefusal.TheVariants as refusal;
ghost use Rattle.ld_script.specs.Scripts.{text_of, AreGood, IsScript, IsBadAt};
ghost use Rattle.ld_script.specs.Reading.{IsStuckAt};
ghost use Rattle.ld_script.specs.Printed.{IsOutput};

use crate::line::Line;
use crate::read::{read_limits, read_line};
use crate::refusal::ScriptRefusal;
use crate::run::run_lines;
use crate::word::split_once;
use ld_history::Limits;
use ld_tree::NoMemory;
use std::alloc::Global;

/// Runs a script on an empty history, and answers what it prints. Where the text is no script it names
/// the first bad line, and nothing of the lines before it is printed.
pub fn run_script(alloc: Global, text: &[u8]) -> Result<Vec<u8>, ScriptRefusal>
    ensures prints { IfOk result (λ out. IsOutput text.now out.items) }
    ensures bad_line { (line : ℕ) → result ≡ Err (refusal.BadLine line) → IsBadAt text.now line }
{
    let script = read_script(alloc, text)?;
    let out = run_lines(alloc, script.limits, script.lines)?;
    Ok(out)
}

/// The lines of a script, and the limits that its history is kept under.
#[derive(Debug, Drop)]
struct Script {
    limits: Limits,
    lines: Vec<Line>,
}

fn read_script(alloc: Global, text: &[u8]) -> Result<Script, ScriptRefusal>
    ensures read { IfOk result (λ script. IsScript text.now script.limits script.lines.items) }
    ensures bad_line { (line : ℕ) → result ≡ Err (refusal.BadLine line) → IsBadAt text.now line }
{
    match read_limits(text) {
        Some((limits, rest)) => {
            let lines = read_lines(alloc, rest, 2)?;
            Ok(Script { limits, lines })
        }
        None => {
            let lines = read_lines(alloc, text, 1)?;
            Ok(Script {
                limits: Limits::server(),
                lines,
            })
        }
    }
}

/// The lines of the text, of which the first has this number.
fn read_lines(alloc: Global, text: &[u8], first: u64) -> Result<Vec<Line>, ScriptRefusal>
    requires { first ≤ 2 }
    ensures read { IfOk result (λ lines. AreGood lines.items × (text.now ≡ text_of lines.items)) }
    ensures bad_line { (line : ℕ) → result ≡ Err (refusal.BadLine line) → IsStuckAt text.now first line }
{
    let mut lines = Vec::new(alloc);
    let mut number = first;
    let mut rest = text;
    while !rest.is_empty() {
        let Some((line, after)) = split_once(rest, b'\n') else {
            return Err(ScriptRefusal::BadLine { line: number });
        };
        let Some(line) = read_line(alloc, line)? else {
            return Err(ScriptRefusal::BadLine { line: number });
        };
        keep(&mut lines, line)?;
        number += 1;
        rest = after;
    }
    Ok(lines)
}

fn keep(lines: &mut Vec<Line>, line: Line) -> Result<(), NoMemory>
    ensures { OnOk result (lines.new.items ≡ lines.old.items ++ line ∷ []) }
{
    lines.push(line)?;
    Ok(())
}
