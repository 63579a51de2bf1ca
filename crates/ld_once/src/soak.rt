//! `soak`, and the number of its documents.
ghost use Rattle.std.specs.Prelude.{◌≡◌, ◌≤◌, ℕ, List, IfOk, MatchOption, map, string_bytes, decimal};
ghost use Rattle.ld_once.specs.Runs.{IsSoak, IsSoakLine, IsSoakOf, soak_limit};

use ld_script::read_number;
use ld_soak::soak;
use ld_tree::NoMemory;
use std::alloc::Global;

/// The most documents of a soak.
pub const SOAK_LIMIT: u16 = 10_000;

/// How many documents the words ask for, if they ask for a soak.
pub fn soak_count(words: &[String]) -> Option<u16>
    ensures { MatchOption result (IsSoak (map string_bytes words.now) → ⊥) (IsSoakOf (map string_bytes words.now)) }
{
    match words {
        [word, number] if word.as_str() == "soak" => count_of(number.as_str()),
        _ => None,
    }
}

// The number that the word spells, if a soak can have so many documents.
fn count_of(word: &str) -> Option<u16>
    ensures { MatchOption result ((n : ℕ) → 1 ≤ n → n ≤ soak_limit → word.now ≡ decimal n → ⊥) (λ n. (1 ≤ n) × (n ≤ soak_limit) × (word.now ≡ decimal n)) }
{
    let number = read_number(word.as_bytes(), u64::from(SOAK_LIMIT))?;
    if number == 0 {
        return None;
    }
    Some(number as u16)
}

/// The line of a soak of so many documents.
pub fn soak_line(alloc: Global, count: u16) -> Result<Vec<u8>, NoMemory>
    ensures { IfOk result (λ line. IsSoakLine count line.items) }
{
    let sums = soak(alloc, count)?;
    let mut line = Vec::new(alloc);
    sums.print(&mut line)?;
    line.push(b'\n')?;
    Ok(line)
}
