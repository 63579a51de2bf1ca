//! The words that ask for a server.
ghost use Rattle.std.specs.Prelude.{◌≡◌, ◌≤◌, ℕ, MatchOption, map, string_bytes};
ghost use Rattle.ld_script.specs.Lines.{IsNumber};
ghost use Rattle.ld_work.specs.Forms.{AreNumbers, IsFormOf};

use ld_script::read_number;

/// The most workers of a server.
pub const MOST_WORKERS: u32 = 64;

/// The most connections of one worker.
pub const MOST_CONNECTIONS: u32 = 1_000_000;

/// The most connections between two rounds of revisions.
pub const MOST_EVERY: u32 = 1_000_000;

/// What a server is to do.
#[derive(Clone, Copy, Debug, PartialEq, Eq)]
pub struct Form {
    pub workers: u32,
    /// How many connections each worker serves.
    pub connections: u32,
    /// After each so many connections a worker has a round of revisions. At 0 it never has one.
    pub every: u32,
}

/// What the words ask for: this word, an address, whatever it is, and the three numbers in decimal. Takes no memory.
pub fn serve_form(word: &str, words: &[String]) -> Option<Form>
    ensures { MatchOption result ((form : Form) → IsFormOf word.now (map string_bytes words.now) form → ⊥) (IsFormOf word.now (map string_bytes words.now)) }
{
    match words {
        [first, _, workers, connections, every] if first.as_str() == word => {
            form_of(workers.as_str(), connections.as_str(), every.as_str())
        }
        _ => None,
    }
}

fn form_of(workers: &str, connections: &str, every: &str) -> Option<Form>
    ensures { MatchOption result ((form : Form) → AreNumbers workers.now connections.now every.now form → ⊥) (AreNumbers workers.now connections.now every.now) }
{
    Some(Form {
        workers: number_of(workers, 1, MOST_WORKERS)?,
        connections: number_of(connections, 1, MOST_CONNECTIONS)?,
        every: number_of(every, 0, MOST_EVERY)?,
    })
}

// The number that the word spells, if it is one within these bounds.
fn number_of(word: &str, least: u32, most: u32) -> Option<u32>
    ensures { MatchOption result ((n : ℕ) → least ≤ n → IsNumber word.now most n → ⊥) (λ n. (least ≤ n) × IsNumber word.now most n) }
{
    let number = read_number(word.as_bytes(), u64::from(most))?;
    if number < u64::from(least) {
        return None;
    }
    Some(number as u32)
}
