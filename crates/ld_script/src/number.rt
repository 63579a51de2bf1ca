//! Numbers as words: decimal digits without a sign, and no 0 before others.
ghost use Rattle.std.specs.Prelude.{◌≡◌, ◌^◌, ◌<◌, ◌≤◌, ◌↔◌, IsTrue, ℕ, MatchOption, decimal};
ghost use Rattle.ld_script.specs.Lines.{IsNumber};

use itoa::Buffer;
use std::str;

/// The number that the word spells in decimal, without a sign or a needless zero, if it is one that is at most `most`.
pub fn read_number(word: &[u8], most: u64) -> Option<u64>
    ensures { MatchOption result ((n : ℕ) → IsNumber word.now most n → ⊥) (λ n. IsNumber word.now most n) }
{
    let number = parse(word)?;
    if number <= most && is_spelled(word, number) {
        Some(number)
    } else {
        None
    }
}

/// What the digits stand for. They may have a plus sign or zeros before them.
fn parse(word: &[u8]) -> Option<u64>
    ensures { (n : ℕ) → n < 2 ^ 64 → word.now ≡ decimal n → result ≡ Some n }
{
    match str::from_utf8(word) {
        Ok(text) => text.parse::<u64>().ok(),
        Err(_) => None,
    }
}

fn is_spelled(word: &[u8], number: u64) -> bool
    ensures { IsTrue result ↔ (word.now ≡ decimal number) }
{
    let mut buffer = Buffer::new();
    buffer.format(number).as_bytes() == word
}

/// A number below 2^32.
pub(crate) fn read_u32(word: &[u8]) -> Option<u32>
    ensures { MatchOption result ((n : ℕ) → n < 2 ^ 32 → word.now ≡ decimal n → ⊥) (λ n. (n < 2 ^ 32) × (word.now ≡ decimal n)) }
{
    let number = read_number(word, u64::from(u32::MAX))?;
    Some(number as u32)
}

/// A number below 2^63.
pub(crate) fn read_u63(word: &[u8]) -> Option<u64>
    ensures { MatchOption result ((n : ℕ) → n < 2 ^ 63 → word.now ≡ decimal n → ⊥) (λ n. (n < 2 ^ 63) × (word.now ≡ decimal n)) }
{
    read_number(word, (1 << 63) - 1)
}
