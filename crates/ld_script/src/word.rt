//! Words, and the texts that they stand in.
ghost use Rattle.std.specs.Prelude.{◌≡◌, true, false, IfOk, MatchOption};
ghost use Rattle.std.specs.List.{list_all};
ghost use Rattle.ld_script.specs.Lines.{is_graphic, is_word};
ghost use Rattle.ld_script.specs.Reading.{lacks, IsSplit};

use ld_tree::{NoMemory, Raw, Text};
use std::alloc::Global;
use std::str;

/// The parts of a text before and after the first such byte.
pub(crate) fn split_once(text: &[u8], byte: u8) -> Option<(&[u8], &[u8])>
    ensures { MatchOption result (lacks byte text.now ≡ true) (λ parts. IsSplit byte text.now parts.0.now parts.1.now) }
{
    for (place, here) in text.iter().enumerate() {
        if *here == byte {
            return Some((&text[..place], &text[place + 1..]));
        }
    }
    None
}

fn is_graphic(byte: u8) -> bool
    ensures { result ≡ is_graphic byte }
{
    byte >= 0x21 && byte <= 0x7e
}

pub(crate) fn is_word(bytes: &[u8]) -> bool
    ensures { result ≡ is_word bytes.now }
{
    !bytes.is_empty() && are_graphic(bytes)
}

fn are_graphic(bytes: &[u8]) -> bool
    ensures { result ≡ list_all is_graphic bytes.now }
{
    bytes.iter().all(|byte| is_graphic(*byte))
}

/// A copy of the word.
pub(crate) fn copy_text(alloc: Global, word: &[u8]) -> Result<Text, NoMemory>
    requires { is_word word.now ≡ true }
    ensures { IfOk result (λ text. text ≡ word.now) }
{
    match str::from_utf8(word) {
        Ok(text) => Text::from_str(alloc, text),
        Err(_) => unreachable!(),
    }
}

pub(crate) fn copy_bytes(alloc: Global, word: &[u8]) -> Result<Raw, NoMemory>
    ensures { IfOk result (λ bytes. bytes ≡ word.now) }
{
    let bytes = Vec::from_slice(alloc, word)?;
    Ok(Raw::from_vec(bytes))
}
