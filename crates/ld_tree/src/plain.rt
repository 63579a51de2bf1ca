ghost use Rattle.std.specs.Prelude.{◌≡◌, ◌==◌, nat_lt, not};
ghost use Rattle.std.specs.List.{prefix_len};
ghost use Rattle.ld_tree.specs.Reading.{is_unescaped as unescaped};

use std::simd::prelude::*;

/// How many bytes are looked at together.
const LANES: usize = 16;

/// Whether the byte stands for itself in a string (RFC 8259, section 7).
fn is_unescaped(byte: u8) -> bool
    ensures { result ≡ unescaped byte }
{
    byte >= b' ' && byte != b'"' && byte != b'\\'
}

// How many bytes of the block come before the first of this kind.
fn run_before(block: u8x16, byte: u8) -> usize
    ensures { result ≡ prefix_len (λ x. not (x == byte)) block }
{
    let places = block.simd_eq(u8x16::splat(byte)).to_bitmask();
    if places == 0 {
        return LANES;
    }
    places.trailing_zeros() as usize
}

// The same for control characters.
fn run_before_control(block: u8x16) -> usize
    ensures { result ≡ prefix_len (λ x. not (nat_lt x 32)) block }
{
    let places = block.simd_lt(u8x16::splat(b' ')).to_bitmask();
    if places == 0 {
        return LANES;
    }
    places.trailing_zeros() as usize
}

fn run_in_block(block: u8x16) -> usize
    ensures { result ≡ prefix_len unescaped block }
{
    let quote = run_before(block, b'"');
    let backslash = run_before(block, b'\\');
    let control = run_before_control(block);
    quote.min(backslash.min(control))
}

fn plain_len_by_bytes(bytes: &[u8]) -> usize
    ensures { result ≡ prefix_len unescaped bytes.now }
{
    bytes.iter().take_while(|b| is_unescaped(**b)).count()
}

/// How many bytes at the front stand for themselves in a JSON string: up to the first quotation mark,
/// backslash or control character (RFC 8259, section 7). Looks at sixteen together.
pub fn plain_len(bytes: &[u8]) -> usize
    ensures { result ≡ prefix_len unescaped bytes.now }
{
    let mut at = 0;
    while bytes.len() - at >= LANES {
        let run = run_in_block(u8x16::from_slice(&bytes[at..]));
        if run < LANES {
            return at + run;
        }
        at += LANES;
    }
    at + plain_len_by_bytes(&bytes[at..])
}
