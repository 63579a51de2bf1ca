ghost use Rattle.std.specs.Prelude.{◌≡◌, ◌<◌, ◌≤◌, ◌↔◌, ◌++◌, ℕ, List, [], length, vec_len, IfOk, IfErr, IfSome};
ghost use Rattle.ld_once.specs.Runs.{Reads, IsReadToEnd};
ghost use Rattle.ld_once.specs.Inputs.{IfWhole, IfTooLong, IsCountFor};

use ld_edge::Source;
use std::alloc::{AllocError, Global};

/// The greatest length of an input, in bytes.
pub const INPUT_LIMIT: usize = 4_194_304;

// How much one read asks for.
const PIECE: usize = 65_536;

/// An input, as far as the program reads it.
#[derive(Drop)]
pub enum Input {
    Whole(Vec<u8>),
    /// It has more bytes than the limit.
    TooLong,
}

#[derive(Drop)]
pub enum InputRefusal {
    Failed,
    NoMemory,
}

impl From<AllocError> for InputRefusal {
    ghost use Rattle.ld_once.specs.declared.input.InputRefusal.TheVariants as refusal;

    ghost from_gives = { λ _ r. r ≡ refusal.NoMemory };

    fn from(_e: AllocError) -> InputRefusal {
        InputRefusal::NoMemory
    }
}

/// Reads to the end of the input, or one byte past the limit.
pub fn read_input<S: Source>(alloc: Global, input: &mut S) -> Result<Input, InputRefusal>
    ensures whole { IfOk result (λ i. IfWhole i (λ bytes.
        (length bytes ≤ INPUT_LIMIT) × Reads (S.incoming input.old) (S.incoming input.new) bytes × IsReadToEnd (S.incoming input.new))) }
    ensures too_long { IfOk result (λ i. IfTooLong i (
        (bytes : List ℕ) × (INPUT_LIMIT < length bytes) × Reads (S.incoming input.old) (S.incoming input.new) bytes)) }
    ensures refused { IfErr result (λ e. IsCountFor e (S.incoming input.old).faults (S.incoming input.new).faults) }
{
    let mut bytes = Vec::new(alloc);
    let mut piece = zeros(alloc, PIECE)?;
    while bytes.len() <= INPUT_LIMIT {
        let room = (INPUT_LIMIT + 1 - bytes.len()).min(piece.len());
        if read_piece(input, &mut piece[..room], &mut bytes)? == 0 {
            return Ok(Input::Whole(bytes));
        }
    }
    Ok(Input::TooLong)
}

fn zeros(alloc: Global, len: usize) -> Result<Vec<u8>, AllocError>
    ensures { IfOk result (λ v. vec_len v ≡ len) }
{
    vec![in alloc; 0u8; len]
}

// Reads once, and appends what was read.
fn read_piece<S: Source>(
    input: &mut S,
    piece: &mut [u8],
    bytes: &mut Vec<u8>,
) -> Result<usize, InputRefusal>
    requires { 0 < length piece.old }
    ensures appended { IfOk result (λ n. (read : List ℕ) × (length read ≡ n) × (n ≤ length piece.old)
        × (bytes.new.items ≡ bytes.old.items ++ read) × Reads (S.incoming input.old) (S.incoming input.new) read) }
    ensures end { IfOk result (λ n. n ≡ 0 → IsReadToEnd (S.incoming input.new)) }
    ensures refused { IfErr result (λ e. IsCountFor e (S.incoming input.old).faults (S.incoming input.new).faults) }
{
    match input.read(piece) {
        Ok(count) => {
            bytes.extend_from_slice(&piece[..count])?;
            Ok(count)
        }
        Err(_) => Err(InputRefusal::Failed),
    }
}
