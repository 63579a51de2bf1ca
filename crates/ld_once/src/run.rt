ghost use Rattle.std.specs.Prelude.{◌≡◌, ◌⊎◌, ℕ, List, Some, map, string_bytes};
ghost use Rattle.ld_edge.specs.declared.status.Status.{Status};
ghost use Rattle.ld_edge.specs.declared.status.Status.TheVariants as ended;
ghost use Rattle.ld_flight.specs.Loads.{Loading};
ghost use Rattle.ld_once.specs.Runs.{Due, Ended, IsSoak, IsSoakOf, IsSoaked, IsTelling, IsUnloading, IsUnlessFailed, IsUnlessLoadFailed, Writes, WritesFront};

use crate::command::Command;
use crate::input::{Input, InputRefusal, read_input};
use crate::output::write_whole;
use crate::reply::reply_to;
use crate::soak::{soak_count, soak_line};
use ld_edge::{Sink, Source, Status};
use ld_flight::Loader;
use std::alloc::Global;

const USAGE: &[u8] =
    b"usage: expand | compact | flatten | schedule | soak <n> | serve <address> <workers> <connections> <every>\n";

const INPUT_TOO_LONG: &[u8] = b"{\"own\":\"input too long\"}\n";

/// Runs what the words ask for: reads the input, and writes one answer.
///
/// The words are `expand`, `compact`, `flatten` or `schedule`, alone. The input is one envelope or one script, read to its end, of
/// at most 4,194,304 bytes. A context that an envelope's document names and that isn't there is loaded, and the document
/// answered anew, with at most 64 contexts. Or the words are `soak` and a number from 1 to 10,000, and nothing is read.
pub fn run_once<S: Source, K: Sink, L: Loader>(
    alloc: Global,
    words: &[String],
    input: &mut S,
    output: &mut K,
    loader: &mut L,
) -> Status
    ensures ended { Ended (map string_bytes words.now) (S.incoming input.old) (S.incoming input.new)
        (K.outgoing output.old) (K.outgoing output.new) (L.loading loader.old) (L.loading loader.new) result }

    // Where nothing is due to be loaded, each status comes exactly where it is due, unless an object failed or memory was
    // wanting.
    ensures exact { (bytes out : List ℕ) (due : Status) (after : Loading) → (S.incoming input.old).left ≡ Some bytes
        → Due (map string_bytes words.now) bytes (L.loading loader.old) after due out → IsUnloading due (L.loading loader.old) after
        → IsUnlessFailed due result (S.incoming input.old) (S.incoming input.new) (K.outgoing output.old) (K.outgoing output.new) }

    // Where the loader tells its answers, one status is due, and it comes, unless an object or a load failed or memory was wanting.
    ensures foreseen { (bytes out : List ℕ) (due : Status) (after : Loading) → IsTelling (L.loading loader.old) → (S.incoming input.old).left ≡ Some bytes
        → Due (map string_bytes words.now) bytes (L.loading loader.old) after due out → (due ≡ ended.LoadFault → ⊥)
        → IsUnlessLoadFailed due result (S.incoming input.old) (S.incoming input.new) (K.outgoing output.old) (K.outgoing output.new)
        (L.loading loader.old) (L.loading loader.new) }

    // A soak reads and loads nothing, and ends with its line, unless a write failed or memory was wanting.
    ensures soak { (count : ℕ) → IsSoakOf (map string_bytes words.now) count
        → (S.incoming input.new ≡ S.incoming input.old) × (L.loading loader.new ≡ L.loading loader.old)
        × IsSoaked count (K.outgoing output.old) (K.outgoing output.new) result }
{
    run(alloc, words, input, output, loader)
}

fn run<S: Source, K: Sink, L: Loader>(
    alloc: Global,
    words: &[String],
    input: &mut S,
    output: &mut K,
    loader: &mut L,
) -> Status
    ensures { Ended (map string_bytes words.now) (S.incoming input.old) (S.incoming input.new)
        (K.outgoing output.old) (K.outgoing output.new) (L.loading loader.old) (L.loading loader.new) result }
{
    match soak_count(words) {
        Some(count) => run_soak(alloc, count, output),
        None => run_command(alloc, words, input, output, loader),
    }
}

fn run_soak<K: Sink>(alloc: Global, count: u16, output: &mut K) -> Status
    ensures { IsSoaked count (K.outgoing output.old) (K.outgoing output.new) result }
{
    match soak_line(alloc, count) {
        Ok(line) => finish(output, Status::Done, line.as_slice()),
        Err(_) => Status::NoMemory,
    }
}

fn run_command<S: Source, K: Sink, L: Loader>(
    alloc: Global,
    words: &[String],
    input: &mut S,
    output: &mut K,
    loader: &mut L,
) -> Status
    requires { IsSoak (map string_bytes words.now) → ⊥ }
    ensures { Ended (map string_bytes words.now) (S.incoming input.old) (S.incoming input.new)
        (K.outgoing output.old) (K.outgoing output.new) (L.loading loader.old) (L.loading loader.new) result }
{
    let Some(command) = Command::from_words(words) else {
        return finish(output, Status::Usage, USAGE);
    };
    match read_input(alloc, input) {
        Ok(Input::Whole(bytes)) => match reply_to(alloc, command, bytes.as_slice(), loader) {
            Ok(reply) => finish(output, reply.status, reply.text.as_slice()),
            Err(_) => Status::NoMemory,
        },
        Ok(Input::TooLong) => finish(output, Status::InputTooLong, INPUT_TOO_LONG),
        Err(InputRefusal::Failed) => Status::ReadFault,
        Err(InputRefusal::NoMemory) => Status::NoMemory,
    }
}

// Writes the text that goes with the status.
fn finish<K: Sink>(output: &mut K, status: Status, text: &[u8]) -> Status
    ensures { ((result ≡ status) × Writes (K.outgoing output.old) (K.outgoing output.new) text.now)
        ⊎ ((result ≡ ended.WriteFault) × WritesFront (K.outgoing output.old) (K.outgoing output.new) text.now) }
{
    match write_whole(output, text) {
        Ok(()) => status,
        Err(_) => Status::WriteFault,
    }
}
