//! What is printed, appended to the output.
ghost use Rattle.std.specs.Prelude.{◌≡◌, ◌++◌, ◌∷◌, OnOk, decimal};
ghost use Rattle.ld_script.specs.Printed as printed;

use itoa::Buffer;
use ld_history::{
    EvictAnswer, LackAnswer, OpenAnswer, Out, PinAnswer, PublishAnswer, ReviseAnswer,
};
use ld_tree::{Iri, NoMemory};

/// Words, and numbers after them, each behind a space.
pub(crate) fn print_words(words: &[u8], numbers: &[u64], out: &mut Vec<u8>) -> Result<(), NoMemory>
    ensures { OnOk result (out.new.items ≡ out.old.items ++ printed.numbered words.now numbers.now) }
{
    out.extend_from_slice(words)?;
    for number in numbers {
        print_number(*number, out)?;
    }
    Ok(())
}

fn print_number(number: u64, out: &mut Vec<u8>) -> Result<(), NoMemory>
    ensures { OnOk result (out.new.items ≡ out.old.items ++ 32 ∷ decimal number) }
{
    let mut buffer = Buffer::new();
    out.push(b' ')?;
    out.extend_from_slice(buffer.format(number).as_bytes())?;
    Ok(())
}

/// A line of these.
pub(crate) fn print_line(words: &[u8], numbers: &[u64], out: &mut Vec<u8>) -> Result<(), NoMemory>
    ensures { OnOk result (out.new.items ≡ out.old.items ++ printed.said words.now numbers.now) }
{
    print_words(words, numbers, out)?;
    out.push(b'\n')?;
    Ok(())
}

pub(crate) fn print_opened(answer: OpenAnswer, out: &mut Vec<u8>) -> Result<(), NoMemory>
    ensures { OnOk result (out.new.items ≡ out.old.items ++ printed.opened answer) }
{
    match answer {
        OpenAnswer::Opened { session } => print_line(b"opened", &[u64::from(session)], out),
        OpenAnswer::HistoryFull { events } => print_line(b"history full", &[events], out),
    }
}

pub(crate) fn print_pinned(
    session: u32,
    answer: PinAnswer,
    out: &mut Vec<u8>,
) -> Result<(), NoMemory>
    ensures { OnOk result (out.new.items ≡ out.old.items ++ printed.pinned session answer) }
{
    match answer {
        PinAnswer::Pinned {
            request,
            attempt,
            version,
        } => print_line(
            b"pinned",
            &[
                u64::from(session),
                u64::from(request),
                u64::from(attempt),
                version,
            ],
            out,
        ),
        PinAnswer::HistoryFull { events } => print_line(b"history full", &[events], out),
    }
}

fn print_went_out(iri: &Iri, version: u64, out: &mut Vec<u8>) -> Result<(), NoMemory>
    ensures { OnOk result (out.new.items ≡ out.old.items ++ printed.went_out iri.now version) }
{
    out.extend_from_slice(b"evicted ")?;
    print_line(iri.as_str().as_bytes(), &[version], out)
}

fn print_made_place(went: &Option<Out>, out: &mut Vec<u8>) -> Result<(), NoMemory>
    ensures { OnOk result (out.new.items ≡ out.old.items ++ printed.made_place went.now) }
{
    match went {
        Some(gone) => print_went_out(gone.iri.as_iri(), gone.version, out),
        None => Ok(()),
    }
}

pub(crate) fn print_lacked(
    session: u32,
    answer: &LackAnswer,
    out: &mut Vec<u8>,
) -> Result<(), NoMemory>
    ensures { OnOk result (out.new.items ≡ out.old.items ++ printed.lacked session answer.now) }
{
    let session = u64::from(session);
    match answer {
        LackAnswer::TooMany { held } => print_line(b"too many", &[u64::from(*held)], out),
        LackAnswer::There => print_line(b"found", &[session], out),
        LackAnswer::Joined { flight } => {
            print_line(b"joined", &[session, u64::from(*flight)], out)
        }
        LackAnswer::StoreFull => print_line(b"store full", &[], out),
        LackAnswer::ArchiveFull { bytes } => print_line(b"archive full", &[*bytes], out),
        LackAnswer::Led { flight, out: went } => {
            print_made_place(went, out)?;
            print_line(b"led", &[session, u64::from(*flight)], out)
        }
    }
}

pub(crate) fn print_published(
    flight: u32,
    answer: PublishAnswer,
    out: &mut Vec<u8>,
) -> Result<(), NoMemory>
    ensures { OnOk result (out.new.items ≡ out.old.items ++ printed.published flight answer) }
{
    let flight = u64::from(flight);
    match answer {
        PublishAnswer::Published { version } => print_line(b"published", &[flight, version], out),
        PublishAnswer::Same => print_line(b"same", &[flight], out),
    }
}

pub(crate) fn print_evicted(
    iri: &Iri,
    answer: EvictAnswer,
    out: &mut Vec<u8>,
) -> Result<(), NoMemory>
    ensures { OnOk result (out.new.items ≡ out.old.items ++ printed.evicted iri.now answer) }
{
    match answer {
        EvictAnswer::Evicted { version } => print_went_out(iri, version, out),
        EvictAnswer::NotStored { version } => print_line(b"not stored", &[version], out),
        EvictAnswer::Held { session } => print_line(b"held", &[u64::from(session)], out),
        EvictAnswer::Revising { flight } => print_line(b"revising", &[u64::from(flight)], out),
    }
}

pub(crate) fn print_revised(
    session: u32,
    answer: ReviseAnswer,
    out: &mut Vec<u8>,
) -> Result<(), NoMemory>
    ensures { OnOk result (out.new.items ≡ out.old.items ++ printed.revised session answer) }
{
    match answer {
        ReviseAnswer::Led { flight } => {
            print_line(b"revising", &[u64::from(session), u64::from(flight)], out)
        }
        ReviseAnswer::NotStored { version } => print_line(b"not stored", &[version], out),
        ReviseAnswer::Flying { flight } => print_line(b"flying", &[u64::from(flight)], out),
        ReviseAnswer::ArchiveFull { bytes } => print_line(b"archive full", &[bytes], out),
    }
}
