//! What follows on an item: the next one, or the end of the talk.
ghost use Rattle.std.specs.Prelude.{◌≡◌};
ghost use Rattle.ld_items.specs.Taking.{marked};
ghost use Rattle.ld_talk.specs.Concluding.{GivesUp, IsConcluded, IsEndOf};
ghost use Rattle.ld_talk.specs.Talking.{end_of_ending, end_of_item};

use crate::answering::Spoken;
use crate::sending::{SendRefusal, give_up};
use ld_edge::Link;
use ld_head::{Ending, SessionEnd};
use ld_items::{Arrived, Received};

/// How a talk ends where the input ends so.
pub(crate) fn end_of(ending: Ending) -> SessionEnd
    ensures { result ≡ end_of_ending ending }
{
    match ending {
        Ending::Inside { .. } => SessionEnd::Truncated,
        Ending::Between | Ending::Shut => SessionEnd::Closed,
    }
}

// How it ends after an item that closes: a head that was refused says so.
fn end_after(arrived: &Arrived) -> SessionEnd
    ensures { result ≡ end_of_item (marked arrived.now).item }
{
    match &arrived.item {
        Received::Bad { status } if *status != 404 && *status != 405 => {
            SessionEnd::BadHead(*status)
        }
        _ => SessionEnd::Closed,
    }
}

/// Tries the reply that needs no memory; whether it goes out or not, the talk ends for want of memory.
pub(crate) fn lack_memory<N: Link>(link: &mut N) -> SessionEnd
    ensures gave_up { GivesUp (N.outgoing link.old) (N.outgoing link.new) result }
    ensures incoming { N.incoming link.new ≡ N.incoming link.old }
{
    match give_up(link) {
        Ok(()) | Err(_) => SessionEnd::NoMemory,
    }
}

// Why a reply wasn't sent ends the talk.
fn unsent<N: Link>(link: &mut N, refusal: SendRefusal) -> SessionEnd
    ensures ended { IsEndOf refusal (N.outgoing link.old) (N.outgoing link.new) result }
    ensures incoming { N.incoming link.new ≡ N.incoming link.old }
{
    match refusal {
        SendRefusal::Failed => SessionEnd::WriteFault,
        SendRefusal::NoMemory => lack_memory(link),
    }
}

/// The end of the talk, if it ends after the item of which this came.
pub(crate) fn conclude<N: Link>(
    link: &mut N,
    spoken: Spoken,
    arrived: &Arrived,
) -> Option<SessionEnd>
    ensures concluded { IsConcluded (marked arrived.now) spoken (N.outgoing link.old) (N.outgoing link.new) result }
    ensures incoming { N.incoming link.new ≡ N.incoming link.old }
{
    match spoken {
        Spoken::Sent if arrived.marks.closes => Some(end_after(arrived)),
        Spoken::Sent => None,
        Spoken::Full { events } => Some(SessionEnd::HistoryFull { events }),
        Spoken::Unsent(refusal) | Spoken::FullUnsent { refusal, .. } => Some(unsent(link, refusal)),
    }
}
