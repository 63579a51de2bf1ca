//! How replies go out on a link.
ghost use Rattle.std.specs.Prelude.{◌≡◌, Option, Some, None, IfErr, OnOk};
ghost use Rattle.std.specs.Prelude.{ℕ, List, OnErr};
ghost use Rattle.ld_edge.specs.Faults.{Rose};
ghost use Rattle.ld_edge.specs.Passing.{Goes, GoesInPart};
ghost use Rattle.ld_head.specs.Outcomes.{reply};
ghost use Rattle.ld_head.specs.declared.outcome.Outcome.TheVariants as outcomes;
ghost use Rattle.ld_talk.specs.Sending.{IsUnsent, last_marks as marks_at_last};

use bytes::BytesMut;
use ld_edge::{Failed, Link, write_all};
use ld_head::{Marks, Outcome, Reply, no_memory_reply, write_reply};
use ld_tree::NoMemory;
use std::alloc::Global;

/// Why a reply isn't sent.
#[derive(Clone, Copy, Debug, PartialEq, Eq)]
pub enum SendRefusal {
    /// A write failed. A front of the reply went out.
    Failed,
    /// An allocation failed. Nothing went out.
    NoMemory,
}

impl From<NoMemory> for SendRefusal {
    ghost use Rattle.std.specs.Prelude.{◌≡◌};
    ghost use Rattle.ld_talk.specs.declared.sending.SendRefusal.TheVariants as refusal;

    ghost from_gives = { λ e r. r ≡ refusal.NoMemory };

    fn from(_e: NoMemory) -> SendRefusal {
        SendRefusal::NoMemory
    }
}

impl From<Failed> for SendRefusal {
    ghost use Rattle.std.specs.Prelude.{◌≡◌};
    ghost use Rattle.ld_talk.specs.declared.sending.SendRefusal.TheVariants as refusal;

    ghost from_gives = { λ e r. r ≡ refusal.Failed };

    fn from(_e: Failed) -> SendRefusal {
        SendRefusal::Failed
    }
}

// Builds the reply in the buffer, whose former bytes go.
fn build(
    alloc: Global,
    buffer: &mut BytesMut,
    fields: Option<(u32, u64)>,
    outcome: &Outcome,
    marks: Marks,
) -> Result<(), NoMemory>
    ensures { OnOk result (buffer.new.items ≡ reply fields outcome.now marks) }
{
    let reply = Reply::new(alloc, fields, outcome, marks)?;
    buffer.clear();
    write_reply(&reply, buffer)
}

// Writes the bytes, and leaves the link's other side as it was.
fn write_to<N: Link>(link: &mut N, bytes: &[u8]) -> Result<(), Failed>
    ensures all { OnOk result (Goes (N.outgoing link.old) (N.outgoing link.new) bytes.now) }
    ensures part { OnErr result (GoesInPart (N.outgoing link.old) (N.outgoing link.new) bytes.now) }
    ensures keeps_count { OnOk result ((N.outgoing link.new).faults ≡ (N.outgoing link.old).faults) }
    ensures rose { OnErr result (Rose (N.outgoing link.old).faults (N.outgoing link.new).faults) }
    ensures incoming { N.incoming link.new ≡ N.incoming link.old }
{
    write_all(link, bytes)
}

/// Sends the reply to a request that came to this: `fields` are its number and the version of its last pin, where it has
/// them, and the marks are its item's. It is built in the buffer, and written at once.
pub fn send<N: Link>(
    alloc: Global,
    link: &mut N,
    buffer: &mut BytesMut,
    fields: Option<(u32, u64)>,
    outcome: &Outcome,
    marks: Marks,
) -> Result<(), SendRefusal>
    ensures sent { OnOk result (Goes (N.outgoing link.old) (N.outgoing link.new) (reply fields outcome.now marks)) }
    ensures keeps_count { OnOk result ((N.outgoing link.new).faults ≡ (N.outgoing link.old).faults) }
    ensures unsent { IfErr result (IsUnsent (reply fields outcome.now marks) (N.outgoing link.old) (N.outgoing link.new)) }
    ensures incoming { N.incoming link.new ≡ N.incoming link.old }
{
    build(alloc, buffer, fields, outcome, marks)?;
    write_to(link, buffer)?;
    Ok(())
}

/// The marks of a reply that a connection ends with, whatever was asked.
pub fn last_marks() -> Marks
    ensures { result ≡ marks_at_last }
{
    Marks {
        interim: false,
        closes: true,
        head_alone: false,
    }
}

/// Writes the reply of want of memory, after which the connection closes. Takes no memory.
pub fn give_up<N: Link>(link: &mut N) -> Result<(), Failed>
    ensures sent { OnOk result (Goes (N.outgoing link.old) (N.outgoing link.new) (reply None outcomes.NoMemory marks_at_last)) }
    ensures part { OnErr result (GoesInPart (N.outgoing link.old) (N.outgoing link.new) (reply None outcomes.NoMemory marks_at_last)) }
    ensures keeps_count { OnOk result ((N.outgoing link.new).faults ≡ (N.outgoing link.old).faults) }
    ensures rose { OnErr result (Rose (N.outgoing link.old).faults (N.outgoing link.new).faults) }
    ensures incoming { N.incoming link.new ≡ N.incoming link.old }
{
    write_to(link, no_memory_reply(last_marks()))
}
