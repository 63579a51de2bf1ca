ghost use Rattle.std.specs.Prelude.{◌≡◌, ◌++◌, Some, Result, IfOk, OnErr, option_map};
ghost use Rattle.ld_edge.specs.declared.status.Status.TheVariants as status;
ghost use Rattle.ld_tree.specs.declared.tree.Tree.{Tree};
ghost use Rattle.ld_rec.specs.declared.stop.Stop.{Stop};
ghost use Rattle.ld_answer.specs.Answers.{Tells};
ghost use Rattle.ld_answer.specs.Bodies.{load_fault_body as body_of_fault, refusal_body as body_of_refusal, too_many_body as body_of_many};
ghost use Rattle.ld_flight.specs.Loads.{Loading};
ghost use Rattle.ld_once.specs.declared.command.Command.TheVariants as commands;
ghost use Rattle.ld_once.specs.Outcomes.{IsOutcome, body_line};
ghost use Rattle.ld_once.specs.Runs.{IsPrinted, IsReply, bad_line};
ghost use Rattle.ld_once.specs.Replies.{IsRefusal, IsRefusalOf, IsSettledAs, IsUnfinished};

use crate::command::Command;
use crate::loading::{Fault, answer};
use itoa::Buffer;
use ld_answer::{
    Answer, EnvelopeRefusal, Op, code_body, load_fault_body, own_body, read_envelope, refusal_body,
    too_many_body,
};
use ld_edge::Status;
use ld_flight::Loader;
use ld_script::{ScriptRefusal, run_script};
use ld_tree::{Iri, NoMemory, Tree};
use ld_tree_write::write_tree;
use std::alloc::Global;

/// What an input is answered: the status, and the text that goes with it.
#[derive(Drop)]
pub struct Reply {
    pub status: Status,
    pub text: Vec<u8>,
}

/// What the algorithms give for an envelope, as far as it is known.
#[derive(Drop)]
pub enum Outcome {
    Settled(Reply),
    /// The context of this IRI is asked for and isn't there.
    Missing(Iri),
}

/// Answers a whole input, as the command does.
pub fn reply_to<L: Loader>(
    alloc: Global,
    command: Command,
    bytes: &[u8],
    loader: &mut L,
) -> Result<Reply, NoMemory>
    ensures reply { IfOk result (λ r. IsReply command bytes.now (L.loading loader.old) (L.loading loader.new) r.status r.text.items) }
    ensures unfinished { OnErr result (IsUnfinished command bytes.now (L.loading loader.old) (L.loading loader.new)) }
{
    match command {
        Command::Document(op) => reply_to_envelope(alloc, op, bytes, loader),
        Command::Schedule => reply_to_script(alloc, bytes),
    }
}

// What the script prints, or its first bad line.
fn reply_to_script(alloc: Global, bytes: &[u8]) -> Result<Reply, NoMemory>
    ensures { IfOk result (λ r. IsPrinted bytes.now r.status r.text.items) }
{
    match run_script(alloc, bytes) {
        Ok(text) => Ok(Reply {
            status: Status::Done,
            text,
        }),
        Err(ScriptRefusal::BadLine { line }) => refuse_line(alloc, line),
        Err(ScriptRefusal::NoMemory) => Err(NoMemory),
    }
}

fn refuse_line(alloc: Global, number: u64) -> Result<Reply, NoMemory>
    ensures { IfOk result (λ r. IsRefusal (bad_line number) r.status r.text.items) }
{
    let mut text = Vec::new(alloc);
    text.extend_from_slice(b"{\"line\":")?;
    text.extend_from_slice(Buffer::new().format(number).as_bytes())?;
    text.extend_from_slice(b",\"own\":\"script\"}")?;
    text.push(b'\n')?;
    Ok(Reply {
        status: Status::Refused,
        text,
    })
}

// What the document of an envelope comes to, or why it is none.
fn reply_to_envelope<L: Loader>(
    alloc: Global,
    op: Op,
    bytes: &[u8],
    loader: &mut L,
) -> Result<Reply, NoMemory>
    ensures reply { IfOk result (λ r. IsReply (commands.Document op) bytes.now (L.loading loader.old) (L.loading loader.new) r.status r.text.items) }
    ensures unfinished { OnErr result (IsUnfinished (commands.Document op) bytes.now (L.loading loader.old) (L.loading loader.new)) }
{
    match read_envelope(alloc, op, bytes) {
        Ok(envelope) => answer(alloc, op, &envelope, loader),
        Err(e) => refuse_envelope(alloc, &e),
    }
}

/// The reply for an answer, or what it lacks.
pub fn outcome_of(alloc: Global, answer: Answer) -> Result<Outcome, NoMemory>
    ensures { IfOk result (λ outcome. (r : Result Tree Stop) → Tells answer r → IsOutcome r outcome) }
{
    match answer {
        Answer::Result(tree) => settled(alloc, Status::Done, &tree),
        Answer::Code(code) => settled(alloc, Status::Refused, &code_body(alloc, code)?),
        Answer::Own(own) => settled(alloc, Status::Refused, &own_body(alloc, own)?),
        Answer::Missing(iri) => Ok(Outcome::Missing(iri)),
        Answer::NoMemory => Err(NoMemory),
    }
}

fn settled(alloc: Global, status: Status, body: &Tree) -> Result<Outcome, NoMemory>
    ensures { IfOk result (λ outcome. IsSettledAs outcome status (body_line body.now)) }
{
    Ok(Outcome::Settled(make_reply(alloc, status, body)?))
}

/// The reply where no more contexts may be held, and this one is missing.
pub fn refuse_many(alloc: Global, iri: &str) -> Result<Reply, NoMemory>
    ensures status { IfOk result (λ r. r.status ≡ status.TooMany) }
    ensures text { IfOk result (λ r. r.text.items ≡ body_line (body_of_many iri.now)) }
{
    make_reply(alloc, Status::TooMany, &too_many_body(alloc, iri)?)
}

/// The reply where a load failed.
pub fn refuse_fault(alloc: Global, fault: &Fault) -> Result<Reply, NoMemory>
    ensures status { IfOk result (λ r. r.status ≡ status.LoadFault) }
    ensures text { IfOk result (λ r. r.text.items ≡ body_line (body_of_fault fault.now.iri fault.now.flight fault.now.before fault.now.after)) }
{
    let body = load_fault_body(
        alloc,
        fault.iri.as_str(),
        fault.flight,
        fault.before,
        fault.after,
    )?;
    make_reply(alloc, Status::LoadFault, &body)
}

// Want of memory is no body.
fn refuse_envelope(alloc: Global, refusal: &EnvelopeRefusal) -> Result<Reply, NoMemory>
    ensures { IfOk result (λ r. IsRefusalOf (body_of_refusal refusal.now) r.status r.text.items) }
{
    match refusal_body(alloc, refusal)? {
        Some(body) => make_reply(alloc, Status::Refused, &body),
        None => Err(NoMemory),
    }
}

// The status, and a line with the body.
fn make_reply(alloc: Global, status: Status, body: &Tree) -> Result<Reply, NoMemory>
    ensures status { IfOk result (λ r. r.status ≡ status) }
    ensures text { IfOk result (λ r. r.text.items ≡ body_line body.now) }
{
    let mut text = Vec::new(alloc);
    write_tree(body, &mut text)?;
    text.push(b'\n')?;
    Ok(Reply { status, text })
}
