//! What an item asks for.
ghost use Rattle.std.specs.Prelude.{◌≡◌, ℕ, List, Some};
ghost use Rattle.ld_answer.specs.Bodies.{refusal_body as body_of};
ghost use Rattle.ld_fits.specs.Asks.{IsAsked, IsAskedAt, IsRefusedAt, operation};
ghost use Rattle.ld_head.specs.declared.path.Path.{Path};
ghost use Rattle.ld_head.specs.declared.path.Path.TheVariants as paths;
ghost use Rattle.ld_items.specs.Taking.{item_of};
ghost use Rattle.ld_talk.specs.Hearing.{asked_of};

use ld_answer::{Envelope, EnvelopeRefusal, Op, read_envelope, read_target, refusal_body};
use ld_head::{Outcome, Path};
use ld_items::Received;
use ld_tree::{Iri, Raw};
use std::alloc::Global;

/// What a request asks for, which stands in a history.
#[derive(Debug, Drop)]
pub enum Request {
    /// What the algorithms give for a document.
    Evaluation { op: Op, envelope: Envelope },
    /// That the stored context of this IRI is loaded anew.
    Revision(Iri),
    /// That the stored context of this IRI goes out.
    Eviction(Iri),
}

/// What an item asks for.
#[derive(Debug, Drop)]
pub enum Asking {
    /// It is a request.
    Recorded(Request),
    /// Nothing that stands in a history: it is answered so.
    Unrecorded(Outcome),
}

/// Reads the item's body as what its path takes. A body that isn't that, and one for which there is no memory, stands in no
/// history.
pub fn hear(alloc: Global, item: &Received) -> Asking
    ensures { IsAsked (item_of item.now) (asked_of result) }
{
    match item {
        Received::Ask { path, body } => hear_at(alloc, *path, body),
        Received::Bad { status } => Asking::Unrecorded(Outcome::Bad { status: *status }),
    }
}

fn hear_at(alloc: Global, path: Path, body: &Raw) -> Asking
    ensures { IsAskedAt path body.now (asked_of result) }
{
    match path {
        Path::Expand => evaluation(alloc, path, Op::Expand, body),
        Path::Compact => evaluation(alloc, path, Op::Compact, body),
        Path::Flatten => evaluation(alloc, path, Op::Flatten, body),
        Path::Revise => match read_target(alloc, body.as_slice()) {
            Ok(iri) => Asking::Recorded(Request::Revision(iri)),
            Err(refusal) => refused(alloc, path, body, &refusal),
        },
        Path::Evict => match read_target(alloc, body.as_slice()) {
            Ok(iri) => Asking::Recorded(Request::Eviction(iri)),
            Err(refusal) => refused(alloc, path, body, &refusal),
        },
    }
}

fn evaluation(alloc: Global, path: Path, op: Op, body: &Raw) -> Asking
    requires { operation path ≡ Some op }
    ensures { IsAskedAt path body.now (asked_of result) }
{
    match read_envelope(alloc, op, body.as_slice()) {
        Ok(envelope) => Asking::Recorded(Request::Evaluation { op, envelope }),
        Err(refusal) => refused(alloc, path, body, &refusal),
    }
}

// The body is refused so at its path.
fn refused(alloc: Global, path: Path, body: &Raw, refusal: &EnvelopeRefusal) -> Asking
    requires { IsRefusedAt path body.now refusal.now }
    ensures { IsAskedAt path body.now (asked_of result) }
{
    match refusal_body(alloc, refusal) {
        Ok(Some(tree)) => Asking::Unrecorded(Outcome::BadBody(tree)),
        Ok(None) | Err(_) => Asking::Unrecorded(Outcome::NoMemory),
    }
}
