//! Replies, and how they are written.
ghost use Rattle.std.specs.Prelude.{◌≡◌, ◌++◌, OnOk, OnErr, IfOk};
ghost use Rattle.ld_head.specs.Outcomes.{reply_of};
ghost use Rattle.ld_head.specs.Replies.{head_text, media_text, reply_text};

use crate::body::body_text;
use crate::dialogue::Marks;
use crate::outcome::Outcome;
use crate::print::{print_field, print_field_if, print_number, print_request_fields, print_status};
use bytes::BytesMut;
use ld_tree::{NoMemory, Raw};
use std::alloc::Global;

// The longest head has fewer bytes.
const HEAD_ROOM: usize = 256;

/// What a body is.
#[derive(Clone, Copy, Debug, PartialEq, Eq)]
pub enum Media {
    /// `application/ld+json`.
    LdJson,
    /// `application/json`.
    Json,
}

impl Media {
    pub(crate) fn text(self) -> &'static str
        ensures { result.now ≡ media_text self }
    {
        match self {
            Media::LdJson => "application/ld+json",
            Media::Json => "application/json",
        }
    }
}

/// A reply (RFC 9112, section 4).
#[derive(Debug, Drop)]
pub struct Reply {
    pub status: u16,
    pub media: Media,
    /// `LD-Request` and `LD-Version`: the request's number in its session, and the version of its last pin.
    pub fields: Option<(u32, u64)>,
    /// `Allow: POST` is there.
    pub allow: bool,
    /// `Connection: close` is there.
    pub close: bool,
    /// The body is left out. `Content-Length` is the body's all the same.
    pub head_alone: bool,
    pub body: Raw,
}

impl Reply {
    /// The reply to a request that came to this: `fields` are its number and the version of its last pin, which are left
    /// out where it stands in no history, and the marks are the request's.
    pub fn new(
        alloc: Global,
        fields: Option<(u32, u64)>,
        outcome: &Outcome,
        marks: Marks,
    ) -> Result<Reply, NoMemory>
        ensures { IfOk result (λ r. r ≡ reply_of fields outcome.now marks) }
    {
        Ok(Reply {
            status: outcome.status(),
            media: outcome.media(),
            fields: if outcome.is_recorded() { fields } else { None },
            allow: outcome.names_allowed(),
            close: outcome.always_closes() || marks.closes,
            head_alone: marks.head_alone,
            body: body_text(alloc, outcome)?,
        })
    }
}

/// Appends the bytes of the reply. Where memory is wanting, nothing is appended.
pub fn write_reply(reply: &Reply, out: &mut BytesMut) -> Result<(), NoMemory>
    ensures appended { OnOk result (out.new.items ≡ out.old.items ++ reply_text reply.now) }
    ensures unchanged { OnErr result (out.new.items ≡ out.old.items) }
{
    let head = head_text(*out.allocator(), reply)?;
    let body: &[u8] = if reply.head_alone {
        &[]
    } else {
        reply.body.as_slice()
    };
    out.reserve(head.len() + body.len())?;
    out.extend_reserved(&head);
    out.extend_reserved(body);
    Ok(())
}

fn head_text(alloc: Global, reply: &Reply) -> Result<Vec<u8>, NoMemory>
    ensures { IfOk result (λ head. head.items ≡ head_text reply.now) }
{
    let mut head = Vec::with_capacity(alloc, HEAD_ROOM)?;
    print_status(reply.status, &mut head)?;
    print_field(b"Content-Type", reply.media.text().as_bytes(), &mut head)?;
    print_number(
        b"Content-Length",
        reply.body.as_slice().len() as u64,
        &mut head,
    )?;
    print_request_fields(reply.fields, &mut head)?;
    print_field_if(reply.allow, b"Allow", b"POST", &mut head)?;
    print_field_if(reply.close, b"Connection", b"close", &mut head)?;
    head.extend_from_slice(b"\r\n")?;
    Ok(head)
}
