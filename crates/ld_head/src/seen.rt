//! A head as it lies in its block, and the checks in their order. Nothing here takes memory.
ghost use Rattle.std.specs.Prelude.{◌≡◌, map, codes};
ghost use Rattle.httparse.specs.Borrowed.{header_parts};
ghost use Rattle.http1.specs.Fields.{values_named};
ghost use Rattle.ld_head.specs.Dialogues.{asked, marks_of};
ghost use Rattle.ld_head.specs.Heads.{Says, judged, is_said_once};
ghost use Rattle.ld_head.specs.Reading.{head_of, item_of, verdict_of};

use crate::dialogue::{Item, Marks};
use crate::field::{all_expect_well, is_absent, lists_close, next_value};
use crate::path::Path;
use crate::told::{has_good_length, told_length};
use httparse::{EMPTY_HEADER, Header, Request, Status};

const MOST_FIELDS: usize = 64;

const LAST_ITEM: u32 = 65_535;

/// A head that passed the checks.
#[derive(Clone, Copy, Debug)]
pub(crate) struct Seen<'b> {
    pub(crate) method: &'b str,
    pub(crate) path: &'b str,
    pub(crate) length: u32,
    pub(crate) interim: bool,
    pub(crate) closes: bool,
}

/// The status of the first check that failed.
#[derive(Clone, Copy, Debug)]
pub(crate) struct Refused {
    pub(crate) status: u16,
    pub(crate) was_head: bool,
}

impl<'s> Seen<'s> {
    pub(crate) fn item<'b>(self, body: &'b [u8]) -> Item<'b>
        ensures { item_of result ≡ asked (head_of self.entry) body.now }
    {
        match Path::from_target(self.path) {
            None => Item::Bad { status: 404 },
            Some(path) if self.method == "POST" => Item::Ask { path, body },
            Some(_) => Item::Bad { status: 405 },
        }
    }

    pub(crate) fn marks(self, n: u32) -> Marks
        ensures { result ≡ marks_of n (head_of self.entry) }
    {
        Marks {
            interim: self.interim,
            closes: self.closes || LAST_ITEM <= n,
            head_alone: self.method == "HEAD",
        }
    }
}

/// The head of the block, or why it is refused.
pub(crate) fn inspect(block: &[u8]) -> Result<Seen<'_>, Refused>
    ensures { Says block.now (verdict_of result) }
{
    const BAD: Refused = Refused {
        status: 400,
        was_head: false,
    };
    let mut fields = [EMPTY_HEADER; MOST_FIELDS];
    let mut request = Request::new(&mut fields);
    let len = match request.parse(block) {
        Ok(Status::Complete(len)) => len,
        Ok(Status::Partial) => return Err(BAD),
        Err(_) => return Err(BAD),
    };
    if len != block.len() || request.headers.len() > MOST_FIELDS {
        return Err(BAD);
    }
    match (request.method, request.path, request.version) {
        (Some(method), Some(path), Some(minor)) => judge(method, path, minor, request.headers),
        _ => Err(BAD),
    }
}

fn has_one_host(fields: &[Header<'_>]) -> bool
    ensures { result ≡ is_said_once (values_named (codes "host") (map header_parts fields.now)) }
{
    match next_value(fields, b"host") {
        None => false,
        Some((_, rest)) => next_value(rest, b"host").is_none(),
    }
}

/// The verdict on the parts of a head.
fn judge<'b>(
    method: &'b str,
    path: &'b str,
    minor: u8,
    fields: &[Header<'_>],
) -> Result<Seen<'b>, Refused>
    ensures { verdict_of result ≡ judged (record { method = method.now; target = path.now; minor = minor; fields = map header_parts fields.now }) }
{
    let was_head = method == "HEAD";
    let refuse = |status| Err(Refused { status, was_head });
    if !((minor == 0 || has_one_host(fields)) && has_good_length(fields)) {
        return refuse(400);
    }
    if !is_absent(fields, b"transfer-encoding")
        || (method == "POST" && is_absent(fields, b"content-length"))
    {
        return refuse(411);
    }
    let Some(length) = told_length(fields) else {
        return refuse(413);
    };
    if minor != 0 && !all_expect_well(fields) {
        return refuse(417);
    }
    Ok(Seen {
        method,
        path,
        length,
        interim: minor != 0 && !is_absent(fields, b"expect"),
        closes: minor == 0 || lists_close(fields),
    })
}
