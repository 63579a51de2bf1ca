//! Request heads.
ghost use Rattle.std.specs.Prelude.{◌≡◌};
ghost use Rattle.ld_head.specs.Dialogues.{asked, marks_of};
ghost use Rattle.ld_head.specs.Heads.{Answers};
ghost use Rattle.ld_head.specs.Reading.{head_of, item_of};
ghost use Rattle.ld_head.specs.declared.head.HeadRefusal.TheVariants as refusal;

use crate::dialogue::{Item, Marks};
use crate::seen::{Seen, inspect};
use ld_tree::{NoMemory, Text};
use std::alloc::Global;

/// What a good request head says (RFC 9112, sections 3 to 6).
#[derive(Debug, Drop)]
pub struct Head {
    /// The method, as it stands.
    pub method: Text,
    /// The request target, as it stands, with its query if it has one.
    pub path: Text,
    /// How many bytes the body has, at most 4,194,304.
    pub length: u32,
    /// The interim text is due before the body is read (RFC 9110, section 10.1.1).
    pub interim: bool,
    /// The head asks that the connection closes after the reply.
    pub closes: bool,
}

/// Why a block is answered with no head.
#[derive(Debug, Drop)]
pub enum HeadRefusal {
    /// The reply has this status, and the connection closes after it.
    Status {
        status: u16,
        /// The method was HEAD, so that the reply is a head alone.
        was_head: bool,
    },
    /// An allocation failed.
    NoMemory,
}

impl From<NoMemory> for HeadRefusal {
    ghost from_gives = { λ _ r. r ≡ refusal.NoMemory };

    fn from(_e: NoMemory) -> HeadRefusal {
        HeadRefusal::NoMemory
    }
}

/// What the block of a head says, with the empty lines before it and the one that ends it. A refusal has the status of
/// the first check that fails, of these in this order:
///
/// - 400: the block is no request head with at most 64 fields; it is of HTTP/1.1 and has not exactly one `Host`; it has
///   several `Content-Length`, or one that isn't decimal digits.
/// - 411: it has a `Transfer-Encoding`, or it is a POST without `Content-Length`.
/// - 413: `Content-Length` is above 4,194,304.
/// - 417: it is of HTTP/1.1 and has an `Expect` other than `100-continue`, in any case of letters.
pub fn read_head(alloc: Global, block: &[u8]) -> Result<Head, HeadRefusal>
    ensures { Answers block.now result }
{
    match inspect(block) {
        Ok(seen) => Ok(Head {
            method: Text::from_str(alloc, seen.method)?,
            path: Text::from_str(alloc, seen.path)?,
            length: seen.length,
            interim: seen.interim,
            closes: seen.closes,
        }),
        Err(refused) => Err(HeadRefusal::Status {
            status: refused.status,
            was_head: refused.was_head,
        }),
    }
}

impl Head {
    pub(crate) fn as_seen(&self) -> Seen<'_>
        ensures { head_of result ≡ self.now }
    {
        Seen {
            method: self.method.as_str(),
            path: self.path.as_str(),
            length: self.length,
            interim: self.interim,
            closes: self.closes,
        }
    }

    /// What the head asks with this body: 404 where the path isn't there, else 405 where the method isn't POST.
    pub fn item<'b>(&self, body: &'b [u8]) -> Item<'b>
        ensures { item_of result ≡ asked self.now body.now }
    {
        self.as_seen().item(body)
    }

    /// The marks of the head's item, which is item `n` of its connection, counted from 0. The 65,536th closes.
    pub fn marks(&self, n: u32) -> Marks
        ensures { result ≡ marks_of n self.now }
    {
        self.as_seen().marks(n)
    }
}
