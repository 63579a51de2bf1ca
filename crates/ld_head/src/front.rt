//! The items of a connection whose bytes are at hand. Nothing here takes memory.
ghost use Rattle.std.specs.Prelude.{◌≡◌};
ghost use Rattle.ld_head.specs.Dialogues.{Opens, Shuts, bad, opened};
ghost use Rattle.ld_head.specs.Heads.{Verdict, Says};
ghost use Rattle.ld_head.specs.Reading.{opening_of};

use crate::dialogue::{Ending, Item, Marks};
use crate::finding::{Place, Searched, find_end};
use crate::seen::inspect;

/// What comes next in the bytes of a connection.
#[derive(Clone, Copy, Debug)]
pub enum Next<'b> {
    /// The bytes end before another item is whole.
    Ended(Ending),
    /// An item that closes.
    Last(Item<'b>, Marks),
    /// An item, and the bytes after it.
    Item(Item<'b>, Marks, &'b [u8]),
}

/// What bytes begin with, which are all that comes after the first `n` items of a connection.
pub fn next_item(n: u32, bytes: &[u8]) -> Next<'_>
    ensures { Opens n bytes.now (opening_of result) }
{
    match find_end(0, Place::Before, bytes) {
        Searched::Goes(place) => Next::Ended(place.ending()),
        Searched::Full => bad_item(431, false),
        Searched::Ended(end) => {
            let (block, after) = bytes.split_at(end);
            item_after(n, block, after)
        }
    }
}

// The item of a head that is refused.
fn bad_item<'b>(status: u16, was_head: bool) -> Next<'b>
    ensures { opening_of result ≡ Shuts (bad status was_head) }
{
    let marks = Marks {
        interim: false,
        closes: true,
        head_alone: was_head,
    };
    Next::Last(Item::Bad { status }, marks)
}

// What a head says, with the bytes after it.
fn item_after<'b>(n: u32, block: &[u8], after: &'b [u8]) -> Next<'b>
    ensures { (v : Verdict) × Says block.now v × (opening_of result ≡ opened n v after.now) }
{
    let head = match inspect(block) {
        Err(refused) => return bad_item(refused.status, refused.was_head),
        Ok(head) => head,
    };
    let length = head.length as usize;
    if after.len() < length {
        return Next::Ended(Ending::Inside {
            interim: head.interim,
        });
    }
    let (body, rest) = after.split_at(length);
    let (item, marks) = (head.item(body), head.marks(n));
    if marks.closes {
        Next::Last(item, marks)
    } else {
        Next::Item(item, marks, rest)
    }
}
