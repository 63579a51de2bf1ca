//! A whole dialogue in short.
ghost use Rattle.ld_head.specs.Reading.{IsOutline};

use crate::dialogue::Ending;
use crate::front::{Next, next_item};

/// How many items a connection has, and how it ends.
#[derive(Clone, Copy, Debug, PartialEq, Eq)]
pub struct Summary {
    /// At most 65,536.
    pub items: u32,
    pub ending: Ending,
}

/// What all the bytes of a connection say, in short. It takes no memory and has no other answer, so any bytes say a
/// dialogue; by the law `one_dialogue` they say no other.
pub fn outline(bytes: &[u8]) -> Summary
    ensures { IsOutline bytes.now result }
{
    let mut rest = bytes;
    let mut items = 0;
    loop {
        match next_item(items, rest) {
            Next::Ended(ending) => return Summary { items, ending },
            Next::Last(_, _) => {
                return Summary {
                    items: items + 1,
                    ending: Ending::Shut,
                };
            }
            Next::Item(_, _, after) => rest = after,
        }
        items += 1;
    }
}
