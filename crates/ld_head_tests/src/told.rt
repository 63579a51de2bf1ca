//! What the tests read of an item.

use ld_head::{Item, Marks, Next, next_item};

/// The marks of an item with no mark.
pub const PLAIN: Marks = Marks {
    interim: false,
    closes: false,
    head_alone: false,
};

/// What the first item of a connection is: its status, 200 for one that is asked, and its marks.
pub fn first_of(bytes: &[u8]) -> Option<(u16, Marks)> {
    match next_item(0, bytes) {
        Next::Ended(_) => None,
        Next::Last(item, marks) | Next::Item(item, marks, _) => match item {
            Item::Ask { .. } => Some((200, marks)),
            Item::Bad { status } => Some((status, marks)),
        },
    }
}
