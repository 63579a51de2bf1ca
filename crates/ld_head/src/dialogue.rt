//! What a connection says, item after item.

use crate::path::Path;

/// What is asked.
#[derive(Clone, Copy, Debug)]
pub enum Item<'b> {
    /// A request of the path, with its body.
    Ask { path: Path, body: &'b [u8] },
    /// A request that is refused with this status before its body is looked at: 404 and 405, and those of heads that
    /// are refused (400, 411, 413, 417, 431), which close.
    Bad { status: u16 },
}

/// What goes with an item.
#[derive(Clone, Copy, Debug, PartialEq, Eq)]
pub struct Marks {
    /// The interim text is due before the reply (RFC 9110, section 15.2.1).
    pub interim: bool,
    /// The connection closes after the reply.
    pub closes: bool,
    /// The request was a HEAD, so that the reply is a head alone (RFC 9110, section 9.3.2).
    pub head_alone: bool,
}

/// How the input of a connection ends.
#[derive(Clone, Copy, Debug, PartialEq, Eq)]
pub enum Ending {
    /// Before a request, perhaps after whole empty lines.
    Between,
    /// Inside a head or a body.
    Inside {
        /// The head was whole, and the interim text is due.
        interim: bool,
    },
    /// Behind an item that closes. What comes after it isn't looked at.
    Shut,
}
