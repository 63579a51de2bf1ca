//! How a session ends.

/// How the session of a connection ends.
#[derive(Clone, Copy, Debug, PartialEq, Eq)]
pub enum SessionEnd {
    /// The input ended between requests, or a request closed the connection.
    Closed,
    /// The input ended inside a head or a body.
    Truncated,
    /// A head was refused with this status, which closes: 400, 411, 413, 417 or 431.
    BadHead(u16),
    /// A read failed.
    ReadFault,
    /// A write failed.
    WriteFault,
    /// The history has no room for one more request, after so many events.
    HistoryFull { events: u64 },
    /// An allocation failed.
    NoMemory,
}
