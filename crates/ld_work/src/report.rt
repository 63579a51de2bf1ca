//! What is told of a round of revisions.
use ld_revise::RoundEnd;

/// What came of a round of revisions.
#[derive(Clone, Copy, Debug, PartialEq, Eq)]
pub struct RoundReport {
    /// The number of its session, where one was opened.
    pub session: Option<u32>,
    pub end: RoundEnd,
    /// How many of its requests were answered so.
    pub revised: u32,
    pub same: u32,
    pub failed: u32,
    pub refused: u32,
}
