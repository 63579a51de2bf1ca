//! What answers requests.
ghost use Rattle.std.specs.Prelude.{ℕ};
ghost use Rattle.ld_fits.specs.Play.{Stage};
ghost use Rattle.ld_talk.specs.Hearing.{requested};
ghost use Rattle.ld_talk.specs.Talking.{IsReplied};

use crate::hearing::Request;
use ld_head::Outcome;
use std::alloc::Global;

/// What came of a request.
#[derive(Debug, Drop)]
pub enum Replied {
    /// It was answered: its number in its session, the version of its last pin, and what it came to.
    Answered {
        number: u32,
        version: u64,
        outcome: Outcome,
    },
    /// There was no memory to begin it. It stands in no history.
    Unmade,
    /// The history has no room for it, after so many events.
    HistoryFull {
        events: u64,
    },
}

/// A session that answers the requests of a connection, one after another. Nothing else of a talk depends on it.
pub trait Requests: Sized {
    /// What the session works with and doesn't own, as its loader.
    type Outside;

    /// From what the session and its outside were to what they are, its own entries in the history lead from one stage to
    /// another.
    ghost moves: { Self → Self.Outside → Self → Self.Outside → Stage → Stage → Type 0 };

    /// The history has no room for one more request, after so many events.
    ghost full: { Self → ℕ → Type 0 };

    ghost moves_none: { (session : Self) (outside : Self.Outside) (stage : Stage) → moves session outside session outside stage stage };

    ghost moves_more: { (a b c : Self) (x y z : Self.Outside) (p q r : Stage) → moves a x b y p q → moves b y c z q r → moves a x c z p r };

    /// Answers a request.
    fn request(
        self,
        alloc: Global,
        outside: &mut Self::Outside,
        request: Request,
    ) -> (Self, Replied)
        ensures { IsReplied (moves self outside.old result.0 outside.new) (full result.0) (requested request) result.1 };
}
