//! How the requests of a round were answered.
ghost use Rattle.std.specs.Prelude.{◌≡◌, ◌<◌, ◌∷◌, [], false, MatchOption};
ghost use Rattle.ld_revise.specs.Rounds.{is_counted};
ghost use Rattle.ld_revise.specs.Walking.{Sums, nothing, total};

use ld_head::Outcome;

/// How many requests of a round were answered so.
#[derive(Clone, Copy, Debug, PartialEq, Eq)]
pub struct Tally {
    /// The context was loaded anew and differs, which made a version.
    pub revised: u32,
    /// It was loaded anew and is the same.
    pub same: u32,
    /// Its load failed.
    pub failed: u32,
    /// It went out meanwhile, or is being loaded anew by another, or there is no room for its text.
    pub refused: u32,
}

impl Tally {
    /// No request was answered yet.
    pub(crate) fn new() -> Tally
        ensures { result ≡ nothing }
    {
        Tally {
            revised: 0,
            same: 0,
            failed: 0,
            refused: 0,
        }
    }

    /// The tally with one more request, which was answered so. None where that isn't counted.
    pub(crate) fn with(self, outcome: &Outcome) -> Option<Tally>
        requires few { total self < 4294967295 }
        ensures { MatchOption result (is_counted outcome.now ≡ false) (Sums self (outcome.now ∷ [])) }
    {
        let mut more = self;
        match outcome {
            Outcome::Revised { .. } => more.revised += 1,
            Outcome::Same { .. } => more.same += 1,
            Outcome::LoadFault(_) => more.failed += 1,
            Outcome::NotStored { .. } | Outcome::Flying { .. } | Outcome::ArchiveFull { .. } => {
                more.refused += 1
            }
            _ => return None,
        }
        Some(more)
    }
}
