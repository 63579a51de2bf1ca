//! How a request ends by itself.
ghost use Rattle.std.specs.Prelude.{◌≡◌};
ghost use Rattle.ld_history.specs.Seen.{seen};
ghost use Rattle.ld_history.specs.Steps as steps;

use crate::event::How;
use crate::name::Name;
use crate::session::{End, Last};
use crate::tables::Tables;

impl Tables {
    /// The outcome of a session's request, by its last own event.
    pub fn outcome(&self, session: u32) -> Option<How<Name>>
        ensures { result ≡ steps.of_session (seen self.now) session (λ s. steps.outcome_of (seen self.now) s.last) }
    {
        match self.session(session) {
            Some(s) => self.outcome_of(s.last),
            None => None,
        }
    }

    fn outcome_of(&self, last: Last) -> Option<How<Name>>
        ensures { result ≡ steps.outcome_of (seen self.now) last }
    {
        match last {
            Last::Pinned => Some(How::Done),
            Last::Led { flight } | Last::Joined { flight } => {
                load_outcome(flight, self.end_of(flight))
            }
            Last::Evicted { version } => Some(How::Evicted { version }),
            Last::ReviseLed { flight } => revision_outcome(flight, self.end_of(flight)),
            Last::Idle | Last::Found => None,
        }
    }
}

fn load_outcome(flight: u32, end: Option<End>) -> Option<How<Name>>
    ensures { result ≡ steps.load_outcome flight end }
{
    match end {
        Some(End::Failed { .. }) => Some(How::LoadFault { flight }),
        Some(End::Lapsed) => Some(How::NoMemory),
        _ => None,
    }
}

fn revision_outcome(flight: u32, end: Option<End>) -> Option<How<Name>>
    ensures { result ≡ steps.revision_outcome flight end }
{
    match end {
        Some(End::Published { version }) => Some(How::Revised { version }),
        Some(End::Same) => Some(How::Same),
        Some(End::Failed { .. }) => Some(How::LoadFault { flight }),
        Some(End::Lapsed) => Some(How::NoMemory),
        _ => None,
    }
}
