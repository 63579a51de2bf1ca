//! What comes of a request that wants a context out of the store.
ghost use Rattle.std.specs.Prelude.{◌≡◌, option_map, List, ℕ};
ghost use Rattle.ld_history.specs.Seen.{seen};
ghost use Rattle.ld_history.specs.Steps as steps;
ghost use Rattle.ld_history.specs.Choices.{CanCount};
ghost use Rattle.ld_history.specs.Plans.{evict_found, evict_taken};
ghost use Rattle.ld_history.specs.Words.{at_iri, least_holder};

use crate::answers::EvictAnswer;
use crate::event::{Event, How};
use crate::name::Name;
use crate::plans::EvictPlan;
use crate::session::Session;
use crate::tables::Tables;

impl Tables {
    /// None where the session's last own event isn't Pinned.
    pub fn evicting(&self, session: u32, iri: &Name) -> Option<EvictPlan>
        requires { CanCount (seen self.now) }
        ensures { option_map (evict_taken session iri.now) result ≡ evict_found (seen self.now) session iri.now }
    {
        match self.session(session) {
            Some(s) => if s.last.is_pinned() {
                Some(self.evicting_stored(session, iri, s))
            } else {
                None
            },
            None => None,
        }
    }

    fn evicting_stored(&self, session: u32, iri: &Name, s: &Session) -> EvictPlan
        requires { CanCount (seen self.now) }
        ensures { evict_taken session iri.now result ≡ steps.evicting_stored (seen self.now) session iri.now s.now }
    {
        if self.is_stored(iri) {
            return self.evicting_unheld(session, iri, s);
        }
        let version = self.version;
        let answer = EvictAnswer::NotStored { version };
        refusing(session, s, answer, How::NotStored { version })
    }

    fn evicting_unheld(&self, session: u32, iri: &Name, s: &Session) -> EvictPlan
        requires { CanCount (seen self.now) }
        ensures { evict_taken session iri.now result ≡ steps.evicting_unheld (seen self.now) session iri.now s.now (least_holder (seen self.now) iri.now) }
    {
        match self.least_holder(iri) {
            Some(holder) => {
                let answer = EvictAnswer::Held { session: holder };
                refusing(session, s, answer, How::Held { session: holder })
            }
            None => self.evicting_unrevised(session, iri, s),
        }
    }

    fn evicting_unrevised(&self, session: u32, iri: &Name, s: &Session) -> EvictPlan
        requires { CanCount (seen self.now) }
        ensures { evict_taken session iri.now result ≡ steps.evicting_unrevised (seen self.now) session iri.now s.now (at_iri (seen self.now).revisions iri.now) }
    {
        match self.revisions.get(iri) {
            Some(revision) => {
                let flight = revision.flight;
                let answer = EvictAnswer::Revising { flight };
                refusing(session, s, answer, How::Revising { flight })
            }
            None => EvictPlan::Evict {
                request: s.request,
                version: self.version + 1,
            },
        }
    }
}

fn refusing(session: u32, s: &Session, answer: EvictAnswer, how: How<Name>) -> EvictPlan
    ensures { (iri : List ℕ) → evict_taken session iri result ≡ steps.ending session s.now answer how }
{
    let request = s.request;
    EvictPlan::One {
        answer,
        event: Event::Answered {
            session,
            request,
            how,
        },
    }
}
