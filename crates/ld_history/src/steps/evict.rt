//! A request wants a context out of the store.
ghost use Rattle.std.specs.Prelude.{◌≡◌, true, [], ◌∷◌, ◌++◌, None, IfOk, OnOk, OnErr};
ghost use Rattle.ld_history.specs.Legal as legal;
ghost use Rattle.ld_history.specs.ByTurns.{allows};
ghost use Rattle.ld_history.specs.After.{after};
ghost use Rattle.ld_history.specs.Plans.{told_out};
ghost use Rattle.ld_history.specs.Steps.{Answers, grown, evict_step, plain};

use crate::answers::EvictAnswer;
use crate::event::{Event, How};
use crate::name::Name;
use crate::plans::EvictPlan;
use crate::refusal::StepRefusal;
use crate::state::{State, append};
use crate::steps::plain;
use ld_tree::{Iri, NoMemory};
use std::alloc::Global;

impl State {
    /// The request wants a context out of the store, and is answered. Not allowed where the session's
    /// last own event isn't Pinned.
    pub fn evict(
        &mut self,
        alloc: Global,
        session: u32,
        iri: Iri,
    ) -> Result<EvictAnswer, StepRefusal>
        ensures answered { IfOk result (Answers (evict_step self.old session iri)) }
        ensures appended { OnOk result (self.new ≡ grown self.old (evict_step self.old session iri)) }
        ensures refused { result ≡ Err StepRefusal.NotAllowed → evict_step self.old session iri ≡ None }
        ensures unchanged { OnErr result (self.new ≡ self.old) }
    {
        let iri = self.tables.name(alloc, iri)?;
        let Some(plan) = self.tables.evicting(session, &iri) else {
            return Err(StepRefusal::NotAllowed);
        };
        match plan {
            EvictPlan::One { answer, event } => {
                append(alloc, self, plain(event))?;
                Ok(answer)
            }
            EvictPlan::Evict { request, version } => {
                evict(self, session, request, iri, version)?;
                Ok(EvictAnswer::Evicted { version })
            }
        }
    }
}

/// Appends the Evicted and its request's Answered, or none.
fn evict(
    state: &mut State,
    session: u32,
    request: u32,
    iri: Name,
    version: u64,
) -> Result<(), NoMemory>
    requires out { allows state.old.limits (legal.state state.old.entries) (plain (Event.Evicted session iri version)) ≡ true }
    requires told { allows state.old.limits (after (legal.state state.old.entries) (plain (Event.Evicted session iri version))) (plain (told_out session request version)) ≡ true }
    ensures appended { OnOk result (state.new ≡ record state.old { entries = state.old.entries ++ plain (Event.Evicted session iri version) ∷ plain (told_out session request version) ∷ [] }) }
    ensures unchanged { OnErr result (state.new ≡ state.old) }
{
    state.tables.evict(session, &iri, version)?;
    let gone = Event::Evicted {
        session,
        iri,
        version,
    };
    let told = Event::Answered {
        session,
        request,
        how: How::Evicted { version },
    };
    state.history.push(plain(gone));
    state.history.push(plain(told));
    Ok(())
}
