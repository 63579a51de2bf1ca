//! A request lacks a context.
ghost use Rattle.std.specs.Prelude.{◌≡◌, true, [], ◌∷◌, ◌++◌, None, IfOk, OnOk, OnErr};
ghost use Rattle.ld_history.specs.Legal as legal;
ghost use Rattle.ld_history.specs.ByTurns.{allows};
ghost use Rattle.ld_history.specs.After.{after};
ghost use Rattle.ld_history.specs.Plans.{goes_out, comes_in, lack_planned};
ghost use Rattle.ld_history.specs.Steps.{Answers, grown, lack_step, out_at, out_for, plain};

use crate::answers::{LackAnswer, Out};
use crate::event::Event;
use crate::name::Name;
use crate::plans::{LackPlan, Replacement};
use crate::refusal::StepRefusal;
use crate::state::{State, append};
use crate::steps::plain;
use ld_tree::{Iri, NoMemory};
use std::alloc::Global;

impl State {
    /// The request lacks a context at its pinned version. Not allowed where the session's last own event
    /// isn't Pinned, the pinned version has the IRI, or the IRI has more than 2,048 bytes.
    pub fn lack(&mut self, alloc: Global, session: u32, iri: Iri) -> Result<LackAnswer, StepRefusal>
        ensures answered { IfOk result (Answers (lack_step self.old session iri)) }
        ensures appended { OnOk result (self.new ≡ grown self.old (lack_step self.old session iri)) }
        ensures refused { result ≡ Err StepRefusal.NotAllowed → lack_step self.old session iri ≡ None }
        ensures unchanged { OnErr result (self.new ≡ self.old) }
    {
        let iri = self.tables.name(alloc, iri)?;
        let Some(plan) = self.tables.lacking(&self.limits, session, &iri)? else {
            return Err(StepRefusal::NotAllowed);
        };
        match plan {
            LackPlan::One { answer, event } => {
                append(alloc, self, plain(event))?;
                Ok(answer)
            }
            LackPlan::Replace(r) => {
                let flight = r.flight;
                let out = Out {
                    iri: r.out.share()?,
                    version: r.version,
                };
                replace(alloc, self, r)?;
                Ok(LackAnswer::Led {
                    flight,
                    out: Some(out),
                })
            }
        }
    }
}

impl State {
    /// What goes out of the store where the request lacks this context, if anything does. Nothing is appended.
    pub fn out_of_lack(&self, session: u32, iri: &Name) -> Result<Option<Out>, NoMemory>
        ensures { IfOk result (λ out. out ≡ out_at (lack_step self.now session iri.now)) }
    {
        match self.tables.lacking(&self.limits, session, iri)? {
            Some(plan) => Ok(plan.into_out()),
            None => Ok(None),
        }
    }
}

impl LackPlan {
    /// What goes out of the store.
    fn into_out(self) -> Option<Out>
        ensures { result ≡ out_for (lack_planned self).answer }
    {
        match self {
            LackPlan::One { answer, event: _ } => answer.into_out(),
            LackPlan::Replace(r) => Some(Out {
                iri: r.out,
                version: r.version,
            }),
        }
    }
}

impl LackAnswer {
    fn into_out(self) -> Option<Out>
        ensures { result ≡ out_for self }
    {
        match self {
            LackAnswer::Led { flight: _, out } => out,
            _ => None,
        }
    }
}

/// Appends both events, or none.
fn replace(alloc: Global, state: &mut State, r: Replacement) -> Result<(), NoMemory>
    requires out { allows state.old.limits (legal.state state.old.entries) (plain (goes_out r)) ≡ true }
    requires led { allows state.old.limits (after (legal.state state.old.entries) (plain (goes_out r))) (plain (comes_in r)) ≡ true }
    ensures appended { OnOk result (state.new ≡ record state.old { entries = state.old.entries ++ plain (goes_out r) ∷ plain (comes_in r) ∷ [] }) }
    ensures unchanged { OnErr result (state.new ≡ state.old) }
{
    state.tables.replace(alloc, &r)?;
    let Replacement {
        session,
        out,
        version,
        iri,
        flight,
    } = r;
    let gone = Event::Evicted {
        session,
        iri: out,
        version,
    };
    let led = Event::Led {
        session,
        iri,
        flight,
    };
    state.history.push(plain(gone));
    state.history.push(plain(led));
    Ok(())
}
