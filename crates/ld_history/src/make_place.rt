//! What goes out of the store together with the event that follows on it.
ghost use Rattle.std.specs.Prelude.{◌≡◌, ◌+◌, ◌^◌, ◌<◌, ◌≤◌, length, None, OnOk, OnErr};
ghost use Rattle.ld_history.specs.Words.{at_iri};
ghost use Rattle.ld_history.specs.After as after;
ghost use Rattle.ld_history.specs.Plans as plans;
ghost use Rattle.ld_history.specs.Steps.{plain};
ghost use Rattle.ld_history.specs.Seen.{seen};

use crate::changes::{leave, turn};
use crate::name::Name;
use crate::plans::Replacement;
use crate::tables::Tables;
use ld_tree::{Items, NoMemory};
use std::alloc::Global;
use std::collections::BTreeMap;

impl Tables {
    /// The tables after an Evicted and the Led for which it makes a place.
    pub fn replace(&mut self, alloc: Global, r: &Replacement) -> Result<(), NoMemory>
        requires version { self.old.version ≤ r.now.version }
        requires absent { at_iri (seen self.old).leads r.now.iri ≡ None }
        requires fits { self.old.bytes + length r.now.iri < 2 ^ 64 }
        requires events { self.old.events + 2 < 2 ^ 64 }
        ensures ok { OnOk result (seen self.new ≡ after.after (after.after (seen self.old) (plain (plans.goes_out r.now))) (plain (plans.comes_in r.now))) }
        ensures unchanged { OnErr result (seen self.new ≡ seen self.old) }
    {
        self.share_text(&r.iri)?;
        self.swap(alloc, r)
    }

    // What wants memory comes first, so that it can be undone with none.
    fn swap(&mut self, alloc: Global, r: &Replacement) -> Result<(), NoMemory>
        requires version { self.old.version ≤ r.now.version }
        requires absent { at_iri (seen self.old).leads r.now.iri ≡ None }
        requires fits { self.old.bytes + length r.now.iri < 2 ^ 64 }
        requires events { self.old.events + 2 < 2 ^ 64 }
        ensures ok { OnOk result (seen self.new ≡ after.after (after.after (seen self.old) (plain (plans.goes_out r.now))) (plain (plans.comes_in r.now))) }
        ensures unchanged { OnErr result (seen self.new ≡ seen self.old) }
    {
        let former = self.version;
        turn(&mut self.turns, &r.out, r.version)?;
        self.version = r.version;
        if let Err(e) = self.led(alloc, r.session, &r.iri, r.flight) {
            unturn(&mut self.turns, &r.out);
            self.version = former;
            return Err(e);
        }
        leave(&mut self.stored, &mut self.order, &r.out);
        self.events += 2;
        self.evicted = None;
        Ok(())
    }

    /// The tables after an Evicted and the Answered of its request.
    pub fn evict(&mut self, session: u32, iri: &Name, version: u64) -> Result<(), NoMemory>
        requires version { self.old.version ≤ version }
        requires events { self.old.events + 2 < 2 ^ 64 }
        ensures ok { OnOk result (seen self.new ≡ record (after.after_answered (after.after_evicted (seen self.old) session iri.now version) session) { events = self.old.events + 2; evicted = None }) }
        ensures unchanged { OnErr result (seen self.new ≡ seen self.old) }
    {
        self.evicted(session, iri, version)?;
        self.answered(session);
        self.events += 2;
        self.evicted = None;
        Ok(())
    }
}

/// Takes the IRI's last turn away again.
#[tactic(auto, using(std::proofs::lemmas::Map::Steps::set_value_same))]
fn unturn(turns: &mut BTreeMap<Name, Items<u64>>, iri: &Name)
    ensures { turns.new.entries ≡ plans.unturned turns.old.entries iri.now }
{
    if let Some(turns) = turns.get_mut(iri) {
        turns.pop();
    }
}
