//! How flights end, and what is told of them.
ghost use Rattle.std.specs.Prelude.{◌≡◌, ◌+◌, ◌^◌, ◌<◌, true, is_some, Some, IfOk, IfErr, OnOk, OnErr};
ghost use Rattle.std.specs.Option.{option_map};
ghost use Rattle.std.specs.Arc.{arc_value};
ghost use Rattle.ld_flight.specs.declared.loader.Why.TheVariants as whys;
ghost use Rattle.ld_store.specs.Snapshots.{published};
ghost use Rattle.ld_history.specs.Words.{flight_at, same_iri};
ghost use Rattle.ld_history.specs.Rules as rules;
ghost use Rattle.ld_history.specs.Legal.{state};
ghost use Rattle.ld_history.specs.Steps.{fail_step, lapse_step, publish_step};
ghost use Rattle.ld_book.specs.Pages.{after_answer, after_step, given_of, history_of, state_of};
ghost use Rattle.ld_book.specs.Documents.{IsAnswer};
ghost use Rattle.ld_book.specs.Said.{Says, told_end, told_publish};

use crate::allowed::allowed;
use crate::answers::{LookAnswer, PublishAnswer};
use crate::book::Book;
use ld_flight::{Pass, Ready, Refused};
use ld_history::{End, Given, PublishAnswer as Step};
use ld_rec::Doc;
use ld_store::{Placed, Snapshot};
use ld_tree::{Items, NoMemory, Raw};
use std::alloc::Global;
use std::sync::Arc;

impl Book {
    /// A flight's answer came: it comes into the store, or is what is stored. The flight is under way and is of the pass's
    /// IRI. Where memory is wanting the answer comes back.
    pub fn publish(
        &mut self,
        alloc: Global,
        ready: Ready,
    ) -> Result<PublishAnswer, (Ready, NoMemory)>
        requires { rules.on_flight (state_of self.old) ready.pass.number (λ f. same_iri f.iri ready.pass.iri) ≡ true }
        ensures answered { IfOk result (Says told_publish (publish_step (history_of self.old) ready.pass.number (given_of ready))) }
        ensures appended { OnOk result (self.new ≡ after_answer self.old (publish_step (history_of self.old) ready.pass.number (given_of ready)) ready.doc) }
        ensures unchanged { OnErr result (self.new ≡ self.old) }
        ensures back { IfErr result (λ e. e.0 ≡ ready) }
    {
        match self.land(alloc, &ready) {
            Ok(answer) => {
                ready.into_pass().end();
                Ok(answer)
            }
            Err(e) => Err((ready, e)),
        }
    }

    // What is new is made before the history grows.
    fn land(&mut self, alloc: Global, ready: &Ready) -> Result<PublishAnswer, NoMemory>
        requires { rules.on_flight (state_of self.old) ready.now.pass.number (λ f. same_iri f.iri ready.now.pass.iri) ≡ true }
        ensures answered { IfOk result (Says told_publish (publish_step (history_of self.old) ready.now.pass.number (given_of ready.now))) }
        ensures appended { OnOk result (self.new ≡ after_answer self.old (publish_step (history_of self.old) ready.now.pass.number (given_of ready.now)) ready.now.doc) }
        ensures unchanged { OnErr result (self.new ≡ self.old) }
    {
        let flight = ready.pass().flight();
        let given = given_of(alloc, ready)?;
        let doc = share(ready.doc())?;
        // The history is legal, so that the next version has a number.
        let _events = self.state.events();
        let next = after_publish(alloc, &self.snapshot, ready, self.state.version() + 1)?;
        self.documents.reserve(1)?;
        match allowed(self.state.publish(alloc, flight, given))? {
            Step::Published { version } => {
                self.documents.push(doc).unwrap();
                self.snapshot = next;
                Ok(PublishAnswer::Published(version))
            }
            Step::Same => Ok(PublishAnswer::Same),
        }
    }

    /// A flight's load failed: the loader's count of faults rose. The flight is under way, and the count is at most
    /// 2^63 - 1, where it may stand still. Takes no memory.
    pub fn fail(&mut self, refused: Refused)
        requires why { refused.why ≡ whys.Fault }
        requires allowed { rules.may_fail (state_of self.old) refused.pass.number refused.before refused.after ≡ true }
        ensures { self.new ≡ after_step self.old (fail_step (history_of self.old) refused.pass.number refused.before refused.after) }
    {
        let Refused {
            pass,
            why: _,
            before,
            after,
        } = refused;
        self.state.fail(pass.flight(), before, after);
        pass.end();
    }

    /// A flight is given up for want of memory. It is under way. Takes no memory.
    pub fn lapse(&mut self, pass: Pass)
        requires { rules.may_lapse (state_of self.old) pass.number ≡ true }
        ensures { self.new ≡ after_step self.old (lapse_step (history_of self.old) pass.number) }
    {
        self.state.lapse(pass.flight());
        pass.end();
    }

    /// How a flight stands, which was led. Takes no memory.
    pub fn look(&self, flight: u32) -> LookAnswer
        requires { is_some (flight_at (state_of self.now).flights flight) ≡ true }
        ensures { option_map told_end (rules.end_of (state_of self.now) flight) ≡ Some result }
    {
        told_end(self.state.end_of(flight).unwrap())
    }
}

fn told_end(end: End) -> LookAnswer
    ensures { result ≡ told_end end }
{
    match end {
        End::UnderWay => LookAnswer::Flying,
        End::Published { version } => LookAnswer::Published(version),
        End::Same => LookAnswer::Same,
        End::Failed { before, after } => LookAnswer::Failed { before, after },
        End::Lapsed => LookAnswer::Lapsed,
    }
}

fn share(doc: &Arc<Doc>) -> Result<Arc<Doc>, NoMemory>
    ensures { IfOk result (λ shared. arc_value shared ≡ arc_value doc.now) }
{
    let shared = Arc::try_clone(doc)?;
    Ok(shared)
}

// What the history keeps of the answer.
fn given_of(alloc: Global, ready: &Ready) -> Result<Given, NoMemory>
    ensures given { IfOk result (λ given. given ≡ given_of ready.now) }
    ensures answer { IfOk result (λ given. IsAnswer given ready.now.doc) }
{
    Ok(Given {
        url: ready.url().try_copy(alloc)?,
        length: ready.length(),
        mark: copied(alloc, ready.mark())?,
    })
}

fn copied(alloc: Global, bytes: &Raw) -> Result<Raw, NoMemory>
    ensures { IfOk result (λ copy. copy ≡ bytes.now) }
{
    let bytes = Vec::from_slice(alloc, bytes.as_slice())?;
    Ok(Items::from_vec(bytes))
}

// What is stored once the document came into the store.
fn after_publish(
    alloc: Global,
    snapshot: &Snapshot,
    ready: &Ready,
    version: u64,
) -> Result<Arc<Snapshot>, NoMemory>
    ensures { IfOk result (λ next. arc_value next ≡ published snapshot.now ready.now.pass.iri (record { doc = ready.now.doc; flight = ready.now.pass.number; version = version })) }
{
    let placed = Placed {
        doc: share(ready.doc())?,
        flight: ready.pass().flight(),
        version,
    };
    let next = snapshot.published(alloc, ready.pass().iri(), placed)?;
    let shared = Arc::new(alloc, next)?;
    Ok(shared)
}
