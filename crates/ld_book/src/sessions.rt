//! Sessions, and the attempts of their requests.
ghost use Rattle.std.specs.Prelude.{◌≡◌, ◌&&◌, ◌||◌, nat_lt, not, true, is_some, map, IfOk, IfErr, OnOk, OnErr};
ghost use Rattle.std.specs.Arc.{arc_value};
ghost use Rattle.ld_store.specs.Snapshots.{stock_at};
ghost use Rattle.ld_history.specs.declared.answers.OpenAnswer.TheVariants as open_answer;
ghost use Rattle.ld_history.specs.declared.answers.PinAnswer.TheVariants as pin_answer;
ghost use Rattle.ld_history.specs.Words.{is_idle, is_taken};
ghost use Rattle.ld_history.specs.Rules.{may_close, may_pin_again, on_session};
ghost use Rattle.ld_history.specs.Legal.{stock};
ghost use Rattle.ld_history.specs.Steps.{Answers, answer_step, close_step, open_step, pin_step};
ghost use Rattle.ld_book.specs.Pages.{after_step, entries_of, history_of, state_of, stock_of};
ghost use Rattle.ld_book.specs.Said.{IsRefusal};

use crate::allowed::allowed;
use crate::answers::{Pin, RoomRefusal};
use crate::book::Book;
use ld_history::{How, Name, OpenAnswer, PinAnswer};
use ld_store::Snapshot;
use ld_tree::NoMemory;
use std::alloc::Global;
use std::sync::Arc;

impl Book {
    /// Opens a session in a seat, which is below 256 and has no session under way. Answers the session's number.
    pub fn open_session(&mut self, alloc: Global, seat: u32) -> Result<u32, RoomRefusal>
        requires { (nat_lt seat 256 && not (is_taken (state_of self.old) seat)) ≡ true }
        ensures opened { IfOk result (λ session. Answers (open_step (history_of self.old) seat) (open_answer.Opened session)) }
        ensures refused { IfErr result (IsRefusal open_answer.HistoryFull (open_step (history_of self.old) seat)) }
        ensures appended { OnOk result (self.new ≡ after_step self.old (open_step (history_of self.old) seat)) }
        ensures unchanged { OnErr result (self.new ≡ self.old) }
    {
        match allowed(self.state.open_session(alloc, seat))? {
            OpenAnswer::Opened { session } => Ok(session),
            OpenAnswer::HistoryFull { events } => Err(RoomRefusal::HistoryFull { events }),
        }
    }

    /// Begins the session's next request, or the next attempt of the one under way. The session is open, and has no request
    /// under way or one that may go on to another attempt. The history is full only for a first attempt.
    pub fn pin(&mut self, alloc: Global, session: u32) -> Result<Pin, RoomRefusal>
        requires { on_session (state_of self.old) session (λ s. is_idle s.last || may_pin_again (state_of self.old) s.last) ≡ true }
        ensures pinned { IfOk result (λ p. Answers (pin_step (history_of self.old) session) (pin_answer.Pinned p.request p.attempt (arc_value p.snapshot).version)) }
        ensures refused { IfErr result (IsRefusal pin_answer.HistoryFull (pin_step (history_of self.old) session)) }
        ensures appended { OnOk result (self.new ≡ after_step self.old (pin_step (history_of self.old) session)) }
        ensures unchanged { OnErr result (self.new ≡ self.old) }

        // The snapshot is that of the version that is pinned: it has that version's stock, from these flights.
        ensures stock { IfOk result (λ p. (stock_at (arc_value p.snapshot)).0 ≡ stock_of self.new.pages (arc_value p.snapshot).version) }
        ensures flights { IfOk result (λ p. map (λ e. (e.0, e.1.flight)) (arc_value p.snapshot).placed.0 ≡ stock (entries_of self.new.pages) (arc_value p.snapshot).version) }
    {
        let snapshot = share(&self.snapshot)?;
        match allowed(self.state.pin(alloc, session))? {
            PinAnswer::Pinned {
                request,
                attempt,
                version: _,
            } => {
                // The history is legal, so that its stock is what is stored.
                let _events = self.state.events();
                Ok(Pin {
                    request,
                    attempt,
                    snapshot,
                })
            }
            PinAnswer::HistoryFull { events } => Err(RoomRefusal::HistoryFull { events }),
        }
    }

    /// The session's request is answered so, which the rules allow. Takes no memory.
    pub fn answered(&mut self, session: u32, how: How<Name>)
        requires { is_some (answer_step (history_of self.old) session how) ≡ true }
        ensures { self.new ≡ after_step self.old (answer_step (history_of self.old) session how) }
    {
        self.state.answer(session, how);
    }

    /// Closes the session, which is open and has no request under way. Takes no memory.
    pub fn close_session(&mut self, session: u32)
        requires { may_close (state_of self.old) session ≡ true }
        ensures { self.new ≡ after_step self.old (close_step (history_of self.old) session) }
    {
        self.state.close_session(session);
    }
}

fn share(snapshot: &Arc<Snapshot>) -> Result<Arc<Snapshot>, NoMemory>
    ensures { IfOk result (λ shared. arc_value shared ≡ arc_value snapshot.now) }
{
    let shared = Arc::try_clone(snapshot)?;
    Ok(shared)
}
