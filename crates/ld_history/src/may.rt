//! Whether a session may take its next step.
ghost use Rattle.std.specs.Prelude.{◌≡◌, ◌&&◌, ◌||◌, nat_lt, not};
ghost use Rattle.ld_history.specs.Words.{is_idle, is_taken};
ghost use Rattle.ld_history.specs.Rules as rules;
ghost use Rattle.ld_history.specs.Rules.{on_session};
ghost use Rattle.ld_history.specs.Legal.{is_in_stock, state};
ghost use Rattle.ld_history.specs.Seen.{seen};
ghost use Rattle.ld_history.specs.Steps.{may_lack};

use crate::name::Name;
use crate::state::State;

impl State {
    /// Whether a session may be opened in the seat: it is below 256, and no open session has it.
    pub fn may_open(&self, seat: u32) -> bool
        ensures { result ≡ (nat_lt seat 256 && not (is_taken (state self.now.entries) seat)) }
    {
        seat < 256 && !self.tables.is_taken(seat)
    }

    /// Whether the session may pin: it is open, and has no request under way or one that may go on to another attempt.
    pub fn may_pin(&self, session: u32) -> bool
        ensures { result ≡ on_session (state self.now.entries) session (λ s. is_idle s.last || rules.may_pin_again (state self.now.entries) s.last) }
    {
        match self.tables.session(session) {
            Some(s) => s.last.is_idle() || self.tables.may_pin_again(s.last),
            None => false,
        }
    }

    /// Whether the session may lack the context: its last own event is Pinned, at a version without the IRI, which has at
    /// most 2,048 bytes.
    pub fn may_lack(&self, session: u32, iri: &Name) -> bool
        ensures { result ≡ on_session (state self.now.entries) session (may_lack (is_in_stock self.now.entries) iri.now) }
    {
        match self.tables.session(session) {
            Some(s) => self.tables.may_lack(iri, s),
            None => false,
        }
    }

    /// Whether the session is open, and its last own event is Pinned.
    pub fn has_pinned(&self, session: u32) -> bool
        ensures { result ≡ rules.has_pinned (state self.now.entries) session }
    {
        self.tables.has_pinned(session)
    }
}
