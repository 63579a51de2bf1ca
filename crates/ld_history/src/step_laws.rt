//! Where steps are allowed.
ghost use Rattle.std.specs.Prelude.{◌≡◌, ◌||◌, ℕ, List, is_some};
ghost use Rattle.ld_history.specs.declared.limits.Limits.{Limits};
ghost use Rattle.ld_history.specs.Words.{is_idle};
ghost use Rattle.ld_history.specs.Rules.{on_session, may_pin_again};
ghost use Rattle.ld_history.specs.Legal.{Entries, state, is_in_stock, Legal};
ghost use Rattle.ld_history.specs.Steps.{may_lack, lack_step, pin_step};

/// A lack is a step exactly where an open session's last own event is Pinned, at a version without the IRI,
/// which has at most 2,048 bytes; and a pin exactly where an open session has no request under way, or may
/// go on to another attempt. So `lack` and `pin` answer that they aren't allowed exactly where this doesn't
/// hold.
pub fn steps_are_found()
    ensures lack { (limits : Limits) (entries : Entries) (session : ℕ) (iri : List ℕ) → Legal limits entries
        → is_some (lack_step (record { limits = limits; entries = entries }) session iri)
        ≡ on_session (state entries) session (may_lack (is_in_stock entries) iri) }
    ensures pin { (limits : Limits) (entries : Entries) (session : ℕ)
        → is_some (pin_step (record { limits = limits; entries = entries }) session)
        ≡ on_session (state entries) session (λ s. is_idle s.last || may_pin_again (state entries) s.last) }
{}
