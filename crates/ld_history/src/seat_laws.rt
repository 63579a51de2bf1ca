//! Whose the entries are, over the list alone.
ghost use Rattle.std.specs.Prelude.{◌≡◌, ℕ, ◌<◌, ◌++◌, List, length, IsSome, Some};
ghost use Rattle.ld_history.specs.declared.limits.Limits.{Limits};
ghost use Rattle.ld_history.specs.declared.session.Session.{Session};
ghost use Rattle.ld_history.specs.Laws.{IsOpenAs};
ghost use Rattle.ld_history.specs.Legal.{Entries, state, Legal};
ghost use Rattle.ld_history.specs.Seats.{opened_in, seat_of};

/// The seat that an entry belongs to stays as the list grows, legal or not. In a legal history each entry
/// has one, and an open session is in the seat in which it was opened.
pub fn seats_stay()
    ensures stays { (front back : Entries) (place : ℕ) → place < length front → seat_of (front ++ back) place ≡ seat_of front place }
    ensures each { (limits : Limits) (entries : Entries) (place : ℕ) → Legal limits entries → place < length entries → IsSome (seat_of entries place) }
    ensures opened { (limits : Limits) (entries : Entries) (session : ℕ) (s : Session) → Legal limits entries
        → IsOpenAs (state entries) session s → opened_in entries session ≡ Some s.seat }
{}
