//! What holds after every legal history, whatever its limits. Each law is a contract over all lists of
//! entries; the function that carries it does nothing.
ghost use Rattle.std.specs.Prelude.{◌≡◌, ℕ, ◌+◌, ◌*◌, ◌-◌, ◌^◌, ◌<◌, ◌≤◌, ◌⊎◌, List, ◌++◌, length, Some, None, IsTrue, IsFalse};
ghost use Rattle.std.specs.List.{IsDistinct, sum_by};
ghost use Rattle.std.specs.List.Sorted.{IsNonDecreasing};
ghost use Rattle.ld_history.specs.declared.event.Event.TheVariants as event;
ghost use Rattle.ld_history.specs.declared.event.How.TheVariants as how;
ghost use Rattle.ld_history.specs.declared.limits.Limits.{Limits};
ghost use Rattle.ld_history.specs.declared.session.Flight.{Flight};
ghost use Rattle.ld_history.specs.declared.session.Session.{Session};
ghost use Rattle.ld_history.specs.Words.{flight_at, has_request, holds, is_lead, is_led, is_pinned, is_stored, least_holder, same_iri};
ghost use Rattle.ld_history.specs.Legal.{Entries, state, Legal, AreWithin, is_in_stock, is_allowed};
ghost use Rattle.ld_history.specs.Counts.{versions_made, pins, leads_under_way, loads_under_way, lacked, attempts, spent, reserve};
ghost use Rattle.ld_history.specs.Laws.{IsUnderWay, IsOpenAs, IsHolder, LeadsNothing, WasLeft, MayFollow};

/// The version is the number of Published and Evicted entries, and what a session pins never falls.
pub fn versions_rise()
    ensures counted { (limits : Limits) (entries : Entries) → Legal limits entries → (state entries).version ≡ versions_made entries }
    ensures pins_rise { (limits : Limits) (entries : Entries) (session : ℕ) → Legal limits entries → IsNonDecreasing (pins session entries) }
{}

/// An IRI has at most one flight under way: a Lead flight only where it isn't stored, and a Revise
/// flight only where it is.
pub fn flights_are_single()
    ensures single { (limits : Limits) (entries : Entries) (a b : ℕ) (f g : Flight) → Legal limits entries
        → IsUnderWay (state entries) a f → IsUnderWay (state entries) b g → f.iri ≡ g.iri → a ≡ b }
    ensures lead_where_new { (limits : Limits) (entries : Entries) (number : ℕ) (flight : Flight) → Legal limits entries
        → IsUnderWay (state entries) number flight → IsTrue (is_lead flight.kind) → IsFalse (is_stored (state entries) flight.iri) }
    ensures revise_where_stored { (limits : Limits) (entries : Entries) (number : ℕ) (flight : Flight) → Legal limits entries
        → IsUnderWay (state entries) number flight → IsFalse (is_lead flight.kind) → IsTrue (is_stored (state entries) flight.iri) }
{}

/// Stored IRIs and Lead flights under way are together at most `Limits::contexts`.
pub fn places_suffice()
    ensures places { (limits : Limits) (entries : Entries) → Legal limits entries
        → length (state entries).stored + leads_under_way (state entries).flights ≤ limits.contexts }
{}

/// An IRI that a request holds is stored, or in a Lead flight under way, or the session's last own event
/// is Led or Joined of a flight for it, which ended unpublished. So a version that the request pins has
/// every IRI that it held before.
pub fn held_stays()
    ensures held { (limits : Limits) (entries : Entries) (session : ℕ) (s : Session) (iri : List ℕ) → Legal limits entries
        → IsOpenAs (state entries) session s → IsTrue (holds s iri)
        → IsTrue (is_stored (state entries) iri) ⊎ (IsTrue (is_led (state entries) iri) ⊎ WasLeft (state entries) s iri) }
    ensures pinned { (limits : Limits) (entries : Entries) (session : ℕ) (s : Session) (iri : List ℕ) → Legal limits entries
        → IsOpenAs (state entries) session s → IsTrue (is_pinned s.last) → IsTrue (holds s iri)
        → IsTrue (is_in_stock entries iri s.version) }
{}

/// The IRIs that one request lacks differ, and are at most `Limits::held`. So it makes at most one
/// attempt more than that.
pub fn lacks_differ()
    ensures differ { (limits : Limits) (entries : Entries) (session : ℕ) → limits.held ≤ 64 → Legal limits entries
        → IsDistinct same_iri (lacked session entries) }
    ensures few { (limits : Limits) (entries : Entries) (session : ℕ) → limits.held ≤ 64 → Legal limits entries
        → length (lacked session entries) ≤ limits.held }
    ensures attempts { (limits : Limits) (entries : Entries) (session : ℕ) → limits.held ≤ 64 → Legal limits entries
        → attempts session entries ≤ limits.held + 1 }
{}

/// A request appends at most 260 entries.
pub fn requests_are_short()
    ensures short { (limits : Limits) (entries : Entries) (session : ℕ) → limits.held ≤ 64 → Legal limits entries
        → spent session entries ≤ 260 }
{}

/// There is room for what is begun. The entries, with what each request under way may still append of
/// 320, and with one for each open session, are at most `Limits::events`. The kept bytes, with
/// 1,048,576 for each flight under way, are at most `Limits::bytes`.
pub fn room_is_kept()
    ensures events { (limits : Limits) (entries : Entries) → limits.held ≤ 64 → Legal limits entries
        → length entries + sum_by (reserve entries) (state entries).sessions + length (state entries).sessions ≤ limits.events }
    ensures bytes { (limits : Limits) (entries : Entries) → Legal limits entries
        → (state entries).bytes + 1048576 * loads_under_way (state entries).flights ≤ limits.bytes }
    ensures counted { (limits : Limits) (entries : Entries) → limits.held ≤ 64 → Legal limits entries → (state entries).events ≡ length entries }
{}

/// What ends something is always allowed, and there is room for it: that a request is answered for want
/// of memory, where its session leads no flight under way; that a flight under way fails, or is given
/// up; and that a session without a request is closed.
pub fn ends_are_allowed()
    ensures answered { (limits : Limits) (entries : Entries) (session : ℕ) (s : Session) → limits.held ≤ 64 → Legal limits entries
        → IsOpenAs (state entries) session s → IsTrue (has_request s) → LeadsNothing (state entries) session
        → MayFollow limits entries (record { event = event.Answered session s.request how.NoMemory; given = None }) }
    ensures failed { (limits : Limits) (entries : Entries) (number : ℕ) (flight : Flight) (before after : ℕ) → limits.held ≤ 64 → Legal limits entries
        → IsUnderWay (state entries) number flight
        → after ≤ 2 ^ 63 - 1 → (before < after) ⊎ ((before ≡ 2 ^ 63 - 1) × (after ≡ 2 ^ 63 - 1))
        → MayFollow limits entries (record { event = event.Failed number before after; given = None }) }
    ensures lapsed { (limits : Limits) (entries : Entries) (number : ℕ) (flight : Flight) → limits.held ≤ 64 → Legal limits entries
        → IsUnderWay (state entries) number flight
        → MayFollow limits entries (record { event = event.Lapsed number; given = None }) }
    ensures closed { (limits : Limits) (entries : Entries) (session : ℕ) (s : Session) → limits.held ≤ 64 → Legal limits entries
        → IsOpenAs (state entries) session s → IsFalse (has_request s)
        → MayFollow limits entries (record { event = event.Closed session; given = None }) }
{}

/// Each front of a legal history is legal.
pub fn fronts_are_legal()
    ensures { (limits : Limits) (front back : Entries) → Legal limits (front ++ back) → Legal limits front }
{}

/// Under limits within the server's the number of a flight is below 2^32 - 1, so that of the next one fits too.
pub fn flights_fit()
    ensures { (limits : Limits) (entries : Entries) (number : ℕ) (flight : Flight) → AreWithin limits → Legal limits entries
        → flight_at (state entries).flights number ≡ Some flight → number < 2 ^ 32 - 1 }
{}

/// The least holder of an IRI holds it, and none that holds it has a lesser number; there is none exactly
/// where no session holds it.
pub fn holders_are_least()
    ensures holds { (limits : Limits) (entries : Entries) (iri : List ℕ) (holder : ℕ) → Legal limits entries
        → least_holder (state entries) iri ≡ Some holder → IsHolder (state entries) holder iri }
    ensures least { (limits : Limits) (entries : Entries) (iri : List ℕ) (holder session : ℕ) → Legal limits entries
        → least_holder (state entries) iri ≡ Some holder → IsHolder (state entries) session iri → holder ≤ session }
    ensures none { (limits : Limits) (entries : Entries) (iri : List ℕ) (session : ℕ) → Legal limits entries
        → least_holder (state entries) iri ≡ None → IsHolder (state entries) session iri → ⊥ }
{}

/// The IRI of a TooMany is none that the request holds.
pub fn too_many_is_new()
    ensures { (limits : Limits) (entries : Entries) (session request : ℕ) (s : Session) (iri : List ℕ) → Legal limits entries
        → IsOpenAs (state entries) session s
        → IsTrue (is_allowed limits entries (record { event = event.Answered session request (how.TooMany iri); given = None }))
        → IsFalse (holds s iri) }
{}
