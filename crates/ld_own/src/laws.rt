//! What the definitions say, law by law. The function that carries a law does nothing.
ghost use Rattle.std.specs.Prelude.{◌≡◌, ◌≢◌, ◌<◌, ◌≤◌, ℕ, List, [], ◌++◌, length, map, Some, None};
ghost use mathlib.Core.List.{IsPrefix};
ghost use Rattle.ld_flight.specs.declared.given.Given as loader;
ghost use Rattle.ld_history.specs.Counts.{own_from};
ghost use Rattle.ld_history.specs.Legal.{Entries, Legal, replay, state};
ghost use Rattle.ld_history.specs.Seats.{opened_in, seat_of};
ghost use Rattle.ld_history.specs.Store.{Store};
ghost use Rattle.ld_history.specs.Words.{at_number, flight_at};
ghost use Rattle.ld_history.specs.declared.limits.Limits.{Limits};
ghost use Rattle.ld_history.specs.declared.session.Flight.{Flight};
ghost use Rattle.ld_history.specs.declared.session.Session.{Session};
ghost use Rattle.ld_own.specs.Adding.{Adds};
ghost use Rattle.ld_own.specs.Loads.{Gained, Spans};
ghost use Rattle.ld_own.specs.Own.{Placed, own_placed, own_placed_from};

/// The entries that are placed are the session's own ones, and those of a longer list begin with them.
pub fn own_entries_are_placed()
    ensures own { (store : Store) (session : ℕ) (entries : Entries) → map (λ p. p.entry) (own_placed_from store session entries) ≡ own_from store session entries }
    ensures grow { (store : Store) (session : ℕ) (front back : Entries)
        → own_placed_from store session (front ++ back) ≡ own_placed_from store session front ++ own_placed_from (replay store front) session back }
{}

/// What a session has added from one front to another adds up, and is what its own entries gain. None of what came while
/// its seat had no turn is the session's, where none belongs to the seat; none comes before
/// the session is opened, and none once it is closed.
pub fn additions_add_up()
    ensures none { (session : ℕ) (front : Entries) → Adds session front [] front }
    ensures more { (session : ℕ) (a b c : Entries) (mine more : List Placed) → Adds session a mine b → Adds session b more c → Adds session a (mine ++ more) c }
    ensures own { (session : ℕ) (front later : Entries) (mine : List Placed) → Adds session front mine later → own_placed session later ≡ own_placed session front ++ mine }
    ensures quiet { (session seat : ℕ) (front later : Entries) → opened_in front session ≡ Some seat → IsPrefix front later
        → ((place : ℕ) → length front ≤ place → place < length later → seat_of later place ≢ Some seat) → Adds session front [] later }
    ensures before { (limits : Limits) (session : ℕ) (entries : Entries) → limits.held ≤ 64 → Legal limits entries
        → (state entries).opened < session → own_placed session entries ≡ [] }
    ensures closed { (limits : Limits) (session : ℕ) (front more : Entries) → limits.held ≤ 64 → Legal limits (front ++ more)
        → session ≤ (state front).opened → at_number (state front).sessions session ≡ None → Adds session front [] (front ++ more) }
{}

/// While none of its entries comes, a session stands as it stood, and so does each flight that it led.
pub fn sessions_are_kept()
    ensures session { (limits : Limits) (session : ℕ) (s : Session) (front later : Entries) → limits.held ≤ 64 → Legal limits later → Adds session front [] later
        → at_number (state front).sessions session ≡ Some s → at_number (state later).sessions session ≡ Some s }
    ensures flight { (session number : ℕ) (f : Flight) (front later : Entries) → f.session ≡ session → Adds session front [] later
        → flight_at (state front).flights number ≡ Some f → flight_at (state later).flights number ≡ Some f }
{}

/// What a loader gave, and the spans of its failures, add up as the session's entries do.
pub fn loads_add_up()
    ensures gained { (mine more : List Placed) (gained later : List loader.Given) → Gained mine gained → Gained more later → Gained (mine ++ more) (gained ++ later) }
    ensures spans { (low count high : ℕ) (mine more : List Placed) → Spans low mine count → Spans count more high → Spans low (mine ++ more) high }
{}
