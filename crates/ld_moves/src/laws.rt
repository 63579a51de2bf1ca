//! What the definitions say, law by law. The function that carries a law does nothing.
ghost use Rattle.std.specs.Prelude.{◌≡◌, ◌≤◌, ℕ, List, Some, None, false};
ghost use mathlib.Core.List.{IsPrefix};
ghost use Rattle.ld_book.specs.Documents.{ArePages};
ghost use Rattle.ld_book.specs.Pages.{Booked, Pages, entries_of, stock_of};
ghost use Rattle.ld_fits.specs.Play.{Stage};
ghost use Rattle.ld_flight.specs.declared.given.Given as loader;
ghost use Rattle.ld_history.specs.declared.limits.Limits.{Limits};
ghost use Rattle.ld_store.specs.Snapshots.{Shot, stock_at};
ghost use Rattle.ld_history.specs.Legal.{is_in_stock, state};
ghost use Rattle.ld_history.specs.Rules.{end_of};
ghost use Rattle.ld_history.specs.Words.{at_iri, is_under_way};
ghost use Rattle.ld_history.specs.declared.session.End.{End};
ghost use Rattle.ld_history.specs.declared.session.Flight.{Flight};
ghost use Rattle.ld_history.specs.declared.session.Session.{Session};
ghost use Rattle.ld_moves.specs.Standing.{IsFlightAt, IsOf, IsOpenAt};
ghost use Rattle.ld_moves.specs.Moving.{Finds, Moves, Place, place, version_in};
ghost use Rattle.ld_moves.specs.Stocks.{IsSound, stocks};

/// What a version has stays as the book grows, and the version never falls. Each IRI in a version's stock has its document, so that
/// one without a document isn't there. A snapshot with a version's documents is its stock.
pub fn stocks_stay()
    ensures stay { (limits : Limits) (front later : Pages) (version : ℕ) → IsSound limits later → IsPrefix front later → version ≤ version_in front → stocks later version ≡ stocks front version }
    ensures rise { (limits : Limits) (front later : Pages) → IsSound limits later → IsPrefix front later → version_in front ≤ version_in later }
    ensures lacked { (pages : Pages) (version : ℕ) (iri : List ℕ) → ArePages pages → at_iri (stock_of pages version) iri ≡ None → is_in_stock (entries_of pages) iri version ≡ false }
    ensures snapshot { (shot : Shot) (pages : Pages) (version : ℕ) → (stock_at shot).0 ≡ stock_of pages version → stock_at shot ≡ stocks pages version }
{}

/// What a session has moved adds up. While none of its entries comes, it stays at its stage.
pub fn moves_add_up()
    ensures none { (session : ℕ) (p : Place) → IsSound p.limits p.pages → Moves session p p }
    ensures more { (session : ℕ) (a b c : Place) → Moves session a b → Moves session b c → Moves session a c }
    ensures waits { (session : ℕ) (limits : Limits) (front : Pages) (found : Booked) (given : List loader.Given) (faults : ℕ) (stage : Stage) → Finds session limits front found
        → Moves session (place limits front given faults stage) (place limits found.pages given faults stage) }
{}

/// What a session knows at a front is so in the book that it finds at its next turn: how it stands itself, the flights that
/// it led, how any flight ended and which IRI it is for, and what a version has.
pub fn facts_are_kept()
    ensures session { (session : ℕ) (limits : Limits) (front : Pages) (found : Booked) (s : Session) → Finds session limits front found → IsOpenAt front session s → IsOpenAt found.pages session s }
    ensures led { (session : ℕ) (limits : Limits) (front : Pages) (found : Booked) (number : ℕ) (flight : Flight) → Finds session limits front found
        → flight.session ≡ session → IsFlightAt front number flight → IsFlightAt found.pages number flight }
    ensures ended { (session : ℕ) (limits : Limits) (front : Pages) (found : Booked) (number : ℕ) (how : End) → Finds session limits front found
        → is_under_way how ≡ false → end_of (state (entries_of front)) number ≡ Some how → end_of (state (entries_of found.pages)) number ≡ Some how }
    ensures there { (front later : Pages) (number : ℕ) (iri : List ℕ) → IsPrefix front later → IsOf front number iri → IsOf later number iri }
    ensures stock { (session : ℕ) (limits : Limits) (front : Pages) (found : Booked) (iri : List ℕ) (version : ℕ) → Finds session limits front found → version ≤ version_in front
        → is_in_stock (entries_of found.pages) iri version ≡ is_in_stock (entries_of front) iri version }
{}
