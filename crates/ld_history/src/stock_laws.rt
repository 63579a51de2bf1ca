//! What a version's stock is: law by law, what its definition says.
ghost use Rattle.std.specs.Prelude.{◌≡◌, ℕ, ◌-◌, ◌≤◌, List, [], ◌∷◌, ◌++◌, map, Some, None};
ghost use Rattle.ld_history.specs.declared.event.Event.TheVariants as event;
ghost use Rattle.ld_history.specs.declared.event.Given.{Given};
ghost use Rattle.ld_history.specs.declared.limits.Limits.{Limits};
ghost use Rattle.ld_history.specs.declared.session.Flight.{Flight};
ghost use Rattle.ld_history.specs.Words.{flight_at};
ghost use Rattle.ld_history.specs.After.{put_iri, take_iri};
ghost use Rattle.ld_history.specs.Legal.{Entries, state, stock, Legal};

/// The stock of a version is what the published flights gave as far as not evicted. It begins empty; a
/// Published puts its flight at the flight's IRI, in place of a former one, and an Evicted takes its IRI
/// out, of the stock of the version before. Between them it stays, and so it does as the list grows; that
/// of the current version is what is stored.
pub fn stocks_are_told()
    ensures first { (limits : Limits) (entries : Entries) → Legal limits entries → stock entries 0 ≡ [] }
    ensures published { (limits : Limits) (front back : Entries) (flight version : ℕ) (given : Given) (f : Flight)
        → Legal limits (front ++ record { event = event.Published flight version; given = Some given } ∷ back) → flight_at (state front).flights flight ≡ Some f
        → stock (front ++ record { event = event.Published flight version; given = Some given } ∷ back) version
        ≡ put_iri (stock (front ++ record { event = event.Published flight version; given = Some given } ∷ back) (version - 1)) f.iri flight }
    ensures evicted { (limits : Limits) (front back : Entries) (session : ℕ) (iri : List ℕ) (version : ℕ)
        → Legal limits (front ++ record { event = event.Evicted session iri version; given = None } ∷ back)
        → stock (front ++ record { event = event.Evicted session iri version; given = None } ∷ back) version
        ≡ take_iri (stock (front ++ record { event = event.Evicted session iri version; given = None } ∷ back) (version - 1)) iri }
    ensures stays { (limits : Limits) (front back : Entries) (version : ℕ) → Legal limits (front ++ back) → version ≤ (state front).version
        → stock (front ++ back) version ≡ stock front version }
    ensures current { (limits : Limits) (entries : Entries) → Legal limits entries
        → stock entries (state entries).version ≡ map (λ e. (e.0, e.1.flight)) (state entries).stored }
{}
