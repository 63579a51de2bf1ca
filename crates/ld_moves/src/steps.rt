//! What the steps of a book move: from which stage to which, as they answer, and what the session knows after them.
ghost use Rattle.std.specs.Prelude.{◌≡◌, ◌⊎◌, ◌≤◌, ℕ, List, [], ◌∷◌, ◌++◌, Some, Err};
ghost use Rattle.ld_answer.specs.declared.envelope.Envelope.{Envelope};
ghost use Rattle.ld_answer.specs.declared.op.Op.{Op};
ghost use Rattle.ld_book.specs.Pages.{Booked, Pages, after_answer, after_step, entries_of, given_of, history_of};
ghost use Rattle.ld_edge.specs.Faults.{Rose};
ghost use Rattle.ld_fits.specs.Asks.{Heard};
ghost use Rattle.ld_fits.specs.Leading.{after_evict, after_lack, after_revise};
ghost use Rattle.ld_fits.specs.Play as play;
ghost use Rattle.ld_fits.specs.Play.{Idle, Lacking, Request, Shut, Stage, pinned, pinned_again, step};
ghost use Rattle.ld_flight.specs.Readied.{Readied, Tells};
ghost use Rattle.ld_flight.specs.declared.given.Given as loader;
ghost use Rattle.ld_history.specs.Legal.{state};
ghost use Rattle.ld_history.specs.Rules.{end_of};
ghost use Rattle.ld_history.specs.Steps.{Answers, Taken, answer_step, close_step, evict_step, fail_step, lack_step, lapse_step, pin_step, publish_step, revise_step};
ghost use Rattle.ld_history.specs.declared.answers.EvictAnswer.{EvictAnswer};
ghost use Rattle.ld_history.specs.declared.answers.LackAnswer.{LackAnswer};
ghost use Rattle.ld_history.specs.declared.answers.PinAnswer.TheVariants as pin_answer;
ghost use Rattle.ld_history.specs.declared.answers.PublishAnswer.{PublishAnswer};
ghost use Rattle.ld_history.specs.declared.answers.ReviseAnswer.{ReviseAnswer};
ghost use Rattle.ld_history.specs.declared.event.Event.TheVariants as event;
ghost use Rattle.ld_history.specs.declared.event.How.{How};
ghost use Rattle.ld_history.specs.declared.limits.Limits.{Limits};
ghost use Rattle.ld_history.specs.declared.session.End.TheVariants as end;
ghost use Rattle.ld_history.specs.declared.session.Flight.{Flight};
ghost use Rattle.ld_history.specs.declared.session.Session.{Session};
ghost use Rattle.ld_history.specs.declared.session.Last.TheVariants as last;
ghost use Rattle.ld_rec.specs.declared.stop.Stop.TheVariants as stop;
ghost use Rattle.ld_moves.specs.Moving.{Finds, Moves, MovesOn, place, version_in};
ghost use Rattle.ld_moves.specs.Standing.{AfterLack, AfterRevise, HasPinned, IsFlightAt, IsGiven, IsOpenAt, IsWaiting, Stands, end_by};
ghost use Rattle.ld_moves.specs.Stocks.{stocks};

/// A pin moves a session on to its next request, or to the next attempt of an evaluation. What is pinned is the current version.
pub fn pins_move()
    ensures first { (session : ℕ) (limits : Limits) (front : Pages) (found : Booked) (h : Heard) (items : List Heard) (text : List ℕ) (request attempt version : ℕ) → Finds session limits front found
        → Answers (pin_step (history_of found) session) (pin_answer.Pinned request attempt version)
        → MovesOn session limits front (after_step found (pin_step (history_of found) session)).pages (Idle (h ∷ items) text)
        (pinned limits (stocks (after_step found (pin_step (history_of found) session)).pages) (h ∷ items) text request version) }
    ensures again { (session : ℕ) (limits : Limits) (front : Pages) (found : Booked) (r : Request) (op : Op) (envelope : Envelope) (iri : List ℕ) (request attempt version : ℕ) → Finds session limits front found
        → Answers (pin_step (history_of found) session) (pin_answer.Pinned request attempt version)
        → MovesOn session limits front (after_step found (pin_step (history_of found) session)).pages (Lacking r op envelope iri)
        (pinned_again limits (stocks (after_step found (pin_step (history_of found) session)).pages) r op envelope version) }
    ensures any { (session : ℕ) (limits : Limits) (front : Pages) (found : Booked) (from : Stage) (request attempt version : ℕ) → Finds session limits front found
        → Answers (pin_step (history_of found) session) (pin_answer.Pinned request attempt version)
        → MovesOn session limits front (after_step found (pin_step (history_of found) session)).pages from
        (step limits (stocks (after_step found (pin_step (history_of found) session)).pages) (state (entries_of found.pages)) from (event.Pinned session request attempt version)) }
    ensures told { (session : ℕ) (limits : Limits) (front : Pages) (found : Booked) (request attempt version : ℕ) → Finds session limits front found
        → Answers (pin_step (history_of found) session) (pin_answer.Pinned request attempt version)
        → HasPinned (after_step found (pin_step (history_of found) session)).pages session request version }
    ensures current { (session : ℕ) (limits : Limits) (front : Pages) (found : Booked) (request attempt version : ℕ) → Finds session limits front found
        → Answers (pin_step (history_of found) session) (pin_answer.Pinned request attempt version) → version ≡ version_in found.pages }
    ensures within { (session : ℕ) (limits : Limits) (front : Pages) (found : Booked) (request attempt version : ℕ) → Finds session limits front found
        → Answers (pin_step (history_of found) session) (pin_answer.Pinned request attempt version) → version ≤ version_in (after_step found (pin_step (history_of found) session)).pages }
{}

/// An answer moves a session on from whatever stage, as that stage's next entry says, and no request is under way then.
pub fn answers_move()
    ensures moves { (session : ℕ) (limits : Limits) (front : Pages) (found : Booked) (from : Stage) (how : How (List ℕ)) (t : Taken ℕ) → Finds session limits front found
        → answer_step (history_of found) session how ≡ Some t
        → MovesOn session limits front (after_step found (answer_step (history_of found) session how)).pages from
        (step limits (stocks (after_step found (answer_step (history_of found) session how)).pages) (state (entries_of found.pages)) from (event.Answered session t.answer how)) }
    ensures told { (session : ℕ) (limits : Limits) (front : Pages) (found : Booked) (how : How (List ℕ)) (t : Taken ℕ) → Finds session limits front found
        → answer_step (history_of found) session how ≡ Some t → Stands (after_step found (answer_step (history_of found) session how)).pages session last.Idle }
{}

/// A close ends a session that has answered all its items.
pub fn closes_move()
    ensures { (session : ℕ) (limits : Limits) (front : Pages) (found : Booked) (text : List ℕ) (t : Taken (Unit {0})) → Finds session limits front found
        → close_step (history_of found) session ≡ Some t
        → MovesOn session limits front (after_step found (close_step (history_of found) session)).pages (Idle [] text) (Shut text) }
{}

/// A lack moves an evaluation on that lacks this context, to where its answer says, and so does the session stand then.
pub fn lacks_move()
    ensures moves { (session : ℕ) (limits : Limits) (front : Pages) (found : Booked) (r : Request) (op : Op) (envelope : Envelope) (iri : List ℕ) (t : Taken LackAnswer) → Finds session limits front found
        → lack_step (history_of found) session iri ≡ Some t
        → MovesOn session limits front (after_step found (lack_step (history_of found) session iri)).pages (play.Pinned r op envelope (Err (stop.Missing iri))) (after_lack r op envelope iri t.answer) }
    ensures told { (session : ℕ) (limits : Limits) (front : Pages) (found : Booked) (iri : List ℕ) (t : Taken LackAnswer) → Finds session limits front found
        → lack_step (history_of found) session iri ≡ Some t → AfterLack (after_step found (lack_step (history_of found) session iri)).pages session iri t.answer }
{}

/// A failure of a flight that the session led leaves it waiting at its stage, while the count of failures rises. The flight has failed then, and the session stands as it stood.
pub fn fails_move()
    ensures moves { (session : ℕ) (limits : Limits) (front : Pages) (found : Booked) (number : ℕ) (flight : Flight) (before after : ℕ) (t : Taken (Unit {0})) (stage : Stage) (given : List loader.Given) (low : ℕ) → Finds session limits front found → flight.session ≡ session → IsFlightAt found.pages number flight
        → fail_step (history_of found) number before after ≡ Some t → Rose before after → IsWaiting stage → low ≤ before
        → Moves session (place limits front given low stage) (place limits (after_step found (fail_step (history_of found) number before after)).pages given after stage) }
    ensures ends { (session : ℕ) (limits : Limits) (front : Pages) (found : Booked) (number : ℕ) (flight : Flight) (before after : ℕ) (t : Taken (Unit {0})) → Finds session limits front found → flight.session ≡ session → IsFlightAt found.pages number flight
        → fail_step (history_of found) number before after ≡ Some t → end_of (state (entries_of (after_step found (fail_step (history_of found) number before after)).pages)) number ≡ Some (end.Failed before after) }
    ensures stands { (session : ℕ) (limits : Limits) (front : Pages) (found : Booked) (number : ℕ) (flight : Flight) (before after : ℕ) (t : Taken (Unit {0})) (s : Session) → Finds session limits front found → flight.session ≡ session → IsFlightAt found.pages number flight
        → fail_step (history_of found) number before after ≡ Some t → IsOpenAt found.pages session s → IsOpenAt (after_step found (fail_step (history_of found) number before after)).pages session s }
{}

/// A flight that the session led may lapse, whether its loader gave an answer for it or nothing. The session waits at its stage, and stands as it stood.
pub fn lapses_move()
    ensures moves { (session : ℕ) (limits : Limits) (front : Pages) (found : Booked) (number : ℕ) (flight : Flight) (t : Taken (Unit {0})) (stage : Stage) (given gained : List loader.Given) (faults : ℕ) → Finds session limits front found → flight.session ≡ session → IsFlightAt found.pages number flight
        → lapse_step (history_of found) number ≡ Some t → IsWaiting stage
        → (gained ≡ []) ⊎ ((x : loader.Given) × (gained ≡ x ∷ []) × (x.flight ≡ number) × (x.iri ≡ flight.iri))
        → Moves session (place limits front given faults stage) (place limits (after_step found (lapse_step (history_of found) number)).pages (given ++ gained) faults stage) }
    ensures ends { (session : ℕ) (limits : Limits) (front : Pages) (found : Booked) (number : ℕ) (flight : Flight) (t : Taken (Unit {0})) → Finds session limits front found → flight.session ≡ session → IsFlightAt found.pages number flight
        → lapse_step (history_of found) number ≡ Some t → end_of (state (entries_of (after_step found (lapse_step (history_of found) number)).pages)) number ≡ Some end.Lapsed }
    ensures stands { (session : ℕ) (limits : Limits) (front : Pages) (found : Booked) (number : ℕ) (flight : Flight) (t : Taken (Unit {0})) (s : Session) → Finds session limits front found → flight.session ≡ session → IsFlightAt found.pages number flight
        → lapse_step (history_of found) number ≡ Some t → IsOpenAt found.pages session s → IsOpenAt (after_step found (lapse_step (history_of found) number)).pages session s }
{}

/// An answer for a flight that the session led leaves it waiting at its stage, and is what its loader gave. The flight has ended
/// as the step answers then, and the session stands as it stood.
pub fn publishes_move()
    ensures moves { (session : ℕ) (limits : Limits) (front : Pages) (found : Booked) (number : ℕ) (flight : Flight) (ready : Readied) (t : Taken PublishAnswer) (stage : Stage) (given : List loader.Given) (x : loader.Given) (faults : ℕ) → Finds session limits front found → flight.session ≡ session → IsFlightAt found.pages number flight → Tells ready.doc ready.length ready.mark
        → publish_step (history_of found) number (given_of ready) ≡ Some t → IsGiven number flight.iri ready x → IsWaiting stage
        → Moves session (place limits front given faults stage) (place limits (after_answer found (publish_step (history_of found) number (given_of ready)) ready.doc).pages (given ++ x ∷ []) faults stage) }
    ensures ends { (session : ℕ) (limits : Limits) (front : Pages) (found : Booked) (number : ℕ) (flight : Flight) (ready : Readied) (t : Taken PublishAnswer) → Finds session limits front found → flight.session ≡ session → IsFlightAt found.pages number flight → Tells ready.doc ready.length ready.mark
        → publish_step (history_of found) number (given_of ready) ≡ Some t → end_of (state (entries_of (after_answer found (publish_step (history_of found) number (given_of ready)) ready.doc).pages)) number ≡ Some (end_by t.answer) }
    ensures stands { (session : ℕ) (limits : Limits) (front : Pages) (found : Booked) (number : ℕ) (flight : Flight) (ready : Readied) (t : Taken PublishAnswer) (s : Session) → Finds session limits front found → flight.session ≡ session → IsFlightAt found.pages number flight → Tells ready.doc ready.length ready.mark
        → publish_step (history_of found) number (given_of ready) ≡ Some t → IsOpenAt found.pages session s → IsOpenAt (after_answer found (publish_step (history_of found) number (given_of ready)) ready.doc).pages session s }
{}

/// An eviction moves a session on to where its answer says, and no request is under way then.
pub fn evictions_move()
    ensures moves { (session : ℕ) (limits : Limits) (front : Pages) (found : Booked) (r : Request) (iri : List ℕ) (t : Taken EvictAnswer) → Finds session limits front found
        → evict_step (history_of found) session iri ≡ Some t
        → MovesOn session limits front (after_step found (evict_step (history_of found) session iri)).pages (play.Evicting r iri) (after_evict r t.answer) }
    ensures told { (session : ℕ) (limits : Limits) (front : Pages) (found : Booked) (iri : List ℕ) (t : Taken EvictAnswer) → Finds session limits front found
        → evict_step (history_of found) session iri ≡ Some t → Stands (after_step found (evict_step (history_of found) session iri)).pages session last.Idle }
{}

/// A revision moves a session on to where its answer says, and so does the session stand then.
pub fn revisions_move()
    ensures moves { (session : ℕ) (limits : Limits) (front : Pages) (found : Booked) (r : Request) (iri : List ℕ) (t : Taken ReviseAnswer) → Finds session limits front found
        → revise_step (history_of found) session iri ≡ Some t
        → MovesOn session limits front (after_step found (revise_step (history_of found) session iri)).pages (play.Revising r iri) (after_revise r iri t.answer) }
    ensures told { (session : ℕ) (limits : Limits) (front : Pages) (found : Booked) (iri : List ℕ) (t : Taken ReviseAnswer) → Finds session limits front found
        → revise_step (history_of found) session iri ≡ Some t → AfterRevise (after_step found (revise_step (history_of found) session iri)).pages session iri t.answer }
{}
