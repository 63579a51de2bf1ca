//! What the definitions say, law by law. The function that carries a law does nothing.
ghost use Rattle.std.specs.Prelude.{◌≡◌, ℕ, List, [], ◌∷◌, ◌++◌, Some, None, Ok, Err, ◌==◌, true};
ghost use Rattle.ld_answer.specs.Answers.{answered};
ghost use Rattle.ld_answer.specs.Envelopes.{IsAccepted};
ghost use Rattle.ld_answer.specs.declared.envelope.Envelope.{Envelope};
ghost use Rattle.ld_answer.specs.declared.op.Op.{Op};
ghost use Rattle.ld_head.specs.Dialogues.{Ask, Bad, Marked};
ghost use Rattle.ld_head.specs.declared.dialogue.Marks.{Marks};
ghost use Rattle.ld_head.specs.declared.outcome.Outcome.TheVariants as outcome;
ghost use Rattle.ld_head.specs.declared.path.Path.{Path};
ghost use Rattle.ld_history.specs.Counts.{own_from, owner};
ghost use Rattle.ld_history.specs.Legal.{Entries, Legal, state};
ghost use Rattle.ld_history.specs.Steps.{Taken, evict_step, lack_step, revise_step};
ghost use Rattle.ld_history.specs.Store.{Store};
ghost use Rattle.ld_history.specs.declared.answers.EvictAnswer.{EvictAnswer};
ghost use Rattle.ld_history.specs.declared.answers.LackAnswer.{LackAnswer};
ghost use Rattle.ld_history.specs.declared.answers.ReviseAnswer.{ReviseAnswer};
ghost use Rattle.ld_history.specs.declared.event.Entry.{Entry};
ghost use Rattle.ld_history.specs.declared.event.Given.{Given};
ghost use Rattle.ld_history.specs.declared.limits.Limits.{Limits};
ghost use Rattle.ld_own.specs.Own.{Placed, own_placed, own_placed_from};
ghost use Rattle.ld_rec.specs.Outcome.{Stock};
ghost use Rattle.ld_rec.specs.declared.stop.Stop.TheVariants as stop;
ghost use Rattle.ld_tree.specs.declared.tree.Tree.{Tree};
ghost use Rattle.ld_fits.specs.Asks.{operation};
ghost use Rattle.ld_fits.specs.Examples.{evaluated, unrecorded};
ghost use Rattle.ld_fits.specs.Fits.{AgreeUpTo, Fits, Goes, Leads, PinWithin};
ghost use Rattle.ld_fits.specs.Leading.{after_evict, after_lack, after_revise};
ghost use Rattle.ld_fits.specs.Play.{Evicting, Pinned, Request, Revising, Stage, item_text, step};

/// Entries lead on from where others led, and what they lead to stays as the history grows: it reads no more of it than
/// the stocks of the versions that they pin.
pub fn stages_go_on()
    ensures on { (limits : Limits) (stock : ℕ → Stock) (from via to : Stage) (mine more : List Placed)
        → Leads limits stock from mine via → Leads limits stock via more to → Leads limits stock from (mine ++ more) to }
    ensures stay { (limits : Limits) (n : ℕ) (stock : ℕ → Stock) (from to : Stage) (mine : List Placed)
        → PinWithin n mine → Leads limits stock from mine to → Goes limits n stock from mine to }
{}

/// What the steps of a legal history append leads the session that takes them to where their answers say: an evaluation that
/// lacks a context, a revision and an eviction; and one entry of a session leads to the next stage.
pub fn steps_lead()
    ensures entry { (limits : Limits) (stock : ℕ → Stock) (store : Store) (session : ℕ) (from : Stage) (entry : Entry (List ℕ) Given) → (owner store entry.event == session) ≡ true
        → Leads limits stock from (own_placed_from store session (entry ∷ [])) (step limits stock store from entry.event) }
    ensures lack { (limits : Limits) (stock : ℕ → Stock) (entries : Entries) (session : ℕ) (r : Request) (op : Op) (envelope : Envelope) (iri : List ℕ) (t : Taken LackAnswer)
        → lack_step (record { limits = limits; entries = entries }) session iri ≡ Some t
        → Leads limits stock (Pinned r op envelope (Err (stop.Missing iri))) (own_placed_from (state entries) session t.entries) (after_lack r op envelope iri t.answer) }
    ensures revise { (limits : Limits) (stock : ℕ → Stock) (entries : Entries) (session : ℕ) (r : Request) (iri : List ℕ) (t : Taken ReviseAnswer) → Legal limits entries
        → revise_step (record { limits = limits; entries = entries }) session iri ≡ Some t
        → Leads limits stock (Revising r iri) (own_placed_from (state entries) session t.entries) (after_revise r iri t.answer) }
    ensures evict { (limits : Limits) (stock : ℕ → Stock) (entries : Entries) (session : ℕ) (r : Request) (iri : List ℕ) (t : Taken EvictAnswer)
        → evict_step (record { limits = limits; entries = entries }) session iri ≡ Some t
        → Leads limits stock (Evicting r iri) (own_placed_from (state entries) session t.entries) (after_evict r t.answer) }
{}

/// A history that fits still does once it has grown by entries of other sessions, whatever versions they make.
pub fn fits_stay()
    ensures { (limits : Limits) (n : ℕ) (stock later : ℕ → Stock) (entries more : Entries) (session : ℕ) (items : List Marked) (written : List ℕ)
        → PinWithin n (own_placed session entries) → AgreeUpTo n stock later → own_from (state entries) session more ≡ []
        → Fits limits stock entries session items written → Fits limits later (entries ++ more) session items written }
{}

/// A session of one item that stands in no history, and one of one evaluation that was answered at its first pin.
pub fn short_sessions_fit()
    ensures unrecorded { (limits : Limits) (stock : ℕ → Stock) (status : ℕ) (marks : Marks)
        → Fits limits stock unrecorded 1 (record { item = Bad status; marks = marks } ∷ []) (item_text None (outcome.Bad status) marks) }
    ensures evaluated { (limits : Limits) (stock : ℕ → Stock) (path : Path) (op : Op) (body : List ℕ) (envelope : Envelope) (marks : Marks) (tree : Tree)
        → operation path ≡ Some op → IsAccepted op body envelope → answered (stock 0) op envelope ≡ Ok tree
        → Fits limits stock evaluated 1 (record { item = Ask path body; marks = marks } ∷ []) (item_text (Some (1, 0)) (outcome.Result tree) marks) }
{}
