//! What holds of all answers, as functions that do nothing: the contract of each is a law.
ghost use Rattle.std.specs.Prelude.{◌≡◌, ℕ, List, Option, Some, Ok, Err};
ghost use Rattle.ld_rec.specs.Outcome.{Answer, Stock, AreAlike, AreThere, IsWithin, IsMissingLast, IsNotMissing};
ghost use Rattle.ld_rec.specs.Records.{Context, fresh, previous};
ghost use Rattle.ld_rec.specs.Processing.{Ask, processed, looked};
ghost use Rattle.ld_rec.specs.Promises.{IsBase, KeepsAsk, KeepsContext};
ghost use Rattle.ld_rec.specs.declared.stop.Stop.TheVariants as stop;

/// Context processing rests on the documents that it asks for alone: over each stock that has the same under
/// the IRIs asked for, it asks the same and answers the same.
pub fn processing_rests_on_its_questions()
    ensures { (stock other : Stock) (ask : Ask) → AreAlike stock other (looked stock ask) → processed other ask ≡ processed stock ask }
{}

/// An answer that isn't Missing stays over every stock that has the same documents and more.
pub fn answers_stay()
    ensures { (stock more : Stock) (ask : Ask) → IsWithin stock more → IsNotMissing (processed stock ask).result → processed more ask ≡ processed stock ask }
{}

/// Missing names the first document that was asked for and isn't there: those asked for before it are.
pub fn missing_is_the_first()
    ensures { (stock : Stock) (ask : Ask) (iri : List ℕ) → (processed stock ask).result ≡ Err (stop.Missing iri) → IsMissingLast stock (looked stock ask) iri }
{}

/// Contexts promise that their bases and the base URLs of their scoped contexts are IRIs where they are there, those
/// of previous contexts too, and that at most 32 previous contexts are behind one another. A new context for a base
/// keeps that, processing gives only contexts that keep it where the ask does, and so do their previous contexts.
pub fn contexts_keep_their_promises()
    ensures fresh_context { (base : Option (List ℕ)) → IsBase base → KeepsContext (fresh base) }
    ensures processed_context { (stock : Stock) (ask : Ask) (context : Context) → KeepsAsk ask → (processed stock ask).result ≡ Ok context → KeepsContext context }
    ensures previous_context { (context before : Context) → KeepsContext context → previous context ≡ Some before → KeepsContext before }
{}
