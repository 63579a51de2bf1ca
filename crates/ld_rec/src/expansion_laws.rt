//! What holds of all answers of expansion, as functions that do nothing: the contract of each is a law.
ghost use Rattle.std.specs.Prelude.{◌≡◌, ℕ, List, Option, Err, IfOk, IsTrue};
ghost use Rattle.ld_tree.specs.declared.tree.Tree.{Tree};
ghost use Rattle.ld_rec.specs.Outcome.{Stock, AreAlike, IsWithin, IsMissingLast, IsNotMissing};
ghost use Rattle.ld_rec.specs.Expansion.{expanded};
ghost use Rattle.ld_rec.specs.Form.{in_expanded_form};
ghost use Rattle.ld_rec.specs.declared.stop.Stop.TheVariants as stop;

/// Expansion rests on the documents that it asks for alone: over each stock that has the same under the IRIs
/// asked for, it asks the same and answers the same.
pub fn expansion_rests_on_its_questions()
    ensures { (stock other : Stock) (base : Option (List ℕ)) (document : Tree) → AreAlike stock other (expanded stock base document).reads → expanded other base document ≡ expanded stock base document }
{}

/// An expansion that isn't Missing stays over every stock that has the same documents and more.
pub fn expansions_stay()
    ensures { (stock more : Stock) (base : Option (List ℕ)) (document : Tree) → IsWithin stock more → IsNotMissing (expanded stock base document).result → expanded more base document ≡ expanded stock base document }
{}

/// Missing names the first document that the expansion asked for and that isn't there: those asked for before it
/// are.
pub fn missing_in_expansion_is_the_first()
    ensures { (stock : Stock) (base : Option (List ℕ)) (document : Tree) (iri : List ℕ) → (expanded stock base document).result ≡ Err (stop.Missing iri) → IsMissingLast stock (expanded stock base document).reads iri }
{}

/// What an expansion gives is in expanded form.
pub fn expansions_are_in_expanded_form()
    ensures { (stock : Stock) (base : Option (List ℕ)) (document : Tree) → IfOk (expanded stock base document).result (λ tree. IsTrue (in_expanded_form tree)) }
{}
