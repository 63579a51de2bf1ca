//! What the definitions say. The function that carries a law does nothing.
ghost use Rattle.std.specs.Prelude.{◌≡◌, ◌≤◌, ℕ, List, length, None, Err};
ghost use Rattle.ld_answer.specs.Answers.{answered};
ghost use Rattle.ld_answer.specs.declared.envelope.Envelope.{Envelope};
ghost use Rattle.ld_answer.specs.declared.op.Op.{Op};
ghost use Rattle.ld_rec.specs.Outcome.{Stock};
ghost use Rattle.ld_rec.specs.declared.stop.Stop.TheVariants as stop;
ghost use Rattle.ld_tree.specs.Maps.{find};

/// A document that is named as missing isn't in the stock.
pub fn missing_is_lacked()
    ensures { (stock : Stock) (op : Op) (envelope : Envelope) (iri : List ℕ) → answered stock op envelope ≡ Err (stop.Missing iri) → find stock iri ≡ None }
{}

/// A document that is named as missing has an IRI of no more than 2048 bytes: none longer is asked for.
pub fn missing_is_short()
    ensures { (stock : Stock) (op : Op) (envelope : Envelope) (iri : List ℕ) → answered stock op envelope ≡ Err (stop.Missing iri) → length iri ≤ 2048 }
{}
