ghost use Rattle.std.specs.Prelude.{◌≡◌, IfOk, option_copied};
ghost use Rattle.std.specs.Option.{ForSome};
ghost use Rattle.ld_rec.specs.Outcome.{Stock, GivesAs};
ghost use Rattle.ld_rec.specs.Records.{fresh as fresh_context};
ghost use Rattle.ld_rec.specs.Processing.{processed};
ghost use Rattle.ld_ctx.specs.Asks.{asked};

use crate::ask::Ask;
use crate::view::View;
use ld_rec::Stop;
use ld_tree::NoMemory;
use std::alloc::Global;

/// Gives contexts over one stock of documents. Nothing but `context` processes a local context.
pub trait Contexts {
    type Kept: View;

    /// The documents that the object stands for. No call changes them.
    ghost stock: { Self → Stock };

    /// What the object gave: a context that may be handed to it again.
    ghost gave: { Self → Self.Kept → Type 0 };

    /// A newly initialized active context for the base (JSON-LD 1.1 API, 4.1).
    fn fresh(&mut self, alloc: Global, base: Option<&str>) -> Result<Self::Kept, NoMemory>
        ensures fresh { IfOk result (λ kept. Self.Kept.flat kept ≡ fresh_context (option_copied base.entry)) }
        ensures gave { IfOk result (gave self.new) }
        ensures keeps { (kept : Self.Kept) → gave self.old kept → gave self.new kept }
        ensures stock { stock self.new ≡ stock self.old };

    /// What context processing (4.1.2) gives over the stock: its context, its code, a refusal of this
    /// profile's own, or the first document that is asked for and isn't there.
    fn context(&mut self, alloc: Global, ask: Ask<Self::Kept>) -> Result<Self::Kept, Stop>
        requires { gave self.old ask.active }
        ensures answer { GivesAs Self.Kept.flat result (processed (stock self.old) (asked Self.Kept.flat ask)).result }
        ensures gave { IfOk result (gave self.new) }
        ensures keeps { (kept : Self.Kept) → gave self.old kept → gave self.new kept }
        ensures stock { stock self.new ≡ stock self.old };

    /// What was given includes each previous context.
    ghost gave_behind: { (contexts : Self) (kept : Self.Kept) → gave contexts kept → ForSome (Self.Kept.behind kept) (gave contexts) };

    /// What was given includes each copy.
    ghost gave_copies: { (contexts : Self) (kept copy : Self.Kept) → gave contexts kept → Self.Kept.IsCopy kept copy → gave contexts copy };
}
