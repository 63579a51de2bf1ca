ghost use Rattle.std.specs.Prelude.{◌≡◌, ℕ, Option, slice_get, IfOk, option_copied, option_map};
ghost use Rattle.std.specs.Map.{keys_of};
ghost use Rattle.ld_rec.specs.Records.{Context, previous as previous_context, def_of};

use ld_rec::Def;
use ld_tree::NoMemory;
use std::alloc::Global;

/// Reads an active context (JSON-LD 1.1 API, 4.1), whatever keeps it. All but `try_copy` take no memory.
pub trait View: Drop {
    /// The context that it stands for.
    ghost flat: { Self → Context };

    /// The view of its previous context, where it has one.
    ghost behind: { Self → Option Self };

    /// What a copy is.
    ghost IsCopy: { Self → Self → Type 0 };

    /// The number under which a library keeps it.
    ghost numbered: { Self → Option ℕ };

    /// The definition of the term.
    fn def(&self, term: &str) -> Option<&Def>
        ensures { option_copied result ≡ def_of (flat self.now) term.now };

    /// The base IRI.
    fn base(&self) -> Option<&str>
        ensures { option_copied result ≡ (flat self.now).own.base };

    /// The original base URL.
    fn first_base(&self) -> Option<&str>
        ensures { option_copied result ≡ (flat self.now).own.first_base };

    /// The vocabulary mapping.
    fn vocab(&self) -> Option<&str>
        ensures { option_copied result ≡ (flat self.now).own.vocab };

    /// The default language, in lower case.
    fn language(&self) -> Option<&str>
        ensures { option_copied result ≡ (flat self.now).own.language };

    /// The default base direction, which no context has yet.
    fn direction(&self) -> Option<&str>
        ensures { option_copied result ≡ (flat self.now).own.direction };

    /// The previous context.
    fn previous(&self) -> Option<&Self>
        ensures view { option_copied result ≡ behind self.now }
        ensures context { option_map flat (option_copied result) ≡ previous_context (flat self.now) };

    /// The term at the place, in code point order.
    fn term_at(&self, place: usize) -> Option<&str>
        ensures { option_copied result ≡ slice_get (keys_of (flat self.now).own.terms.0) place };

    /// The number under which a library keeps the context, where one does.
    fn number(&self) -> Option<u32>
        ensures { result ≡ numbered self.now };

    /// An equal context.
    fn try_copy(&self, alloc: Global) -> Result<Self, NoMemory>
        ensures copy { IfOk result (IsCopy self.now) }
        ensures equal { IfOk result (λ copy. flat copy ≡ flat self.now) };
}
