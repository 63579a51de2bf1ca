ghost use Rattle.std.specs.Prelude.{◌≡◌, IfOk, option_copied};
ghost use Rattle.ld_ctx.specs.Flat.{flat};
ghost use Rattle.ld_context.specs.Kept.{kept_flat};

use ld_ctx::{Ctx, View};
use ld_rec::Def;
use ld_tree::NoMemory;
use std::alloc::Global;
use std::mem;
use std::sync::Arc;

/// A context that is shared by all its copies, and so are its previous contexts.
#[derive(Debug, Drop)]
pub struct Kept {
    // its previous context isn't looked at
    own: Arc<Ctx>,
    previous: Option<Box<Kept>>,
}

impl Kept {
    /// The same context, to be kept.
    pub fn of(alloc: Global, ctx: Ctx) -> Result<Kept, NoMemory>
        ensures { IfOk result (λ kept. kept_flat kept ≡ flat ctx) }
    {
        let mut own = ctx;
        let previous = mem::replace(&mut own.previous, None);
        let previous = match previous {
            Some(previous) => Some(Box::new(alloc, Kept::of(alloc, Box::into_inner(previous))?)?),
            None => None,
        };
        Ok(Kept {
            own: Arc::new(alloc, own)?,
            previous,
        })
    }

    fn copied(&self, alloc: Global) -> Result<Kept, NoMemory>
        ensures { IfOk result (λ copy. kept_flat copy ≡ kept_flat self.now) }
    {
        let previous = match &self.previous {
            Some(previous) => Some(Box::new(alloc, previous.copied(alloc)?)?),
            None => None,
        };
        Ok(Kept {
            own: Arc::try_clone(&self.own)?,
            previous,
        })
    }
}

impl View for Kept {
    ghost use Rattle.std.specs.Prelude.{◌≡◌, None};
    ghost use Rattle.ld_context.specs.Kept.{kept_flat, kept_behind};

    ghost flat = { kept_flat };

    ghost behind = { kept_behind };

    ghost IsCopy = { λ kept copy. kept_flat copy ≡ kept_flat kept };

    ghost numbered = { λ _. None };

    fn def(&self, term: &str) -> Option<&Def> {
        self.own.def(term)
    }

    fn base(&self) -> Option<&str> {
        self.own.base()
    }

    fn first_base(&self) -> Option<&str> {
        self.own.first_base()
    }

    fn vocab(&self) -> Option<&str> {
        self.own.vocab()
    }

    fn language(&self) -> Option<&str> {
        self.own.language()
    }

    fn direction(&self) -> Option<&str> {
        self.own.direction()
    }

    fn previous(&self) -> Option<&Kept> {
        match &self.previous {
            Some(previous) => Some(&**previous),
            None => None,
        }
    }

    fn term_at(&self, place: usize) -> Option<&str> {
        self.own.term_at(place)
    }

    fn number(&self) -> Option<u32> {
        None
    }

    fn try_copy(&self, alloc: Global) -> Result<Kept, NoMemory> {
        self.copied(alloc)
    }
}
