ghost use Rattle.std.specs.Prelude.{◌≡◌, OnOk};
ghost use Rattle.ld_tree.specs.Maps.{put as with_put};
ghost use Rattle.ld_rec.specs.Terms.{is_due, put_def};
ghost use Rattle.ld_rec.specs.Records.{with_terms};
ghost use Rattle.ld_ctx.specs.Flat.{flat};
ghost use Rattle.ld_term.specs.Waits.{made_of};
ghost use Rattle.ld_term.specs.Sizes.{Grows};

use ld_ctx::Ctx;
use ld_rec::Def;
use ld_tree::{Entries, NameMap, NoMemory, Text, Tree};
use std::alloc::Global;

/// Which terms of a local context are defined: true where one is, and false where it is on the way.
pub type Defined = NameMap<bool>;

pub fn mark(defined: &mut Defined, name: Text, value: bool) -> Result<(), NoMemory>
    ensures put { OnOk result (defined.new ≡ with_put defined.old name value) }
    ensures table { Grows defined.old defined.new }
{
    match defined.put(name, value) {
        Ok(_) => Ok(()),
        Err((_, _, e)) => Err(e),
    }
}

/// Whether the local context has the name and it isn't defined.
pub fn is_due(local: &Entries<Tree>, made: &Ctx, defined: &Defined, name: &str) -> bool
    ensures { result ≡ is_due local.now name.now (made_of made.now defined.now) }
{
    match local.get(name) {
        None => false,
        Some(_) => match defined.get(name) {
            Some(true) => false,
            _ => true,
        },
    }
}

fn put_into(made: &mut Ctx, term: Text, def: Def) -> Result<(), NoMemory>
    ensures { OnOk result (flat made.new ≡ with_terms (flat made.old) (with_put (flat made.old).own.terms term def)) }
{
    match made.put(term, def) {
        Ok(()) => Ok(()),
        Err((_, _, e)) => Err(e),
    }
}

/// Step 28: the definition is put, and the table takes true.
pub fn put_def(
    alloc: Global,
    made: &mut Ctx,
    defined: &mut Defined,
    term: Text,
    def: Def,
) -> Result<(), NoMemory>
    ensures put { OnOk result (made_of made.new defined.new ≡ put_def term def (made_of made.old defined.old)) }
    ensures table { Grows defined.old defined.new }
{
    let name = term.try_copy(alloc)?;
    put_into(made, term, def)?;
    mark(defined, name, true)
}
