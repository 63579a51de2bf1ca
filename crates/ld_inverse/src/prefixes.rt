ghost use Rattle.std.specs.Prelude.{◌≡◌, ◌++◌, IfOk, OnOk, map, option_copied};
ghost use Rattle.std.specs.List.{flat_map};
ghost use Rattle.ld_tree.specs.Names.{name_cmp};
ghost use Rattle.ld_rec.specs.Records.{def_of};
ghost use Rattle.ld_inverse.specs.Groups.{IsGrouped, IsInOrder, group};
ghost use Rattle.ld_rec.specs.Prefixes.{prefix_of};

use ld_ctx::{Def, View};
use ld_tree::{Iri, NoMemory, Text};
use std::alloc::Global;

// Appends the term under its mapping, where it has the prefix flag.
fn push_prefix(
    alloc: Global,
    prefixes: &mut Vec<(Iri, Text)>,
    term: &str,
    def: Option<&Def>,
) -> Result<(), NoMemory>
    ensures { OnOk result (prefixes.new.items ≡ prefixes.old.items ++ prefix_of term.now (option_copied def.entry)) }
{
    let Some(def) = def else {
        return Ok(());
    };
    if def.prefix {
        if let Some(iri) = &def.mapping {
            prefixes.push((iri.try_copy(alloc)?, Text::from_str(alloc, term)?))?;
        }
    }
    Ok(())
}

/// The prefixes among the terms.
pub fn prefixes<V: View>(
    alloc: Global,
    ctx: &V,
    terms: &[&str],
) -> Result<Vec<(Iri, Text)>, NoMemory>
    ensures { IfOk result (λ prefixes. prefixes.items ≡ flat_map (λ term. prefix_of term (def_of (V.flat ctx.now) term)) (map (λ t. t.now) terms.now)) }
{
    let mut prefixes = Vec::new(alloc);
    for term in terms {
        push_prefix(alloc, &mut prefixes, term, ctx.def(term))?;
    }
    Ok(prefixes)
}

/// Sorts by mapping, and keeps the order of those of one mapping.
pub fn sort_prefixes(prefixes: &mut Vec<(Iri, Text)>) -> Result<(), NoMemory>
    ensures { OnOk result (IsGrouped name_cmp prefixes.old.items prefixes.new.items) }
{
    prefixes.sort_by(|a, b| a.0.as_str().cmp(b.0.as_str()))?;
    Ok(())
}

/// The prefixes of one mapping, by two searches by halves.
pub fn prefixes_of<'a>(prefixes: &'a [(Iri, Text)], mapping: &[u8]) -> &'a [(Iri, Text)]
    ensures { IsInOrder name_cmp prefixes.now → result.now ≡ group name_cmp mapping.now prefixes.now }
{
    let start = prefixes.partition_point(|prefix| prefix
        .0
        .as_str()
        .as_bytes()
        .cmp(mapping)
        .is_lt());
    let rest = &prefixes[start..];
    let count = rest.partition_point(|prefix| prefix.0.as_str().as_bytes().cmp(mapping).is_le());
    &rest[..count]
}
