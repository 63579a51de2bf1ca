ghost use Rattle.std.specs.Prelude.{◌≡◌, List, map, slice_get, option_copied, option_map};
ghost use Rattle.ld_rec.specs.Records.{Context};
ghost use Rattle.ld_rec.specs.Slots.{slot, Offer};
ghost use Rattle.ld_rec.specs.Selection.{first_to_offer, first_some, chosen};
ghost use Rattle.ld_rec.specs.Compacting.{is_mapped};
ghost use Rattle.ld_inverse.specs.Under.{IsGroupedUnder};
ghost use Rattle.ld_inverse.specs.Inverses.{IsInverseOf};

use crate::table::{offers_of, offers_under};
use ld_ctx::Containers;
use ld_rec::{Kind, Slot};
use ld_tree::{Iri, Text};

/// The inverse context (JSON-LD 1.1 API, 4.3): what a context's terms offer, sorted by slot, and its prefixes,
/// sorted by mapping. Where several stand under one slot or mapping, the shortest term is the first.
/// `build` alone makes one, from a ticket.
#[derive(Debug, Drop)]
pub struct Inverse {
    pub(crate) slots: Vec<(Slot, Text)>,
    pub(crate) prefixes: Vec<(Iri, Text)>,
    // The lengths of the prefixes' mappings, ascending.
    pub(crate) lengths: Vec<usize>,
    pub(crate) number: Option<u32>,
}

fn first_term(offers: &[(Slot, Text)]) -> Option<&str>
    ensures { option_copied result ≡ option_map (λ o. o.1) (slice_get offers.now 0) }
{
    match offers {
        [first, ..] => Some(first.1.as_str()),
        [] => None,
    }
}

// The offers are those of all slots of the IRI.
fn first_to_offer<'a>(
    offers: &'a [(Slot, Text)],
    iri: &str,
    containers: Containers,
    kind: Kind,
    value: &str,
) -> Option<&'a str>
    ensures { (all : List Offer) → IsGroupedUnder iri.now all offers.now → option_copied result ≡ first_to_offer all (slot iri.now containers kind value.now) }
{
    first_term(offers_of(offers, iri, containers, kind, value))
}

fn first_preferred<'a>(
    offers: &'a [(Slot, Text)],
    iri: &str,
    containers: Containers,
    kind: Kind,
    preferred: &[&str],
) -> Option<&'a str>
    ensures { (all : List Offer) → IsGroupedUnder iri.now all offers.now → option_copied result ≡ first_some (λ value. first_to_offer all (slot iri.now containers kind value)) (map (λ p. p.now) preferred.now) }
{
    for value in preferred {
        let found = first_to_offer(offers, iri, containers, kind, value);
        if found.is_some() {
            return found;
        }
    }
    None
}

impl Inverse {
    /// The number that the ticket named from which the inverse was built.
    pub fn number(&self) -> Option<u32>
        ensures { result ≡ self.now.number }
    {
        self.number
    }

    /// Whether some term maps to the IRI. Takes no memory, and time logarithmic in the number of terms.
    pub fn maps(&self, iri: &str) -> bool
        ensures { (context : Context) → IsInverseOf self.now context → result ≡ is_mapped context iri.now }
    {
        offers_under(self.slots.as_slice(), iri).len() != 0
    }

    /// The term that the context chooses for the IRI (Term Selection: JSON-LD 1.1 API, 4.4): the containers are
    /// tried in order, and for each the preferred values in order. Takes no memory, and time logarithmic in the
    /// number of terms, and for each try in that of the terms for the IRI.
    pub fn select(
        &self,
        iri: &str,
        containers: &[Containers],
        kind: Kind,
        preferred: &[&str],
    ) -> Option<&str>
        ensures { (context : Context) → IsInverseOf self.now context → option_copied result ≡ chosen context iri.now containers.now kind (map (λ p. p.now) preferred.now) }
    {
        let offers = offers_under(self.slots.as_slice(), iri);
        for tried in containers {
            let found = first_preferred(offers, iri, *tried, kind, preferred);
            if found.is_some() {
                return found;
            }
        }
        None
    }
}
