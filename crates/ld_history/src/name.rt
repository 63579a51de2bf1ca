ghost use Rattle.std.specs.Prelude.{◌≡◌, IfOk, Some, refl, nat_eq};
ghost use Rattle.std.specs.Cmp.Lexicographic.{pointwise, slice_cmp, nat_list_eq_equiv, nat_list_cmp_total, texts_ties, texts_po};
ghost use Rattle.std.specs.Cmp.{partial_equiv_from_equiv};
ghost use Rattle.std.specs.Ordering.{nat_cmp};
ghost use Rattle.ld_history.specs.Words.{same_given};

use ld_tree::{Iri, NoMemory, Raw};
use std::alloc::Global;
use std::cmp::Ordering;
use std::marker::Model;
use std::sync::Arc;

/// An IRI whose text is kept once, however many places name it. Contracts see its bytes.
#[derive(Debug, Drop)]
pub struct Name {
    text: Arc<Iri>,
}

impl Model for Name {
    ghost use Rattle.std.specs.Prelude.{List, ℕ};

    ghost Value = { List ℕ };

    ghost view = { λ n. n.text.value };
}

impl Name {
    pub fn new(alloc: Global, iri: Iri) -> Result<Name, NoMemory>
        ensures { IfOk result (λ name. name ≡ iri) }
    {
        let text = Arc::new(alloc, iri)?;
        Ok(Name { text })
    }

    pub fn share(&self) -> Result<Name, NoMemory>
        ensures { IfOk result (λ name. name ≡ self.now) }
    {
        let text = Arc::try_clone(&self.text)?;
        Ok(Name { text })
    }

    pub fn as_iri(&self) -> &Iri
        ensures { result.now ≡ self.now }
    {
        &self.text
    }
}

impl PartialEq for Name {
    ghost eq = { pointwise nat_eq };

    ghost laws = { partial_equiv_from_equiv nat_list_eq_equiv };

    fn eq(&self, other: &Name) -> bool {
        *self.as_iri() == *other.as_iri()
    }
}

impl Eq for Name {
    ghost laws = { nat_list_eq_equiv };
}

impl PartialOrd for Name {
    ghost partial_cmp = { λ x y. Some (slice_cmp nat_cmp x y) };

    ghost laws = { texts_po };

    fn partial_cmp(&self, other: &Name) -> Option<Ordering> {
        Some(self.cmp(other))
    }
}

impl Ord for Name {
    ghost cmp = { slice_cmp nat_cmp };

    ghost total = { nat_list_cmp_total };

    ghost matches_partial_cmp = { λ x y. refl };

    ghost matches_eq = { texts_ties };

    fn cmp(&self, other: &Name) -> Ordering {
        self.as_iri().cmp(other.as_iri())
    }
}

/// A flight's answer that is kept once. Contracts see the answer.
#[derive(Debug, Drop)]
pub struct Answer {
    kept: Arc<Kept>,
}

/// A flight's answer, whose url shares its text.
#[derive(Debug, Drop)]
pub(crate) struct Kept {
    pub url: Name,
    pub length: u32,
    pub mark: Raw,
}

impl Model for Answer {
    ghost use Rattle.ld_history.specs.declared.event.Given.{Given};

    ghost Value = { Given };

    ghost view = { λ a. record { url = a.kept.value.url; length = a.kept.value.length; mark = a.kept.value.mark } };
}

impl Answer {
    pub fn new(alloc: Global, url: Name, length: u32, mark: Raw) -> Result<Answer, NoMemory>
        ensures { IfOk result (λ answer. answer ≡ record { url = url; length = length; mark = mark }) }
    {
        let kept = Arc::new(alloc, Kept { url, length, mark })?;
        Ok(Answer { kept })
    }

    pub fn share(&self) -> Result<Answer, NoMemory>
        ensures { IfOk result (λ answer. answer ≡ self.now) }
    {
        let kept = Arc::try_clone(&self.kept)?;
        Ok(Answer { kept })
    }

    pub fn url(&self) -> &Name
        ensures { result.now ≡ self.now.url }
    {
        &self.kept.url
    }

    pub fn length(&self) -> u32
        ensures { result ≡ self.now.length }
    {
        self.kept.length
    }

    pub fn mark(&self) -> &Raw
        ensures { result.now ≡ self.now.mark }
    {
        &self.kept.mark
    }

    /// The same url, length and mark.
    pub fn is_same(&self, other: &Answer) -> bool
        ensures { result ≡ same_given self.now other.now }
    {
        *self.url() == *other.url()
            && self.length() == other.length()
            && *self.mark() == *other.mark()
    }
}
