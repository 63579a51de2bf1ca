ghost use Rattle.ld_rec.specs.Documents.{IsStored};

use crate::stored::Stored;
use ld_tree::Url;

/// A document of the stock: the place that it came from, and what was there. Its body is that of some text:
/// what is read agrees with the text that is kept.
#[derive(Debug, Drop)]
pub struct Doc {
    pub url: Url,
    pub body: Stored,
    pub ghost is_of_a_text: { ∥ IsStored body ∥₁ },
}
