use ld_history::{Answer, Entry, Limits, Name};
use ld_rec::Doc;

/// An entry of a book's history, with the document that it brought, which is there exactly where it is a Published. It is
/// what contracts see of a book: a book keeps its entries and its documents apart, and makes no value of this type.
#[derive(Debug, Drop)]
pub struct Page {
    pub entry: Entry<Name, Answer>,
    pub doc: Option<Doc>,
}

/// A page, with the limits of its book, which are the same for all its pages. It is what those who take turns at a book
/// tell one another; no value of it is made.
#[derive(Debug, Drop)]
pub struct Line {
    pub limits: Limits,
    pub page: Page,
}
