use crate::keyword::Keyword;

/// A refusal that is this project's own, and no code of the standard.
#[derive(Clone, Copy, Debug, PartialEq, Eq)]
pub enum Own {
    /// Contexts lie deeper within one another than this profile follows.
    NestingLimit,
    /// The keyword is one that this profile leaves out at this place.
    OutsideProfile(Keyword),
}
