ghost use Rattle.std.specs.Prelude.{◌≡◌, ◌↔◌, Some};

/// A keyword: JSON-LD 1.1, "Syntax Tokens and Keywords". `Typed` is `@type`.
#[derive(Clone, Copy, Debug, PartialEq, Eq)]
pub enum Keyword {
    Base,
    Container,
    Context,
    Direction,
    Graph,
    Id,
    Import,
    Included,
    Index,
    Json,
    Language,
    List,
    Nest,
    None,
    Prefix,
    Propagate,
    Protected,
    Reverse,
    Set,
    Typed,
    Value,
    Version,
    Vocab,
}

impl Keyword {
    ghost use Rattle.ld_codes.specs.declared.keyword.Keyword.{Keyword};
    ghost use Rattle.ld_codes.specs.Keywords.{keyword_text};

    /// The keyword as documents have it, with its `@`.
    pub fn text(&self) -> &'static str
        ensures { result.now ≡ keyword_text self.now }
    {
        match self {
            Keyword::Base => "@base",
            Keyword::Container => "@container",
            Keyword::Context => "@context",
            Keyword::Direction => "@direction",
            Keyword::Graph => "@graph",
            Keyword::Id => "@id",
            Keyword::Import => "@import",
            Keyword::Included => "@included",
            Keyword::Index => "@index",
            Keyword::Json => "@json",
            Keyword::Language => "@language",
            Keyword::List => "@list",
            Keyword::Nest => "@nest",
            Keyword::None => "@none",
            Keyword::Prefix => "@prefix",
            Keyword::Propagate => "@propagate",
            Keyword::Protected => "@protected",
            Keyword::Reverse => "@reverse",
            Keyword::Set => "@set",
            Keyword::Typed => "@type",
            Keyword::Value => "@value",
            Keyword::Version => "@version",
            Keyword::Vocab => "@vocab",
        }
    }

    /// The keyword with this text; `None` where the text is no keyword.
    pub fn from_text(text: &str) -> Option<Keyword>
        ensures { (k : Keyword) → (result ≡ Some k) ↔ (keyword_text k ≡ text.now) }
    {
        match text {
            "@base" => Some(Keyword::Base),
            "@container" => Some(Keyword::Container),
            "@context" => Some(Keyword::Context),
            "@direction" => Some(Keyword::Direction),
            "@graph" => Some(Keyword::Graph),
            "@id" => Some(Keyword::Id),
            "@import" => Some(Keyword::Import),
            "@included" => Some(Keyword::Included),
            "@index" => Some(Keyword::Index),
            "@json" => Some(Keyword::Json),
            "@language" => Some(Keyword::Language),
            "@list" => Some(Keyword::List),
            "@nest" => Some(Keyword::Nest),
            "@none" => Some(Keyword::None),
            "@prefix" => Some(Keyword::Prefix),
            "@propagate" => Some(Keyword::Propagate),
            "@protected" => Some(Keyword::Protected),
            "@reverse" => Some(Keyword::Reverse),
            "@set" => Some(Keyword::Set),
            "@type" => Some(Keyword::Typed),
            "@value" => Some(Keyword::Value),
            "@version" => Some(Keyword::Version),
            "@vocab" => Some(Keyword::Vocab),
            _ => None,
        }
    }
}
