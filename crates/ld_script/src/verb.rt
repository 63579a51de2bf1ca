ghost use Rattle.ld_script.specs.Reading.{IsVerb};

/// What a line asks for: its first word.
#[derive(Clone, Copy, Debug, PartialEq, Eq)]
pub(crate) enum Verb {
    Open,
    Pin,
    Lack,
    Give,
    Fail,
    Lapse,
    Evict,
    Revise,
    Answer,
    Close,
}

impl Verb {
    pub fn read(word: &[u8]) -> Option<Verb>
        ensures { IsVerb word.now result }
    {
        match word {
            b"open" => Some(Verb::Open),
            b"pin" => Some(Verb::Pin),
            b"lack" => Some(Verb::Lack),
            b"give" => Some(Verb::Give),
            b"fail" => Some(Verb::Fail),
            b"lapse" => Some(Verb::Lapse),
            b"evict" => Some(Verb::Evict),
            b"revise" => Some(Verb::Revise),
            b"answer" => Some(Verb::Answer),
            b"close" => Some(Verb::Close),
            _ => None,
        }
    }
}
