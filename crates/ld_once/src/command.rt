ghost use Rattle.std.specs.Prelude.{◌≡◌, List, MatchOption, map, string_bytes};
ghost use Rattle.ld_once.specs.Runs.{IsForm, IsFormOf, word_of};

use ld_answer::Op;

/// What the words ask for.
#[derive(Clone, Copy, Debug, PartialEq, Eq)]
pub enum Command {
    /// What the document of an envelope comes to.
    Document(Op),
    /// What a script of store events prints.
    Schedule,
}

impl Command {
    /// The command whose word stands alone, if it is one.
    pub fn from_words(words: &[String]) -> Option<Command>
        ensures { MatchOption result (IsForm (map string_bytes words.now) → ⊥) (IsFormOf (map string_bytes words.now)) }
    {
        match words {
            [word] => Command::from_word(word.as_str()),
            _ => None,
        }
    }

    fn from_word(word: &str) -> Option<Command>
        ensures { MatchOption result ((command : Command) → word.now ≡ word_of command → ⊥) (λ command. word.now ≡ word_of command) }
    {
        if word == "expand" {
            Some(Command::Document(Op::Expand))
        } else if word == "compact" {
            Some(Command::Document(Op::Compact))
        } else if word == "flatten" {
            Some(Command::Document(Op::Flatten))
        } else if word == "schedule" {
            Some(Command::Schedule)
        } else {
            None
        }
    }
}
