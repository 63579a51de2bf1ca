ghost use Rattle.std.specs.Prelude.{◌≡◌, Some, None};

/// The leave to build one inverse. A ticket can't be let go: it ends in a build or by [`BuildTicket::end`].
/// One with a number is for the context that a library keeps under that number, and one without is for the
/// context that it is spent on.
#[derive(Debug)]
pub struct BuildTicket {
    number: Option<u32>,
}

impl BuildTicket {
    /// A ticket that names no number.
    pub fn own() -> BuildTicket
        ensures { result.number ≡ None }
    {
        BuildTicket { number: None }
    }

    /// A ticket for the context of the number.
    pub fn numbered(number: u32) -> BuildTicket
        ensures { result.number ≡ Some number }
    {
        BuildTicket {
            number: Some(number),
        }
    }

    /// Ends the ticket without a build, and gives the number that it names.
    pub fn end(self) -> Option<u32>
        ensures { result ≡ self.number }
    {
        let BuildTicket { number } = self;
        number
    }

    /// The number that the ticket names.
    pub fn number(&self) -> Option<u32>
        ensures { result ≡ self.now.number }
    {
        self.number
    }
}
