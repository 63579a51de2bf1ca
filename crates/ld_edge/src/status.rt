ghost use Rattle.std.specs.Prelude.{◌≡◌};

/// How a run of the program ended.
#[derive(Clone, Copy, Debug, PartialEq, Eq)]
pub enum Status {
    Done,
    /// The input was read and refused.
    Refused,
    /// The command line is faulty.
    Usage,
    /// The input could not be read.
    ReadFault,
    /// The output could not be written.
    WriteFault,
    /// A context could not be loaded.
    LoadFault,
    /// More contexts are needed than are held at once.
    TooMany,
    NoMemory,
    /// The input is longer than the program reads.
    InputTooLong,
}

impl Status {
    ghost use Rattle.ld_edge.specs.Status.{code_of};

    /// The number of the exit status.
    pub fn code(self) -> u8
        ensures { result ≡ code_of self }
    {
        self as u8
    }
}
