ghost use Rattle.std.specs.Prelude.{◌≡◌};

/// What a history may hold at most. A value, so that tests and scripts use smaller numbers.
#[derive(Clone, Copy, Debug, PartialEq, Eq)]
pub struct Limits {
    /// Contexts stored, with those that a Lead flight under way will bring.
    pub contexts: u32,
    /// Contexts held by one request.
    pub held: u32,
    /// Events in the history.
    pub events: u64,
    /// Bytes kept of texts and names.
    pub bytes: u64,
}

impl Limits {
    /// The server's limits, above which no history's are.
    pub fn server() -> Limits
        ensures { result ≡ record { contexts = 256; held = 64; events = 16777216; bytes = 134217728 } }
    {
        Limits {
            contexts: 256,
            held: 64,
            events: 16_777_216,
            bytes: 134_217_728,
        }
    }
}
