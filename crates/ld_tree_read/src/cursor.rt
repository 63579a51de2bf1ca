ghost use Rattle.std.specs.Prelude.{◌<◌, ◌≤◌, ◌^◌, length};

/// A place in the input, between two of its bytes.
#[derive(Debug, Drop)]
pub struct Cursor<'a> {
    input: &'a [u8],
    at: usize,
    ghost within: { at ≤ length input.now },
    ghost short: { length input.now < 2 ^ 63 },
}

impl<'a> Cursor<'a> {
    ghost use Rattle.std.specs.Prelude.{◌≡◌, ◌+◌, ℕ, List, [], ◌∷◌, ◌++◌, drop, false, IsTrue, IfSome, IfNone};
    ghost use Rattle.ld_tree_read.specs.Cursor.{left};

    pub fn new(input: &'a [u8]) -> Cursor<'a>
        ensures left { left result ≡ input.now }
        ensures at { result.at ≡ 0 }
    {
        Cursor { input, at: 0 }
    }

    /// The bytes that are left.
    pub fn rest(&self) -> &'a [u8]
        ensures { result.now ≡ left self.now }
    {
        &self.input[self.at..]
    }

    /// How many bytes lie behind it.
    pub fn at(&self) -> usize
        ensures { result ≡ self.now.at }
    {
        self.at
    }

    /// The next byte.
    pub fn peek(&self) -> Option<u8>
        ensures some { IfSome result (λ b. (r : List ℕ) × (left self.now ≡ b ∷ r)) }
        ensures none { IfNone result (left self.now ≡ []) }
    {
        if self.at >= self.input.len() {
            return None;
        }
        Some(self.input[self.at])
    }

    /// Goes past `count` bytes.
    pub fn advance(&mut self, count: usize)
        requires { count ≤ length (left self.old) }
        ensures left { left self.new ≡ drop count (left self.old) }
        ensures at { self.new.at ≡ self.old.at + count }
    {
        self.at += count;
    }

    /// Goes past this byte, if it is next.
    pub fn eat(&mut self, byte: u8) -> bool
        ensures eaten { IsTrue result → left self.old ≡ byte ∷ left self.new }
        ensures at { IsTrue result → self.new.at ≡ self.old.at + 1 }
        ensures other { result ≡ false → (r : List ℕ) → left self.old ≡ byte ∷ r → ⊥ }
        ensures unmoved { result ≡ false → left self.new ≡ left self.old }
        ensures still { result ≡ false → self.new.at ≡ self.old.at }
    {
        if self.at >= self.input.len() || self.input[self.at] != byte {
            return false;
        }
        self.at += 1;
        true
    }
}
