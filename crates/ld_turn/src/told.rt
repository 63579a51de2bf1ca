//! Values that stand for a list of entries which only grows.
ghost use Rattle.std.specs.Prelude.{◌≡◌, ◌<◌, ◌++◌, ℕ, List, Option, length};

/// A value that stands for a list of entries, its history. Between two turns the history only grows.
///
/// A value chooses what its entries are, and which of them belong to a seat.
pub trait Told {
    type Entry;

    // The history that the value stands for.
    ghost list: { Self → List Self.Entry };

    // The number of the seat that the entry at a place belongs to, if it belongs to one.
    ghost seat_of: { List Self.Entry → ℕ → Option ℕ };

    /// The length of the history.
    fn told(&self) -> u64
        ensures { result ≡ length (list self.now) };

    // An entry's seat stays as the history grows.
    ghost stays: { (xs ys : List Self.Entry) (i : ℕ) → i < length xs → seat_of (xs ++ ys) i ≡ seat_of xs i };
}
