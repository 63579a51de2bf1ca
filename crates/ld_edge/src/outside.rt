ghost use Rattle.std.specs.Prelude.{◌≡◌, ◌<◌, ◌≤◌, ◌↔◌, [], Option, Some, IsTrue, length, take, IfOk, IfSome, OnOk, OnErr};
ghost use Rattle.std.specs.Io.KnownBytes.{prepend_known, append_known};
ghost use Rattle.ld_edge.specs.Faults.{last_count, both_counts, NeverFalls, Rose};
ghost use Rattle.ld_edge.specs.Sides.{Incoming, Outgoing, KeepsBytes};

/// A call to the outside failed, and the object's own count of failures rose.
#[derive(Clone, Copy, Debug, PartialEq, Eq)]
pub struct Failed;

/// Where bytes come from.
pub trait Source {
    /// What is told of the bytes read and of those that are left, whether the end of the input was met,
    /// and how many reads failed. That count never falls, and stands still at 2^63 - 1.
    ghost incoming: { Self → Incoming };

    /// The side of the same object that bytes go to, where it has one.
    ghost beside: { Self → Option Outgoing };

    /// Puts bytes at the front of `into`, and says how many. 0 is the end of the input. What else
    /// of `into` changes, and what does at `Failed`, is left open.
    fn read(&mut self, into: &mut [u8]) -> Result<usize, Failed>
        requires { 0 < length into.old }

        // What is told of the rest begins with the bytes given, and loses them.
        ensures within { IfOk result (λ n. n ≤ length into.new) }
        ensures given { IfOk result (λ n. (incoming self.new).given ≡ append_known (incoming self.old).given (take n into.new)) }
        ensures left { IfOk result (λ n. (incoming self.old).left ≡ prepend_known (take n into.new) (incoming self.new).left) }
        ensures keeps_bytes { OnErr result (KeepsBytes (incoming self.old) (incoming self.new)) }

        // A read of 0 bytes meets the end. Where what is left is told, it comes exactly where nothing is left.
        ensures end { IfOk result (λ n. IfSome (incoming self.old).left (λ bytes. (n ≡ 0) ↔ (bytes ≡ []))) }
        ensures ended { IfOk result (λ n. n ≡ 0 → IsTrue (incoming self.new).is_ended) }
        ensures stays_ended { IsTrue (incoming self.old).is_ended → IsTrue (incoming self.new).is_ended }

        ensures keeps_beside { beside self.new ≡ beside self.old }
        ensures keeps_count { OnOk result ((incoming self.new).faults ≡ (incoming self.old).faults) }
        ensures rose { OnErr result (Rose (incoming self.old).faults (incoming self.new).faults) }
        ensures never_falls { NeverFalls (incoming self.old).faults (incoming self.new).faults };

    /// How many reads failed.
    fn faults(&self) -> u64
        ensures { result ≡ (incoming self.now).faults };

    ghost at_most_last: { (source : Self) → (incoming source).faults ≤ last_count };
}

/// Where bytes go.
pub trait Sink {
    /// What is told of the bytes taken, and how many writes failed. That count never falls, and stands
    /// still at 2^63 - 1.
    ghost outgoing: { Self → Outgoing };

    /// The side of the same object that bytes come from, where it has one.
    ghost beside: { Self → Option Incoming };

    /// Takes bytes from the front of `bytes`, at least one, and says how many.
    fn write(&mut self, bytes: &[u8]) -> Result<usize, Failed>
        requires { 0 < length bytes.now }

        // What is told gains the bytes taken.
        ensures some { IfOk result (λ n. 1 ≤ n) }
        ensures within { IfOk result (λ n. n ≤ length bytes.now) }
        ensures taken { IfOk result (λ n. (outgoing self.new).held ≡ append_known (outgoing self.old).held (take n bytes.now)) }
        ensures keeps_held { OnErr result ((outgoing self.new).held ≡ (outgoing self.old).held) }

        ensures keeps_beside { beside self.new ≡ beside self.old }
        ensures keeps_count { OnOk result ((outgoing self.new).faults ≡ (outgoing self.old).faults) }
        ensures rose { OnErr result (Rose (outgoing self.old).faults (outgoing self.new).faults) }
        ensures never_falls { NeverFalls (outgoing self.old).faults (outgoing self.new).faults };

    /// How many writes failed.
    fn faults(&self) -> u64
        ensures { result ≡ (outgoing self.now).faults };

    ghost at_most_last: { (sink : Self) → (outgoing sink).faults ≤ last_count };
}

/// Both sides of a connection. A call of one side leaves the other as it was: what is told of its bytes,
/// and its count of failures.
pub trait Link: Source + Sink {
    /// How many calls of either side failed. The count stands still at 2^63 - 1.
    fn link_faults(&self) -> u64
        ensures { result ≡ both_counts (Self.incoming self.now).faults (Self.outgoing self.now).faults };

    ghost reading_keeps: { (link : Self) → Self.Source.beside link ≡ Some (Self.outgoing link) };

    ghost writing_keeps: { (link : Self) → Self.Sink.beside link ≡ Some (Self.incoming link) };
}
