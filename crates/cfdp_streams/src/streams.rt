//! Where a script's octets come from, and where its text goes.
ghost use Rattle.std.specs.Prelude.{◌≡◌, ℕ, Bool, true, ◌≤◌, ◌<◌, List, length, take, Option, IfOk, OnOk, OnErr, Ok};
ghost use Rattle.std.specs.Io.KnownBytes.{Consumes, Appends, IsAtEnd};
ghost use Rattle.cfdp_streams.specs.Streams.{KeptOrLost};

/// A stream has failed: its call did nothing, or nobody can say what it did.
#[derive(Clone, Copy, Debug, PartialEq, Eq)]
pub struct Failed;

/// A reader of octets.
pub trait ScriptIn {
    // The octets still to be read, where they are known.
    ghost remaining: { Self → Option (List ℕ) };

    // Whether a call has returned `Failed`.
    ghost failed: { Self → Bool };

    /// Reads some octets into the front of `buffer`, and returns how many. It returns 0 into a buffer that
    /// is not empty only at the end.
    fn read(&mut self, buffer: &mut [u8]) -> Result<usize, Failed>
        ensures count { IfOk result (λ n. n ≤ length buffer.new) }
        ensures octets { IfOk result (λ n. Consumes (remaining self.old) (remaining self.new) (take n buffer.new)) }
        ensures end { result ≡ Ok 0 → 0 < length buffer.new → IsAtEnd (remaining self.new) }
        ensures well { OnOk result (failed self.new ≡ failed self.old) }
        ensures fails { OnErr result (failed self.new ≡ true) }
        ensures kept_or_lost { OnErr result (KeptOrLost (remaining self.old) (remaining self.new)) };

    /// Whether a call has returned `Failed`.
    fn has_failed(&self) -> bool
        ensures { result ≡ failed self.now };
}

/// A writer of octets.
pub trait ScriptOut {
    // The octets written, where they are known.
    ghost contents: { Self → Option (List ℕ) };

    // Whether a call has returned `Failed`.
    ghost failed: { Self → Bool };

    /// Writes some of the first octets of `octets`, and returns how many: at least one, where there is one.
    fn write(&mut self, octets: &[u8]) -> Result<usize, Failed>
        ensures count { IfOk result (λ n. n ≤ length octets.now) }
        ensures some { IfOk result (λ n. 0 < length octets.now → 0 < n) }
        ensures appends { IfOk result (λ n. Appends (contents self.old) (contents self.new) (take n octets.now)) }
        ensures well { OnOk result (failed self.new ≡ failed self.old) }
        ensures fails { OnErr result (failed self.new ≡ true) }
        ensures kept_or_lost { OnErr result (KeptOrLost (contents self.old) (contents self.new)) };

    /// Whether a call has returned `Failed`.
    fn has_failed(&self) -> bool
        ensures { result ≡ failed self.now };
}
