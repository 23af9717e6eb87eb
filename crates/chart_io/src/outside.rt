ghost use Rattle.std.specs.Prelude.{◌<◌, ◌≤◌, ℕ, List, Option, length, take, IfOk, IfSome, OnErr};
ghost use Rattle.chart_io.specs.Outside.{Rose, Files, file_of, IsGot, IsWithin, Kept, Appended, Moved};

/// A call on an object outside has failed, and the object has counted a fault.
#[derive(Clone, Copy, Debug, PartialEq, Eq)]
pub struct Failed;

/// What a read of a file gave.
#[derive(Clone, Copy, Debug, PartialEq, Eq)]
pub enum Got {
    /// So many bytes, at the front of the buffer.
    Bytes(usize),
    /// There is no byte at the offset or past it.
    End,
    /// There is no file of this name.
    Missing,
}

/// Files by name. `files` is what it tells of them, and `faults` counts its failed calls.
pub trait Folder {
    ghost files: { Self → Option Files };

    ghost faults: { Self → ℕ };

    /// Reads the file `name` from the byte `at` on, counted from 0, into the front of `buf`.
    /// After `Failed`, `buf` may hold anything.
    fn read(&mut self, name: &str, at: u64, buf: &mut [u8]) -> Result<Got, Failed>
        requires { 0 < length buf.old }
        ensures counted { faults self.old ≤ faults self.new }
        ensures cause { OnErr result (Rose (faults self.old) (faults self.new)) }
        ensures within { IfOk result (IsWithin (length buf.new)) }
        ensures got { IfSome (files self.old)
            (λ told. IfOk result (IsGot (file_of told name.now) at buf.new)) }
        ensures stays { Kept (files self.old) (files self.new) };
}

/// Bytes that are read once, in order. `left` is what it tells of those that are still to come, and
/// `faults` counts its failed calls.
pub trait Source {
    ghost left: { Self → Option (List ℕ) };

    ghost faults: { Self → ℕ };

    /// Moves the next bytes into the front of `buf`, and says how many. After `Failed`, `buf` may
    /// hold anything.
    fn read(&mut self, buf: &mut [u8]) -> Result<usize, Failed>
        requires { 0 < length buf.old }
        ensures counted { faults self.old ≤ faults self.new }
        ensures cause { OnErr result (Rose (faults self.old) (faults self.new)) }
        ensures within { IfOk result (λ n. n ≤ length buf.new) }
        ensures moved { IfOk result (Moved (left self.old) (left self.new) buf.new) }
        ensures stays { OnErr result (Kept (left self.old) (left self.new)) };
}

/// Takes bytes in order. `held` is what it tells of those that it took, and `faults` counts its
/// failed calls.
pub trait Sink {
    ghost held: { Self → Option (List ℕ) };

    ghost faults: { Self → ℕ };

    /// Takes bytes from the front of `piece`, at least one, and says how many.
    fn write(&mut self, piece: &[u8]) -> Result<usize, Failed>
        requires { 0 < length piece.now }
        ensures counted { faults self.old ≤ faults self.new }
        ensures cause { OnErr result (Rose (faults self.old) (faults self.new)) }
        ensures within { IfOk result (λ n. (1 ≤ n) × (n ≤ length piece.now)) }
        ensures appended { IfOk result
            (λ n. Appended (held self.old) (held self.new) (take n piece.now)) }
        ensures stays { OnErr result (Kept (held self.old) (held self.new)) };
}
