ghost use Rattle.std.specs.Prelude.{◌≡◌, ◌≤◌, ◌<◌, ℕ, List, length, IfOk, OnOk};
ghost use Rattle.fault_count.specs.Cause.{HasCause};
ghost use Rattle.stream_io.specs.Streams.{GivesNext, Takes};

use fault_count::Failed;

/// Bytes that come in. A type of source may tell what it still has to give.
pub trait Source {
    /// Holds where the source tells the bytes that it has left.
    ghost tells: { Type 0 };

    /// The bytes that are still to come.
    ghost left: { Self → List ℕ };

    /// How often the source has failed.
    ghost faults: { Self → ℕ };

    /// Gives the next bytes, in front of `out`, and says how many. None are the end of the input. A
    /// failure gives none and loses none; `out` then holds anything.
    fn read(&mut self, out: &mut [u8]) -> Result<usize, Failed>
        requires room { 0 < length out.old }
        ensures within { IfOk result (λ n. n ≤ length out.old) }
        ensures given { tells → GivesNext (left self.old) (left self.new) out.new result }
        ensures quiet { OnOk result (faults self.new ≡ faults self.old) }
        ensures cause { HasCause (faults self.old) (faults self.new) result };
}

/// Bytes that go out. A type of sink may tell what it took.
pub trait Sink {
    /// Holds where the sink tells the bytes that it took.
    ghost tells: { Type 0 };

    /// The bytes taken so far.
    ghost taken: { Self → List ℕ };

    /// How often the sink has failed.
    ghost faults: { Self → ℕ };

    /// Takes all of the bytes; after a failure it took a front of them.
    fn put(&mut self, bytes: &[u8]) -> Result<(), Failed>
        ensures takes { tells → Takes (taken self.old) (taken self.new) bytes.now result }
        ensures cause { HasCause (faults self.old) (faults self.new) result };
}
