ghost use Rattle.std.specs.Prelude.{◌≡◌, []};
ghost use Rattle.fault_count.specs.Cause.{HasCause};
ghost use Rattle.host_edge.specs.Counting.{CountsFailure};

use crate::counting::counted;
use fault_count::{Count, Failed};
use std::io::{Stdout, Write};
use std::marker::Model;
use stream_io::Sink;

/// Standard output, with no buffer: where a call succeeds, the system has taken all of the bytes. A
/// write that the system cuts short or a signal interrupts goes on. A reader that went away is a
/// fault. Contracts see the count of faults, and nothing of the bytes.
#[derive(Drop)]
pub struct StdSink {
    stdout: Stdout,
    faults: Count,
}

impl Model for StdSink {
    ghost use Rattle.std.specs.Prelude.{ℕ};

    ghost Value = { ℕ };

    ghost view = { λ s. s.faults };
}

impl StdSink {
    /// A sink that has taken nothing.
    pub fn new(stdout: Stdout) -> StdSink
        ensures { result ≡ 0 }
    {
        StdSink {
            stdout,
            faults: Count::new(),
        }
    }
}

impl Sink for StdSink {
    ghost tells = { ⊥ };

    ghost taken = { λ _. [] };

    ghost faults = { λ s. s };

    fn put(&mut self, bytes: &[u8]) -> Result<(), Failed>
        ensures count { CountsFailure self.old self.new result }
        ensures cause { HasCause self.old self.new result }
    {
        let answer = self.stdout.write_all(bytes);
        counted(&mut self.faults, answer)
    }
}
