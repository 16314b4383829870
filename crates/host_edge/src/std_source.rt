ghost use Rattle.std.specs.Prelude.{◌≡◌, ◌≤◌, ◌<◌, [], length, IfOk, OnOk};
ghost use Rattle.std.specs.Io.{ReadsAtMost};
ghost use Rattle.fault_count.specs.Cause.{HasCause};
ghost use Rattle.host_edge.specs.Counting.{CountsFailure};

use crate::counting::counted;
use fault_count::{Count, Failed};
use std::io::{self, ErrorKind, Read, Stdin};
use std::marker::Model;
use stream_io::Source;

/// Standard input, with no buffer: a call is one read of the system, made again where a signal
/// interrupts it. Contracts see the count of faults, and nothing of the bytes.
#[derive(Drop)]
pub struct StdSource {
    stdin: Stdin,
    faults: Count,
}

impl Model for StdSource {
    ghost use Rattle.std.specs.Prelude.{ℕ};

    ghost Value = { ℕ };

    ghost view = { λ s. s.faults };
}

impl StdSource {
    /// A source that has read nothing.
    pub fn new(stdin: Stdin) -> StdSource
        ensures { result ≡ 0 }
    {
        StdSource {
            stdin,
            faults: Count::new(),
        }
    }
}

impl Source for StdSource {
    ghost tells = { ⊥ };

    ghost left = { λ _. [] };

    ghost faults = { λ s. s };

    fn read(&mut self, out: &mut [u8]) -> Result<usize, Failed>
        ensures within { IfOk result (λ n. n ≤ length out.old) }
        ensures count { CountsFailure self.old self.new result }
        ensures quiet { OnOk result (self.new ≡ self.old) }
        ensures cause { HasCause self.old self.new result }
    {
        let answer = read_once(&mut self.stdin, out);
        counted(&mut self.faults, answer)
    }
}

fn read_once(stdin: &mut Stdin, out: &mut [u8]) -> io::Result<usize>
    ensures { ReadsAtMost result out.new }
{
    for _ in 0..u64::MAX {
        match stdin.read(out) {
            Err(error) if error.kind() == ErrorKind::Interrupted => {}
            answer => return answer,
        }
    }
    Err(ErrorKind::TimedOut.into())
}
