ghost use Rattle.std.specs.Prelude.{◌≡◌, ◌↔◌, IfOk, IsOk};
ghost use Rattle.fault_count.specs.Cause.{HasCause};
ghost use Rattle.host_edge.specs.Counting.{CountsFailure};

use fault_count::{Count, Failed};
use std::io;

/// The system's answer as a device gives it: an error is counted, and what it was is dropped.
pub(crate) fn counted<T: Drop>(faults: &mut Count, answer: io::Result<T>) -> Result<T, Failed>
    ensures fails { IsOk result ↔ IsOk answer }
    ensures value { IfOk result (λ value. answer ≡ Ok value) }
    ensures count { CountsFailure faults.old faults.new result }
    ensures cause { HasCause faults.old faults.new result }
{
    match answer {
        Ok(value) => Ok(value),
        Err(_) => {
            faults.raise();
            Err(Failed)
        }
    }
}
