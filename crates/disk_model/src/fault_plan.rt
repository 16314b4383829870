ghost use Rattle.std.specs.Prelude.{◌≡◌, ◌↔◌, IsTrue};
ghost use Rattle.fault_count.specs.Cause.{raised};
ghost use Rattle.disk_model.specs.MemoryDisk.{FailsAt, IsStopped};

use crate::calls::Calls;
use fault_count::Count;

/// Which calls of a disk in memory fail: those whose numbers are in `fails`, and all from the
/// number `stop` on. The first call has the number 1.
#[derive(Drop)]
pub struct FaultPlan {
    /// The numbers of calls that fail.
    pub fails: Calls,
    /// The number from which all calls fail.
    pub stop: Option<u64>,
}

/// Counts a call, and says whether the plan makes it fail.
pub(crate) fn next_call_fails(plan: &FaultPlan, made: &mut Count) -> bool
    ensures fails { IsTrue result ↔ FailsAt plan.now.fails plan.now.stop made.new }
    ensures counted { made.new ≡ raised made.old }
{
    made.raise();
    let number = made.get();
    plan.fails.as_slice().contains(&number) || has_stopped(plan.stop, number)
}

// Whether the call's number is this one or a later one.
fn has_stopped(stop: Option<u64>, number: u64) -> bool
    ensures { IsTrue result ↔ IsStopped stop number }
{
    match stop {
        Some(stop) => stop <= number,
        None => false,
    }
}
