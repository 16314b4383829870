ghost use Rattle.std.specs.Prelude.{◌≡◌, ◌↔◌, IsTrue};
ghost use Rattle.fault_count.specs.Cause.{raised};
ghost use Rattle.stream_io.specs.Memory.{NextFails};

use fault_count::Count;

/// Counts a call, and says whether its number is one of those that fail.
pub(crate) fn next_call_fails(fails: &[u64], calls: &mut Count) -> bool
    ensures fails { IsTrue result ↔ NextFails fails.now calls.old }
    ensures counted { calls.new ≡ raised calls.old }
{
    calls.raise();
    fails.contains(&calls.get())
}
