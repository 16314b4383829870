ghost use Rattle.std.specs.Prelude.{◌≡◌};

use rec_bytes::{Damage, Fault};

/// The record of the identifier breaks the rule.
pub(crate) fn damaged(file: u8, id: u32, rule: u8) -> Fault
    ensures { result ≡ Fault.Damaged (record { file = file; id = id; rule = rule }) }
{
    Fault::Damaged(Damage { file, id, rule })
}
