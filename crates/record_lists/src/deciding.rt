ghost use Rattle.std.specs.Prelude.{◌≡◌};
ghost use Rattle.store_rules.specs.Breaking.{damage};

use rec_bytes::Damage;

/// The damage of a record that breaks this rule.
pub fn broken(file: u8, id: u32, rule: u8) -> Damage
    ensures { result ≡ damage file id rule }
{
    Damage { file, id, rule }
}
