/// A record that breaks a rule of the store, and the number of the rule.
#[derive(Clone, Copy, Debug, PartialEq, Eq)]
pub struct Damage {
    pub file: u8,
    pub id: u32,
    pub rule: u8,
}
