use rec_bytes::Damage;

/// All rules hold, or a record breaks the least rule that doesn't.
#[derive(Clone, Copy, Debug, PartialEq, Eq)]
pub enum Verdict {
    Sound,
    Broken(Damage),
}
