/// Whether a store serves commits.
#[derive(Clone, Copy, Debug, PartialEq, Eq)]
pub enum Health {
    /// What the disk has is known.
    Live,
    /// The disk failed, so what it has is known again once it is recovered.
    Failed,
}
