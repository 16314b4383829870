/// What a reader has.
#[derive(Clone, Copy, Debug, PartialEq, Eq)]
pub enum SnapState {
    /// No snapshot.
    Absent,
    /// One that ended, since more old records would have been kept than may be.
    Ended,
    /// An open one.
    Open,
}
