use rec_bytes::Shape;

/// What recovery finds on a disk.
#[derive(Clone, Copy, Debug, PartialEq, Eq)]
pub enum Found {
    /// A store of this shape.
    Made(Shape),
    /// No store: nothing was ever written.
    Unmade,
}
