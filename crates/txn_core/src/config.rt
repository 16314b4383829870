ghost use Rattle.std.specs.Prelude.{◌≡◌, ◌↔◌, IsTrue};
ghost use Rattle.txn_core.specs.Config.{Suits, shape_of};

use rec_bytes::{DEFAULT_LIMIT, DEFAULT_THRESHOLD, Shape};

/// What a store is asked to be; what isn't given is left open.
#[derive(Clone, Copy, Debug, PartialEq, Eq)]
pub struct Config {
    /// A node with more relationships than this is dense. The words allow 2 to 200.
    pub threshold: Option<u16>,
    /// How many nodes there may be, and as many of each other kind. The words allow 16 to
    /// 16,777,216.
    pub limit: Option<u32>,
}

impl Config {
    /// The shape of a new store.
    pub fn shape(&self) -> Shape
        ensures { result ≡ shape_of self.now }
    {
        Shape {
            threshold: self.threshold.unwrap_or(DEFAULT_THRESHOLD),
            limit: self.limit.unwrap_or(DEFAULT_LIMIT),
        }
    }

    /// Whether a store of this shape is what is asked for.
    pub fn suits(&self, shape: Shape) -> bool
        ensures { IsTrue result ↔ Suits self.now shape }
    {
        self.threshold.is_none_or(|asked| asked == shape.threshold)
            && self.limit.is_none_or(|asked| asked == shape.limit)
    }
}
