ghost use Rattle.std.specs.Prelude.{◌≡◌, true};
ghost use Rattle.rec_bytes.specs.Shape.{is_allowed};

use crate::shape::Shape;

/// A shape that a store may have. It is a struct of its own, since a struct with such a fact lends
/// no part.
#[derive(Drop)]
pub(crate) struct AllowedShape {
    pub(crate) shape: Shape,
    ghost allowed: { is_allowed shape ≡ true },
}

impl AllowedShape {
    pub(crate) fn new(shape: Shape) -> Self
        requires { is_allowed shape ≡ true }
        ensures { result.shape ≡ shape }
    {
        AllowedShape { shape }
    }
}
