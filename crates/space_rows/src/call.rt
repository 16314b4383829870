ghost use Rattle.std.specs.Prelude.{◌≡◌, IfOk};
ghost use Rattle.rec_bytes.specs.Key.{IsKey};

use crate::error::RowError;
use rec_bytes::Key;

/// A call as its line spells it.
#[derive(Drop)]
pub(crate) struct Call<'a> {
    pub(crate) layer: &'a [u8],
    pub(crate) verb: &'a [u8],
    pub(crate) numbers: Vec<u32>,
    /// What stands after a quote: a name.
    pub(crate) text: &'a [u8],
    /// What stands after an equals sign: a value.
    pub(crate) value: &'a [u8],
}

impl Call<'_> {
    /// How many numbers it has.
    pub(crate) fn count(&self) -> usize {
        self.numbers.len()
    }

    /// The number at this place, from 0 on.
    pub(crate) fn at(&self, place: usize) -> u32 {
        self.numbers.get(place).copied().unwrap_or(0)
    }

    /// The number at this place, or 255 where it is greater.
    pub(crate) fn byte(&self, place: usize) -> u8 {
        self.at(place).min(255) as u8
    }

    /// Whether the number at this place isn't 0.
    pub(crate) fn is(&self, place: usize) -> bool {
        self.at(place) != 0
    }

    /// The numbers from this place on.
    pub(crate) fn after(&self, place: usize) -> &[u32] {
        self.numbers.get(place..).unwrap_or(&[])
    }
}

/// A key that a store can have.
pub(crate) fn key_of(file: u8, id: u32) -> Result<Key, RowError>
    ensures valid { IfOk result (λ key. IsKey key) }
    ensures is { IfOk result (λ key. key ≡ record { file = file; id = id }) }
{
    let key = Key { file, id };
    if key.is_valid() {
        Ok(key)
    } else {
        Err(RowError::Malformed)
    }
}
