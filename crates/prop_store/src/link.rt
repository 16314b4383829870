ghost use Rattle.std.specs.Prelude.{◌≡◌};
ghost use Rattle.prop_store.specs.Link.{link_of, next_link};

use crate::Owner;
use rec_bytes::{Key, PROPERTIES, PROPERTY_NEXT};

/// The place of a link to a property: in the record of its element, or of the property before it.
#[derive(Clone, Copy)]
pub(crate) struct Link {
    pub key: Key,
    pub field: u8,
}

impl Link {
    /// The link to an element's first property.
    pub(crate) fn of(owner: Owner) -> Link
        ensures { result ≡ link_of owner }
    {
        Link {
            key: owner.key,
            field: owner.field,
        }
    }

    /// The link to the property after one.
    pub(crate) fn after(id: u32) -> Link
        ensures { result ≡ next_link id }
    {
        Link {
            key: Key {
                file: PROPERTIES,
                id,
            },
            field: PROPERTY_NEXT,
        }
    }
}
