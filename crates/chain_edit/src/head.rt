use rec_bytes::Key;

/// The place of a first link: the record of a node or of a group, and the place of the link in it.
#[derive(Clone, Copy, Debug, PartialEq, Eq)]
pub struct Head {
    pub key: Key,
    pub field: u8,
}
