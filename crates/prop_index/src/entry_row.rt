use rec_bytes::Rec;

/// What an entry says.
#[derive(Clone, Copy)]
pub(crate) struct Content {
    pub node: u32,
    pub hash: u64,
}

/// An entry in use, with the one before it in its bucket, or `NIL`.
#[derive(Clone, Copy)]
pub(crate) struct EntryRow {
    pub id: u32,
    pub rec: Rec,
    pub before: u32,
}
