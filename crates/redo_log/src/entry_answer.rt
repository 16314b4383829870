/// What stands at a place of the log.
#[derive(Clone, Copy, Debug, PartialEq, Eq)]
pub enum EntryAnswer {
    /// An entry with so many records, and the place of the gate behind it.
    Entry { count: u16, next: u64 },
    /// A closed gate, so no entry.
    End,
    /// Unknown, since the disk failed.
    Disk,
    /// An open gate at the place over anything but an entry.
    Damaged { place: u64 },
}
