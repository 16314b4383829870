//! How much a store may have, and what a store begins with.

/// The least threshold that a store may have.
pub const LEAST_THRESHOLD: u16 = 2;
/// The greatest threshold that a store may have.
pub const GREATEST_THRESHOLD: u16 = 200;
/// The threshold of a store that isn't asked for another.
pub const DEFAULT_THRESHOLD: u16 = 50;
/// The least limit that a store may have.
pub const LEAST_LIMIT: u32 = 16;
/// The greatest limit that a store may have.
pub const GREATEST_LIMIT: u32 = 16_777_216;
/// The limit of a store that isn't asked for another.
pub const DEFAULT_LIMIT: u32 = 1_048_576;

/// No record of any file has a number from this one on.
pub const MOST_IDS: u32 = 1 << 25;
/// How many names there may be.
pub const MOST_NAMES: u32 = 4_096;
/// How many bytes a name has at most.
pub const NAME_TEXT_BYTES: usize = 48;
/// How many indexes a store has at most.
pub const MOST_INDEXES: usize = 16;
/// How many properties a node or a relationship has at most.
pub const MOST_PROPERTIES: u32 = 32;
/// How many bytes the text of a property has at most.
pub const MOST_TEXT_BYTES: u16 = 1_024;
/// How many bytes a text has at most that stands in the record of its property.
pub const PROPERTY_TEXT_BYTES: usize = 40;
/// How many bytes of a text a block has at most.
pub const BLOCK_TEXT_BYTES: usize = 48;

/// How many records a transaction writes at most: an entry of the log has no more, and a shipment
/// brings no more.
pub const MOST_WRITES: usize = 2_048;
/// How many records are changed at most between two checkpoints.
pub const MOST_CHANGED: usize = 8_192;
/// How many old records are kept at most for all snapshots.
pub const MOST_KEPT: usize = 16_384;
