//! The files of a store by number, and what their records have in common.

/// The store's own record, 0, a record `Meta` for each other file of records, and the record
/// `TAKEN`.
pub const META: u8 = 0;
/// The nodes.
pub const NODES: u8 = 1;
/// The relationships.
pub const RELATIONSHIPS: u8 = 2;
/// The groups of the relationships of dense nodes.
pub const GROUPS: u8 = 3;
/// The properties of nodes and relationships.
pub const PROPERTIES: u8 = 4;
/// The blocks of long texts.
pub const STRINGS: u8 = 5;
/// The names of labels, types and keys.
pub const NAMES: u8 = 6;
/// The redo log, which has no records.
pub const LOG: u8 = 7;
/// The index, from version 3 of the format on.
pub const INDEX: u8 = 8;

/// How many records the meta file has.
pub const META_RECORDS: u32 = 9;

/// The record of the meta file with the number of the last transaction that was taken over.
pub const TAKEN: u32 = 7;

/// How many bytes a record has.
pub const RECORD_BYTES: usize = 64;

/// Stands where a field names no record.
pub const NIL: u32 = u32::MAX;
