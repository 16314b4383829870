//! The places of fields in a record, counted in bytes from its start, by the kind of record.
//! Numbers stand with the lowest byte first: a short has 2 bytes, a number 4, a wide number 8.

// The store, record 0 of the meta file.

/// The four bytes `MARK`.
pub const STORE_MARK: u8 = 0;
/// The version of the format, a short.
pub const STORE_VERSION: u8 = 4;
/// A node with more relationships than this is dense, a short.
pub const STORE_THRESHOLD: u8 = 6;
/// How many records a file may have, a number.
pub const STORE_LIMIT: u8 = 8;
/// From here on a store's record has zeros.
pub const STORE_REST: u8 = 12;

/// What a store begins with.
pub const MARK: [u8; 4] = *b"GRS1";
/// The first version of the format.
pub const FIRST_VERSION: u16 = 1;
/// The first version that has groups with counts.
pub const COUNTED_VERSION: u16 = 2;
/// The first version that has an index.
pub const INDEX_VERSION: u16 = 3;
/// The version of the format that this code writes.
pub const VERSION: u16 = 3;

// A file of records, in the record of the meta file with its number.

/// The first number in the file that was never given out.
pub const META_HIGH: u8 = 0;
/// The first record of the free list, or `NIL`.
pub const META_FREE: u8 = 4;
/// How many records are in use.
pub const META_LIVE: u8 = 8;
/// From here on it has zeros, but for the index.
pub const META_REST: u8 = 12;
/// The first definition of the index, or `NIL`.
pub const META_DEFINITION: u8 = 12;
/// From here on the meta record of the index has zeros.
pub const META_INDEX_REST: u8 = 16;

// The last transaction that was taken over, record `TAKEN` of the meta file.

/// Its number, a wide number.
pub const TAKEN_NUMBER: u8 = 0;
/// From here on it has zeros.
pub const TAKEN_REST: u8 = 8;

// Each record of another file.

/// The kind of the record, a byte: `FREE`, or one of its file's own.
pub const KIND: u8 = 0;
/// A record that is not in use.
pub const FREE: u8 = 0;

// A free record of a file that is used again: all but the names.

/// The next record of the free list, or `NIL`.
pub const FREE_NEXT: u8 = 4;

// A node.

/// A node with one chain of relationships.
pub const SPARSE: u8 = 1;
/// A node with a chain of groups, each with chains of relationships of its own.
pub const DENSE: u8 = 2;

/// Its label's number.
pub const NODE_LABEL: u8 = 4;
/// The first relationship of a sparse node, the first group of a dense one, or `NIL`.
pub const NODE_FIRST_LINK: u8 = 8;
/// Its first property, or `NIL`.
pub const NODE_FIRST_PROPERTY: u8 = 12;
/// How many relationships it has, a loop counted once.
pub const NODE_DEGREE: u8 = 16;

// A relationship.

/// A relationship in use.
pub const RELATED: u8 = 1;

/// Its type's number.
pub const RELATIONSHIP_TYPE: u8 = 4;
/// The node that it leaves.
pub const RELATIONSHIP_SOURCE: u8 = 8;
/// The node that it enters.
pub const RELATIONSHIP_TARGET: u8 = 12;
/// The one before it in its chain at the source, or `NIL`.
pub const RELATIONSHIP_SOURCE_PREVIOUS: u8 = 16;
/// The one behind it in its chain at the source, or `NIL`.
pub const RELATIONSHIP_SOURCE_NEXT: u8 = 20;
/// The one before it in its chain at the target, or `NIL`.
pub const RELATIONSHIP_TARGET_PREVIOUS: u8 = 24;
/// The one behind it in its chain at the target, or `NIL`.
pub const RELATIONSHIP_TARGET_NEXT: u8 = 28;
/// Its first property, or `NIL`.
pub const RELATIONSHIP_FIRST_PROPERTY: u8 = 32;

// A group: the relationships of one type at one dense node.

/// A group in use.
pub const GROUPED: u8 = 1;
/// A group in use with the counts of its chains, from version 2 on.
pub const COUNTED: u8 = 2;

/// The type's number.
pub const GROUP_TYPE: u8 = 4;
/// The node.
pub const GROUP_OWNER: u8 = 8;
/// The group before it at its node, or `NIL`.
pub const GROUP_PREVIOUS: u8 = 12;
/// The group behind it at its node, or `NIL`.
pub const GROUP_NEXT: u8 = 16;
/// The first of the relationships that leave the node, or `NIL`.
pub const GROUP_FIRST_OUT: u8 = 20;
/// The first of those that enter it, or `NIL`.
pub const GROUP_FIRST_IN: u8 = 24;
/// The first of those that do both, or `NIL`.
pub const GROUP_FIRST_LOOP: u8 = 28;
/// How many leave the node, in a `COUNTED` one.
pub const GROUP_OUT_COUNT: u8 = 32;
/// How many enter it, in a `COUNTED` one.
pub const GROUP_IN_COUNT: u8 = 36;
/// How many do both, in a `COUNTED` one.
pub const GROUP_LOOP_COUNT: u8 = 40;

// A property.

/// A property whose value is a number.
pub const INT: u8 = 1;
/// A property whose value is true or false.
pub const BOOL: u8 = 2;
/// A property whose value is a text that stands in the record.
pub const TEXT_INLINE: u8 = 3;
/// A property whose value is a text that stands in a chain of blocks.
pub const TEXT_IN_BLOCKS: u8 = 4;

/// How many bytes the text has, a short.
pub const PROPERTY_LENGTH: u8 = 2;
/// Its key's number.
pub const PROPERTY_KEY: u8 = 4;
/// The next property of the same node or relationship, or `NIL`.
pub const PROPERTY_NEXT: u8 = 8;
/// The first block of a text in blocks.
pub const PROPERTY_FIRST_BLOCK: u8 = 12;
/// The value of an `INT`, a wide number.
pub const PROPERTY_NUMBER: u8 = 16;
/// The value of a `BOOL`, a byte 0 or 1.
pub const PROPERTY_TRUTH: u8 = 16;
/// The bytes of a text that stands in the record.
pub const PROPERTY_TEXT: u8 = 24;

// A block of a long text.

/// A block in use.
pub const BLOCK: u8 = 1;

/// How many bytes of the text it has, a byte from 1 to `BLOCK_TEXT_BYTES`.
pub const BLOCK_LENGTH: u8 = 1;
/// The next block of the text, or `NIL`.
pub const BLOCK_NEXT: u8 = 4;
/// The bytes.
pub const BLOCK_TEXT: u8 = 8;

// A name.

/// A name in use.
pub const NAMED: u8 = 1;

/// How many bytes it has, a byte from 1 to `NAME_TEXT_BYTES`.
pub const NAME_LENGTH: u8 = 1;
/// The bytes of the name, and zeros up to byte 56.
pub const NAME_TEXT: u8 = 8;

// A definition of the index: the nodes of one label, by one key.

/// A definition in use.
pub const DEFINITION: u8 = 1;

/// The label's number.
pub const DEFINITION_LABEL: u8 = 4;
/// The key's number.
pub const DEFINITION_KEY: u8 = 8;
/// The next definition, or `NIL`.
pub const DEFINITION_NEXT: u8 = 12;
/// Its records of heads, a number each.
pub const DEFINITION_HEADS: u8 = 16;
/// How many records of heads it has.
pub const DEFINITION_HEAD_COUNT: u8 = 12;

// The heads of a definition's buckets.

/// A record of heads in use.
pub const HEADS: u8 = 2;

/// The first entries of its buckets, a number each, or `NIL`.
pub const HEADS_FIRST: u8 = 4;
/// How many buckets it has.
pub const HEADS_COUNT: u8 = 15;

// An entry of the index.

/// An entry in use.
pub const INDEXED: u8 = 3;

/// The node.
pub const INDEXED_NODE: u8 = 4;
/// The entry before it in its bucket, or `NIL`.
pub const INDEXED_PREVIOUS: u8 = 8;
/// The entry after it in its bucket, or `NIL`.
pub const INDEXED_NEXT: u8 = 12;
/// The hash of the node's value, a wide number.
pub const INDEXED_HASH: u8 = 16;
