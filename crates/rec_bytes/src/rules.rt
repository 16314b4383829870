//! The numbers of the rules of a store, as a damage says which one a record breaks.

/// The record has a form that the format doesn't know.
pub const FORM_RULE: u8 = 0;
/// A number of the record is out of its range.
pub const RANGE_RULE: u8 = 1;
/// The numbers of a file fall apart into free and live ones otherwise than its meta record says.
pub const SPLIT_RULE: u8 = 2;
/// A chain of relationships is broken.
pub const CHAIN_RULE: u8 = 3;
/// The groups of a dense node don't fit its relationships.
pub const GROUP_RULE: u8 = 4;
/// A list of properties, a text or a label is broken.
pub const PROPERTY_RULE: u8 = 5;
/// The names are not in order, or one stands twice.
pub const NAME_RULE: u8 = 6;
/// A node's degree, or whether it is dense, is wrong.
pub const DEGREE_RULE: u8 = 7;
/// The index doesn't fit the nodes.
pub const INDEX_RULE: u8 = 8;
