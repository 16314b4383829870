/// How many bytes a name has at most.
pub const NAME_BYTES: usize = 48;

/// How many bytes a text has at most.
pub const TEXT_BYTES: usize = 1_024;

/// What a transaction weighs before its first change: one for the meta record of each file that
/// gives out numbers.
pub const START_WEIGHT: u32 = 7;

/// What a transaction weighs at most.
pub const MOST_WEIGHT: u32 = 2_048;
