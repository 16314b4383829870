/// Why a line is refused. It then changes nothing.
#[derive(Clone, Copy)]
pub enum Refusal {
    /// It has more than 8,192 bytes.
    LongLine,
    /// No line of the grammar begins with more of it than its bytes before `at`.
    Syntax { at: usize },
    /// The name at the byte place `at` has more than 48 bytes.
    NameLength { at: usize },
    /// The text whose opening quote is at the byte place `at` has more than 1,024 bytes.
    TextLength { at: usize },
    /// The number at the byte place `at` is out of its range.
    NumberRange { at: usize },
    /// The number of times at the byte place `at` is not 1 to 16.
    TimesRange { at: usize },
    /// The step whose name is at the byte place `at` does not fit what comes to it.
    StepKind { at: usize },
    /// The step whose name is at the byte place `at` is the 33rd.
    TooManySteps { at: usize },
    /// The session reads, and the line asks for more than that.
    ReadOnly,
    /// The session writes, and the line asks for what only one that reads has.
    Writer,
    /// The disk failed the session, which can't say what is stored.
    Failed,
    /// The session has a snapshot, and the line asks for one.
    SnapshotOpen,
    /// The session has no snapshot, and the line needs one.
    NoSnapshot,
    /// The session's snapshot ended, since more old records would have been kept than may be.
    SnapshotEnded,
    /// A transaction is open, and the line needs that none is.
    TransactionOpen,
    /// No transaction is open, and the line needs one.
    NoTransaction,
    /// There are as many nodes as the limit allows.
    FullNodes,
    /// There are as many edges as the limit allows.
    FullEdges,
    /// There would be more names than a store may have.
    FullNames,
    /// The element would have more than 32 properties.
    TooManyProperties,
    /// There would be more properties than the limit allows.
    FullProperties,
    /// There would be more blocks of long texts than the limit allows.
    FullStrings,
    /// No node has this identifier.
    NoNode { id: u32 },
    /// No edge has this identifier.
    NoEdge { id: u32 },
    /// The node of this identifier still has relationships.
    HasRelationships { id: u32 },
    /// The transaction would weigh more than it may.
    TransactionFull,
    /// The label and the key have an index.
    IndexThere,
    /// The store has as many indexes as it may.
    TooManyIndexes,
    /// The index would begin with so many nodes, which is more than it may.
    IndexTooLarge { count: u32 },
    /// The indexes would take more records than twice the limit.
    FullIndex,
    /// The label and the key have no index.
    NoIndex,
}
