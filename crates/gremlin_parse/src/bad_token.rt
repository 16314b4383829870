/// A token that stands whole and has a fault of its own.
#[derive(Clone, Copy)]
pub(crate) enum BadToken {
    /// A name of more than 48 bytes.
    LongName,
    /// A text of more than 1,024 bytes.
    LongText,
    /// An identifier above 4,294,967,294, a limit above 4,294,967,295, or a number that 64 bits
    /// with a sign don't hold.
    WideNumber,
    /// A number of `times` below 1 or above 16.
    WrongTimes,
    /// The name of a step that does not fit what comes to it.
    UnfitStep,
    /// The name of the 33rd step; the steps of bodies count.
    LateStep,
}
