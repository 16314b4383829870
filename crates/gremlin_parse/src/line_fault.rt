/// Why a line gives no command. Places are counted in bytes from the line's start.
#[derive(Clone, Copy)]
pub enum LineFault {
    /// There was no memory for the command.
    Memory,
    /// No line of the grammar begins with more of the line than its bytes before `at`.
    Syntax { at: usize },
    /// The name at `at` has more than 48 bytes.
    NameLength { at: usize },
    /// The text whose opening quote is at `at` has more than 1,024 bytes.
    TextLength { at: usize },
    /// The number at `at` is above 4,294,967,294 where an identifier stands, above 4,294,967,295
    /// in `limit`, and else outside of -9,223,372,036,854,775,808 to 9,223,372,036,854,775,807.
    NumberRange { at: usize },
    /// The number of `times` at `at` is below 1 or above 16.
    TimesRange { at: usize },
    /// The step whose name is at `at` does not fit what comes to it.
    StepKind { at: usize },
    /// The name of the 33rd step is at `at`; a repeat and each step of its body count.
    TooManySteps { at: usize },
}
