ghost use Rattle.std.specs.Prelude.{◌≡◌};
ghost use Rattle.graph_console.specs.Exit.{status};

use graph_session::Config;
use rec_bytes::Shape;

/// How the program ends. Each exit has one status, and each status one cause.
#[derive(Clone, Copy, Debug, PartialEq, Eq)]
pub enum Exit {
    /// The input was read to its end or to `quit`.
    Done,
    /// So it was, and at its end the session's health was failed.
    StoreFailed,
    /// The words are no command of the program.
    Usage,
    /// The source of the input failed.
    InputFault,
    /// The sink of the output failed.
    OutputFault,
    /// There was no memory to begin with.
    NoMemory,
    /// The files hold no store, or a damaged one.
    BadFiles,
    /// The store has another shape than the one that was asked for.
    ConfigDiffers { stored: Shape, asked: Config },
    /// The disk failed while the store was opened.
    DiskFault,
    /// A run may take no more bytes of the input, and its end wasn't reached.
    InputTooLong,
}

impl Exit {
    /// The status that the program ends with.
    pub fn code(&self) -> u8
        ensures { result ≡ status self.now }
    {
        match self {
            Exit::Done => 0,
            Exit::StoreFailed => 1,
            Exit::Usage => 2,
            Exit::InputFault => 3,
            Exit::OutputFault => 4,
            Exit::NoMemory => 5,
            Exit::BadFiles => 6,
            Exit::ConfigDiffers { .. } => 7,
            Exit::DiskFault => 8,
            Exit::InputTooLong => 9,
        }
    }
}
