/// How the run goes on after a line.
#[derive(Clone, Copy)]
pub enum Turn {
    /// With the next line.
    Go,
    /// Not at all: the line was `quit`.
    Quit,
    /// Not at all: the sink failed.
    SinkFault,
}
