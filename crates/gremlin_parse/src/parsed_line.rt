use crate::LineFault;
use plain_graph::Command;

/// What a line says: the session that it names, and its command or its leftmost fault.
#[derive(Drop)]
pub struct ParsedLine {
    /// The session that the line names, as `@1 ` does, whatever stands after that.
    pub session: Option<u8>,
    pub command: Result<Command, LineFault>,
}
