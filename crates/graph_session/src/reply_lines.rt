ghost use Rattle.std.specs.Prelude.{◌≤◌, ◌++◌, length};
ghost use Rattle.plain_graph.specs.Forms.{IsShown};
ghost use Rattle.plain_graph.specs.Reply.{fault_line, index_line, result_text, text_line};
ghost use Rattle.graph_session.specs.Answer.{Gives};
ghost use Rattle.graph_session.specs.Answering.{stop_of};
ghost use Rattle.graph_session.specs.NameLists.{name_text};

use crate::Turn;
use crate::line_buffer::{LineBuffer, gather_prefixed, give_all};
use plain_graph::{Item, damaged, disk_fault, index_line, name_line, no_memory, result_line};
use rec_bytes::Fault;
use stream_io::Sink;

/// The lines of a reply on their way to the sink. It is written as a literal where it is used: a
/// call that handed it out would leave its caller without what is known of the sink.
#[derive(Drop)]
pub(crate) struct ReplyLines<'a, K: Sink> {
    /// What each line begins with.
    pub(crate) prefix: &'a [u8],
    /// Where they are gathered, after those of the last reply are forgotten.
    pub(crate) buffer: &'a mut LineBuffer,
    pub(crate) output: &'a mut K,
}

impl<'a, K: Sink> ReplyLines<'a, K> {
    ghost use Rattle.graph_session.specs.ReplyLines.{AddsLine, BeginsLines, HaveSameSink};

    /// Begins a reply, whatever the last one left in the buffer.
    pub(crate) fn begin(&mut self)
        ensures { BeginsLines self.old self.new }
    {
        let buffer = &mut *self.buffer;
        buffer.bytes.clear();
    }

    /// Puts the line of a result at the end, as `add` does.
    pub(crate) fn add_result(&mut self, item: &Item) -> Turn
        requires { IsShown item.now }
        ensures { AddsLine K.Sink (result_text item.now) self.old self.new result }
    {
        let buffer = &mut *self.buffer;
        result_line(item, &mut buffer.line);
        gather_prefixed(
            &mut buffer.bytes,
            self.output,
            self.prefix,
            buffer.line.as_bytes(),
        )
    }

    /// Puts the line of a name at the end, as `add` does.
    pub(crate) fn add_name(&mut self, name: &[u8]) -> Turn
        requires { length name.now ≤ 48 }
        ensures { AddsLine K.Sink (text_line (name_text name.now)) self.old self.new result }
    {
        let buffer = &mut *self.buffer;
        name_line(name, &mut buffer.line);
        gather_prefixed(
            &mut buffer.bytes,
            self.output,
            self.prefix,
            buffer.line.as_bytes(),
        )
    }

    /// Puts the line of an index at the end, as `add` does.
    pub(crate) fn add_index(&mut self, label: &[u8], key: &[u8]) -> Turn
        requires { length label.now ≤ 48 × length key.now ≤ 48 }
        ensures { AddsLine K.Sink (text_line (index_line label.now key.now))
            self.old self.new result }
    {
        let buffer = &mut *self.buffer;
        index_line(label, key, &mut buffer.line);
        gather_prefixed(
            &mut buffer.bytes,
            self.output,
            self.prefix,
            buffer.line.as_bytes(),
        )
    }

    /// Puts the prefix and a line at the end.
    pub(crate) fn add(&mut self, line: &[u8]) -> Turn
        ensures { AddsLine K.Sink line.now self.old self.new result }
    {
        let buffer = &mut *self.buffer;
        gather_prefixed(&mut buffer.bytes, self.output, self.prefix, line)
    }

    /// Puts the prefix and the last line at the end, and gives all to the sink.
    pub(crate) fn finish(&mut self, line: &[u8]) -> Turn
        ensures gives { Gives K.Sink
            (self.old.buffer.now.bytes ++ (self.old.prefix.now ++ line.now))
            self.old.output.now self.new.output.now result }
        ensures same_sink { HaveSameSink self.old self.new }
    {
        match self.add(line) {
            Turn::Go => self.flush(),
            turn => turn,
        }
    }

    /// Puts the prefix and the line of a fault at the end, and gives all to the sink.
    pub(crate) fn stop(&mut self, fault: Fault) -> Turn
        ensures gives { Gives K.Sink
            (self.old.buffer.now.bytes ++ (self.old.prefix.now ++ fault_line (stop_of fault)))
            self.old.output.now self.new.output.now result }
        ensures same_sink { HaveSameSink self.old self.new }
    {
        match fault {
            Fault::Memory => self.finish(no_memory()),
            Fault::Disk => self.finish(disk_fault()),
            Fault::Damaged(damage) => self.finish(damaged(damage.file, damage.id).as_bytes()),
        }
    }

    // Gives what was gathered to the sink.
    fn flush(&mut self) -> Turn
        ensures gives { Gives K.Sink self.old.buffer.now.bytes
            self.old.output.now self.new.output.now result }
        ensures same_sink { HaveSameSink self.old self.new }
    {
        let buffer = &mut *self.buffer;
        give_all(&mut buffer.bytes, self.output)
    }
}
