ghost use Rattle.std.specs.Prelude.{◌++◌};
ghost use Rattle.plain_graph.specs.Reply.{prefixed_text};
ghost use Rattle.graph_session.specs.Answer.{Gives};
ghost use Rattle.graph_session.specs.Answering.{reply_of};
ghost use Rattle.graph_session.specs.ReplyLines.{HaveSameSink};

use crate::Turn;
use crate::answer::Answer;
use crate::line_buffer::LineBuffer;
use crate::reply_lines::ReplyLines;
use fault_count::Failed;
use plain_graph::{done, edge_made, node_made, refused};
use stream_io::Sink;

/// Gives an answer to a sink, each line after the prefix, through the buffer.
pub(crate) fn give_reply<K: Sink>(
    buffer: &mut LineBuffer,
    prefix: &[u8],
    output: &mut K,
    answer: Answer,
) -> Turn
    ensures { Gives K.Sink (prefixed_text prefix.now (reply_of answer))
        output.old output.new result }
{
    let mut lines = ReplyLines {
        prefix,
        buffer,
        output,
    };
    give_answer(&mut lines, answer)
}

/// Gives an answer to the sink, in one piece but for its results. It takes no memory.
pub(crate) fn give_answer<K: Sink>(lines: &mut ReplyLines<'_, K>, answer: Answer) -> Turn
    ensures gives { Gives K.Sink (prefixed_text lines.old.prefix.now (reply_of answer))
        lines.old.output.now lines.new.output.now result }
    ensures same_sink { HaveSameSink lines.old lines.new }
{
    match answer {
        Answer::Done => give_line(lines, done()),
        Answer::NodeMade(id) => give_line(lines, node_made(id).as_bytes()),
        Answer::EdgeMade(id) => give_line(lines, edge_made(id).as_bytes()),
        Answer::Results(results) => results.give(lines),
        Answer::Refused(why) => give_line(lines, refused(why).as_bytes()),
        Answer::Fault(fault) => {
            lines.begin();
            lines.stop(fault)
        }
    }
}

/// Gives a line after its prefix to the sink, in one piece if both fit in a buffer.
pub(crate) fn give_line<K: Sink>(lines: &mut ReplyLines<'_, K>, line: &[u8]) -> Turn
    ensures gives { Gives K.Sink (lines.old.prefix.now ++ line.now)
        lines.old.output.now lines.new.output.now result }
    ensures same_sink { HaveSameSink lines.old lines.new }
{
    if lines.prefix.is_empty() {
        return give(lines.output, line);
    }
    lines.begin();
    lines.finish(line)
}

/// Gives a text to the sink, in one piece.
pub(crate) fn give<K: Sink>(output: &mut K, text: &[u8]) -> Turn
    ensures { Gives K.Sink text.now output.old output.new result }
{
    match output.put(text) {
        Ok(()) => Turn::Go,
        Err(Failed) => Turn::SinkFault,
    }
}
