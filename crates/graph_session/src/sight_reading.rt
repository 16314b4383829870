//! Answers to a session that reads, over what its snapshot sees.

ghost use Rattle.std.specs.Prelude.{◌≡◌, true};
ghost use Rattle.graph_session.specs.Jobs.{question_command};
ghost use Rattle.plain_graph.specs.Lines.{HasForm};
ghost use Rattle.snap_store.specs.Layers.{is_open, sees};
ghost use Rattle.txn_core.specs.Committed.{OnlyReadsStore};
ghost use Rattle.txn_core.specs.Store.{committed};
ghost use Rattle.graph_session.specs.ReplyLines.{HaveSameSink};
ghost use Rattle.graph_session.specs.SightReading.{GivesSight, counts};
ghost use Rattle.graph_session.specs.State.{IsSpared};

use crate::Turn;
use crate::context::Context;
use crate::line_buffer::LineBuffer;
use crate::question::Question;
use crate::questions::answer_question;
use crate::reply_lines::ReplyLines;
use disk_model::Disk;
use rec_bytes::Reads;
use snap_store::Snaps;
use stream_io::Sink;
use txn_core::{Committed, Store};

/// Who reads, and what it asks for beside the store.
#[derive(Clone, Copy)]
pub(crate) struct Reader<'a> {
    /// The names begin with those of its snapshot.
    pub(crate) context: Context<'a>,
    pub(crate) snaps: &'a Snaps,
    /// The session.
    pub(crate) number: u8,
}

/// Answers a line that reads what the reader's snapshot sees of what a store has committed, through
/// the buffer. The prefix stands before each line of the reply.
pub(crate) fn read_store<D: Disk, K: Sink>(
    reader: Reader<'_>,
    store: &mut Store<'_, D>,
    question: Question<'_>,
    buffer: &mut LineBuffer,
    prefix: &[u8],
    output: &mut K,
) -> Turn
    requires open { is_open reader.number reader.snaps.now.open_ones ≡ true }
    requires form { HasForm (question_command question) }
    ensures gives { GivesSight D.tells_reads K.Sink
        (sees reader.entry.snaps.now.open_ones reader.entry.number (committed store.old))
        store.old.base.shape
        reader.entry.context.names.now.names (question_command question.entry) prefix.now
        (counts (D.faults store.old.base.disk.now) (D.faults store.new.base.disk.now))
        output.old output.new result }
    ensures onward { OnlyReadsStore store.old store.new }
    ensures idle { IsSpared (question_command question.entry) → store.new ≡ store.old }
{
    let mut committed = Committed { store };
    let mut lines = ReplyLines {
        prefix,
        buffer,
        output,
    };
    read_by(reader, &mut committed, question, &mut lines)
}

// The same over any committed space.
fn read_by<R: Reads, K: Sink>(
    reader: Reader<'_>,
    space: &mut R,
    question: Question<'_>,
    lines: &mut ReplyLines<'_, K>,
) -> Turn
    requires open { is_open reader.number reader.snaps.now.open_ones ≡ true }
    requires form { HasForm (question_command question) }
    ensures gives { GivesSight R.tells K.Sink
        (sees reader.entry.snaps.now.open_ones reader.entry.number (R.state space.old).records)
        (R.state space.old).shape
        reader.entry.context.names.now.names (question_command question.entry)
        lines.old.prefix.now
        (counts (R.faults space.old) (R.faults space.new))
        lines.old.output.now lines.new.output.now result }
    ensures same_sink { HaveSameSink lines.old lines.new }
    ensures onward { R.onward space.old space.new }
    ensures idle { IsSpared (question_command question.entry) → space.new ≡ space.old }
{
    let Reader {
        context,
        snaps,
        number,
    } = reader;
    let mut view = snaps.view(number, space);
    answer_question(context, &mut view, question, lines)
}
