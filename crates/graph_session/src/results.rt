ghost use Rattle.std.specs.Prelude.{◌≡◌};
ghost use Rattle.std.specs.List.{AllByRecursion};
ghost use Rattle.plain_graph.specs.Forms.{IsShown};
ghost use Rattle.plain_graph.specs.LineChanges.{mutated_reply};
ghost use Rattle.plain_graph.specs.Reply.{prefixed_text};
ghost use Rattle.graph_session.specs.Answer.{Gives};
ghost use Rattle.graph_session.specs.ReplyLines.{HaveSameSink};
ghost use Rattle.graph_session.specs.Results.{AreShown-prop};

use crate::Turn;
use crate::reply_lines::ReplyLines;
use plain_graph::{Item, end_of_results};
use stream_io::Sink;

/// The results of a change, which are kept until it is on the disk. Each has a line.
#[derive(Drop)]
pub(crate) struct Results {
    items: Vec<Item>,
    ghost shown: { AllByRecursion IsShown items.items } by { AreShown-prop items.items },
}

impl Results {
    /// These results.
    pub(crate) fn new(items: Vec<Item>) -> Results
        requires { AllByRecursion IsShown items.items }
        ensures { result.items ≡ items }
    {
        Results { items }
    }

    /// Gives a line for each result to the sink, and the end. It takes no memory.
    pub(crate) fn give<K: Sink>(&self, lines: &mut ReplyLines<'_, K>) -> Turn
        ensures gives { Gives K.Sink
            (prefixed_text lines.old.prefix.now (mutated_reply self.now.items.items))
            lines.old.output.now lines.new.output.now result }
        ensures same_sink { HaveSameSink lines.old lines.new }
    {
        lines.begin();
        for item in &self.items {
            match lines.add_result(item) {
                Turn::Go => {}
                turn => return turn,
            }
        }
        lines.finish(end_of_results())
    }
}
