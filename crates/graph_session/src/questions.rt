ghost use Rattle.graph_session.specs.Jobs.{question_command};
ghost use Rattle.plain_graph.specs.Lines.{HasForm};
ghost use Rattle.graph_session.specs.Questions.{GivesReading};
ghost use Rattle.graph_session.specs.ReplyLines.{HaveSameSink};

use crate::Turn;
use crate::context::Context;
use crate::line_buffer::LineBuffer;
use crate::question::Question;
use crate::questions::counts::give_counts;
use crate::questions::degrees::give_degree;
use crate::questions::edge_results::give_edges;
use crate::questions::index_lists::give_indexes;
use crate::questions::index_results::give_found;
use crate::questions::name_lists::give_names;
use crate::questions::query_results::give_query;
use crate::questions::verdicts::give_verdict;
use crate::questions::views::give_view;
use crate::questions::walks::{give_levels, give_walk};
use crate::reply_lines::ReplyLines;
use rec_bytes::Reads;
use stream_io::Sink;

mod counts;
mod degrees;
mod edge_results;
mod index_lists;
mod index_results;
mod name_lists;
mod query_results;
mod verdicts;
mod views;
mod walks;

/// Answers a line that reads the graph of a space, through the buffer. The prefix stands before
/// each line of the reply.
pub(crate) fn reply_question<R: Reads, K: Sink>(
    context: Context<'_>,
    space: &mut R,
    question: Question<'_>,
    buffer: &mut LineBuffer,
    prefix: &[u8],
    output: &mut K,
) -> Turn
    requires { HasForm (question_command question) }
    ensures { GivesReading R.Reads K.Sink context.entry.names.now.names
        (question_command question.entry)
        prefix.now space.old space.new output.old output.new result }
{
    let mut lines = ReplyLines {
        prefix,
        buffer,
        output,
    };
    answer_question(context, space, question, &mut lines)
}

/// Answers a line that reads the graph of a space, whose names these are.
pub(crate) fn answer_question<R: Reads, K: Sink>(
    context: Context<'_>,
    space: &mut R,
    question: Question<'_>,
    lines: &mut ReplyLines<'_, K>,
) -> Turn
    requires { HasForm (question_command question) }
    ensures gives { GivesReading R.Reads K.Sink context.entry.names.now.names
        (question_command question.entry)
        lines.old.prefix.now space.old space.new
        lines.old.output.now lines.new.output.now result }
    ensures same_sink { HaveSameSink lines.old lines.new }
{
    match question {
        Question::Check => give_verdict(context.alloc, space, lines),
        Question::Stats => give_counts(space, lines),
        Question::Degree {
            id,
            direction,
            label,
        } => give_degree(context, space, id, direction, label, lines),
        Question::Expand {
            id,
            direction,
            label,
        } => give_edges(context, space, id, direction, label, lines),
        Question::Path(route) => give_walk(context, space, route, lines),
        Question::Levels(route) => give_levels(context, space, route, lines),
        Question::Find { label, key, value } => {
            give_found(context, space, label, key, value, lines)
        }
        Question::View(target) => give_view(context, space, &target, lines),
        Question::ViewNames => give_names(space, context.names, lines),
        Question::ViewIndexes => give_indexes(context, space, lines),
        Question::Query(query) => give_query(context, space, query, lines),
    }
}
