ghost use Rattle.std.specs.Prelude.{◌≡◌, ◌≤◌, Bool, ℕ, length};
ghost use Rattle.plain_graph.specs.Reply.{Told, end_text, prefixed_text};
ghost use Rattle.plain_graph.specs.declared.command.Command.TheVariants as commands;
ghost use Rattle.prop_store.specs.Reading.{ReadsAtMost};
ghost use Rattle.rec_bytes.specs.Format.{most_names};
ghost use Rattle.graph_session.specs.Answer.{Gives};
ghost use Rattle.graph_session.specs.IndexLists.{
  IsNext,
  index_lines,
  is_taken,
  place_of,
  with_place,
};
ghost use Rattle.graph_session.specs.Questions.{GivesReading};
ghost use Rattle.graph_session.specs.ReplyLines.{HaveSameSink};

use crate::Turn;
use crate::answer::Answer;
use crate::context::Context;
use crate::giving::give_answer;
use crate::reply_lines::ReplyLines;
use crate::type_numbers::name_count;
use name_store::Names;
use plain_graph::end_of_results;
use prop_index::{IndexPair, indexes};
use rec_bytes::Reads;
use stream_io::Sink;

/// Gives the indexes of the graph, by label and then by key in the order of their names. It reads
/// the definitions, before the first line.
pub(crate) fn give_indexes<R: Reads, K: Sink>(
    context: Context<'_>,
    space: &mut R,
    lines: &mut ReplyLines<'_, K>,
) -> Turn
    ensures gives { GivesReading R.Reads K.Sink context.entry.names.now.names
        commands.ViewIndexes
        lines.old.prefix.now space.old space.new
        lines.old.output.now lines.new.output.now result }
    ensures same_sink { HaveSameSink lines.old lines.new }
    ensures cost { ReadsAtMost 17 (R.state space.old) (R.state space.new) }
{
    let count = name_count(space, context.names);
    match indexes(context.alloc, space) {
        Ok(pairs) => give_pairs(&pairs, context.names, count, lines),
        Err(fault) => give_answer(lines, Answer::from(fault)),
    }
}

/// Gives a line for each of these pairs, and the end. A pair with a number that isn't below the
/// count is no index.
fn give_pairs<K: Sink>(
    pairs: &[IndexPair],
    names: &Names,
    count: u32,
    lines: &mut ReplyLines<'_, K>,
) -> Turn
    requires few { count ≤ most_names }
    requires named { count ≤ length names.now.names }
    ensures gives { Gives K.Sink
        (prefixed_text lines.old.prefix.now
        (Told (index_lines names.now.names count pairs.now) end_text))
        lines.old.output.now lines.new.output.now result }
    ensures same_sink { HaveSameSink lines.old lines.new }
{
    lines.begin();
    let mut from = 0;
    'each: while let Some(place) = next_place(pairs, count, from) {
        let label = names.text(place / count);
        let key = names.text(place % count);
        match lines.add_index(label, key) {
            Turn::Go => {}
            turn => return turn,
        }
        from = place + 1;
    }
    lines.finish(end_of_results())
}

/// The first place from one on that a pair has.
fn next_place(pairs: &[IndexPair], count: u32, from: u32) -> Option<u32>
    requires { count ≤ most_names }
    ensures { IsNext (is_taken count pairs.now) from result }
{
    let mut next = None;
    for pair in pairs {
        next = nearer(next, place_of(pair, count), from);
    }
    next
}

/// The nearer of two places, where the second one isn't before the first that is wanted.
fn nearer(next: Option<u32>, place: Option<u32>, from: u32) -> Option<u32>
    ensures { (test : ℕ → Bool) → IsNext test from next
        → IsNext (with_place test place) from result }
{
    let Some(place) = place else {
        return next;
    };
    if place < from {
        return next;
    }
    match next {
        Some(best) if best <= place => next,
        _ => Some(place),
    }
}

/// The place of a pair among all pairs of so many numbers.
fn place_of(pair: &IndexPair, count: u32) -> Option<u32>
    requires { count ≤ most_names }
    ensures { result ≡ place_of count pair.now }
{
    if pair.label < count && pair.key < count {
        Some(pair.label * count + pair.key)
    } else {
        None
    }
}
