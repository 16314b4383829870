ghost use Rattle.std.specs.Prelude.{◌≡◌, ◌≤◌, length, not, IfOk, IfErr};
ghost use Rattle.gremlin_parse.specs.Commands.{head_words, arguments_of, last_part};
ghost use Rattle.gremlin_parse.specs.Commands.{IsPlain, Asks, built};
ghost use Rattle.gremlin_parse.specs.Lasts.{is_query};
ghost use Rattle.gremlin_parse.specs.Keywords.{TakesWord, LeavesTable};
ghost use Rattle.gremlin_parse.specs.Stopping.{StopsWith};
ghost use Rattle.gremlin_parse.specs.declared.last.Last.{Last as LastRow};

use crate::argument::{Argument, Givens};
use crate::keyword::read_keyword;
use crate::last::{Last, LastPart, copy_last_name};
use crate::parts::copy_name;
use crate::stop::Stop;
use crate::target::target_of;
use crate::value::value_of;
use crate::viewed::view_command;
use crate::word::{Word, plain_command};
use plain_graph::Command;
use std::alloc::Global;

/// What a command or a query begins with.
#[derive(Clone, Copy)]
pub(crate) enum Head {
    Alone(Word),
    Node,
    Edge,
    Set,
    Unset,
    Delete,
    Index,
    Find,
    Expand,
    Degree,
    Path,
    Levels,
    View,
    Query,
}

const HEADS: [(&[u8], Head); 23] = [
    (b"begin", Head::Alone(Word::Begin)),
    (b"commit", Head::Alone(Word::Commit)),
    (b"rollback", Head::Alone(Word::Rollback)),
    (b"checkpoint", Head::Alone(Word::Checkpoint)),
    (b"check", Head::Alone(Word::Check)),
    (b"stats", Head::Alone(Word::Stats)),
    (b"reopen", Head::Alone(Word::Reopen)),
    (b"snapshot", Head::Alone(Word::Snapshot)),
    (b"release", Head::Alone(Word::Release)),
    (b"quit", Head::Alone(Word::Quit)),
    (b"node", Head::Node),
    (b"edge", Head::Edge),
    (b"set", Head::Set),
    (b"unset", Head::Unset),
    (b"delete", Head::Delete),
    (b"index", Head::Index),
    (b"find", Head::Find),
    (b"expand", Head::Expand),
    (b"degree", Head::Degree),
    (b"path", Head::Path),
    (b"levels", Head::Levels),
    (b"view", Head::View),
    (b"g", Head::Query),
];

/// The word that a command or a query begins with, and the bytes after it.
///
/// # Errors
/// A fault of syntax after the longest prefix of such a word.
pub(crate) fn read_head(bytes: &[u8]) -> Result<(Head, &[u8]), Stop>
    ensures ok { IfOk result (λ r. TakesWord head_words bytes.now r.0 r.1.now) }
    ensures err { IfErr result (StopsWith (LeavesTable head_words bytes.now)) }
{
    read_keyword(bytes, &HEADS)
}

/// What stands after the first word, each after one blank or more.
pub(crate) fn arguments_of(head: Head) -> &'static [Argument]
    ensures are { result.now ≡ arguments_of head }
    ensures few { length result.now ≤ 4 }
{
    match head {
        Head::Node => &[Argument::Name],
        Head::Edge => &[Argument::Number, Argument::Name, Argument::Number],
        Head::Set => &[
            Argument::Element,
            Argument::Number,
            Argument::Name,
            Argument::Value,
        ],
        Head::Unset => &[Argument::Element, Argument::Number, Argument::Name],
        Head::Delete => &[Argument::Element, Argument::Number],
        Head::Index => &[Argument::Name, Argument::Name],
        Head::Find => &[Argument::Name, Argument::Name, Argument::Value],
        Head::Expand => &[Argument::Number, Argument::Direction, Argument::Name],
        Head::Degree => &[Argument::Number, Argument::Direction],
        Head::Path | Head::Levels => &[Argument::Number, Argument::Number, Argument::Direction],
        Head::Alone(_) | Head::View | Head::Query => &[],
    }
}

/// What stands after those.
pub(crate) fn last_part(head: Head) -> LastPart
    ensures { result ≡ last_part head }
{
    match head {
        Head::Node | Head::Edge => LastPart::Pairs,
        Head::Degree | Head::Path | Head::Levels => LastPart::MaybeName,
        Head::View => LastPart::Viewed,
        Head::Query => LastPart::Query,
        _ => LastPart::End,
    }
}

/// Whether a command stands there, and no query.
pub(crate) fn is_plain(head: Head) -> bool
    ensures { result ≡ not (is_query (last_part head)) }
{
    !matches!(head, Head::Query)
}

/// The command of the first word and of what stands after it.
pub(crate) fn command_of(
    alloc: Global,
    head: Head,
    givens: Givens,
    last: Last,
) -> Result<Command, Stop>
    requires { IsPlain head }
    ensures ok { IfOk result (λ command. command ≡ built head givens.entry last.entry) }
    ensures err { IfErr result (λ stop. stop ≡ Stop.Memory) }
    ensures asks { IfErr result (λ stop. Asks head) }
{
    match head {
        Head::Alone(word) => Ok(plain_command(word)),
        Head::Node => node_of(alloc, givens, last),
        Head::Edge => edge_of(alloc, givens, last),
        Head::Set => set_of(alloc, givens),
        Head::Unset => unset_of(alloc, givens),
        Head::Delete => Ok(delete_of(givens)),
        Head::Index => index_of(alloc, givens),
        Head::Find => find_of(alloc, givens),
        Head::Expand => expand_of(alloc, givens),
        Head::Degree => degree_of(alloc, givens, last),
        Head::Path => path_of(alloc, givens, last),
        Head::Levels => levels_of(alloc, givens, last),
        Head::View => Ok(view_of(givens, last)),
        Head::Query => unreachable!(),
    }
}

#[tactic(auto, unfolding(crate::specs::Commands::built))]
fn node_of(alloc: Global, givens: Givens, last: Last) -> Result<Command, Stop>
    ensures ok { IfOk result (λ command. command ≡ built Head.Node givens.entry last.entry) }
    ensures err { IfErr result (λ stop. stop ≡ Stop.Memory) }
{
    let label = copy_name(alloc, givens.first.name())?;
    let pairs = last.pairs;
    Ok(Command::Node { label, pairs })
}

#[tactic(auto, unfolding(crate::specs::Commands::built))]
fn edge_of(alloc: Global, givens: Givens, last: Last) -> Result<Command, Stop>
    ensures ok { IfOk result (λ command. command ≡ built Head.Edge givens.entry last.entry) }
    ensures err { IfErr result (λ stop. stop ≡ Stop.Memory) }
{
    let label = copy_name(alloc, givens.second.name())?;
    Ok(Command::Edge {
        from: givens.first.number(),
        label,
        to: givens.third.number(),
        pairs: last.pairs,
    })
}

#[tactic(auto, unfolding(crate::specs::Commands::built))]
fn set_of(alloc: Global, givens: Givens) -> Result<Command, Stop>
    ensures ok { IfOk result (λ command. (last : LastRow) →
        command ≡ built Head.Set givens.entry last) }
    ensures err { IfErr result (λ stop. stop ≡ Stop.Memory) }
{
    let target = target_of(givens.first.element(), givens.second.number());
    let key = copy_name(alloc, givens.third.name())?;
    let value = value_of(alloc, givens.fourth.value())?;
    Ok(Command::Set { target, key, value })
}

#[tactic(auto, unfolding(crate::specs::Commands::built))]
fn unset_of(alloc: Global, givens: Givens) -> Result<Command, Stop>
    ensures ok { IfOk result (λ command. (last : LastRow) →
        command ≡ built Head.Unset givens.entry last) }
    ensures err { IfErr result (λ stop. stop ≡ Stop.Memory) }
{
    let target = target_of(givens.first.element(), givens.second.number());
    let key = copy_name(alloc, givens.third.name())?;
    Ok(Command::Unset { target, key })
}

#[tactic(auto, unfolding(crate::specs::Commands::built))]
fn delete_of(givens: Givens) -> Command
    ensures { (last : LastRow) → result ≡ built Head.Delete givens.entry last }
{
    Command::Delete(target_of(givens.first.element(), givens.second.number()))
}

#[tactic(auto, unfolding(crate::specs::Commands::built))]
fn index_of(alloc: Global, givens: Givens) -> Result<Command, Stop>
    ensures ok { IfOk result (λ command. (last : LastRow) →
        command ≡ built Head.Index givens.entry last) }
    ensures err { IfErr result (λ stop. stop ≡ Stop.Memory) }
{
    let label = copy_name(alloc, givens.first.name())?;
    let key = copy_name(alloc, givens.second.name())?;
    Ok(Command::Index { label, key })
}

#[tactic(auto, unfolding(crate::specs::Commands::built))]
fn find_of(alloc: Global, givens: Givens) -> Result<Command, Stop>
    ensures ok { IfOk result (λ command. (last : LastRow) →
        command ≡ built Head.Find givens.entry last) }
    ensures err { IfErr result (λ stop. stop ≡ Stop.Memory) }
{
    let label = copy_name(alloc, givens.first.name())?;
    let key = copy_name(alloc, givens.second.name())?;
    let value = value_of(alloc, givens.third.value())?;
    Ok(Command::Find { label, key, value })
}

#[tactic(auto, unfolding(crate::specs::Commands::built))]
fn expand_of(alloc: Global, givens: Givens) -> Result<Command, Stop>
    ensures ok { IfOk result (λ command. (last : LastRow) →
        command ≡ built Head.Expand givens.entry last) }
    ensures err { IfErr result (λ stop. stop ≡ Stop.Memory) }
{
    let label = copy_name(alloc, givens.third.name())?;
    Ok(Command::Expand {
        id: givens.first.number(),
        direction: givens.second.direction(),
        label,
    })
}

#[tactic(auto, unfolding(crate::specs::Commands::built))]
fn degree_of(alloc: Global, givens: Givens, last: Last) -> Result<Command, Stop>
    ensures ok { IfOk result (λ command. command ≡ built Head.Degree givens.entry last.entry) }
    ensures err { IfErr result (λ stop. stop ≡ Stop.Memory) }
{
    let label = copy_last_name(alloc, last.name)?;
    Ok(Command::Degree {
        id: givens.first.number(),
        direction: givens.second.direction(),
        label,
    })
}

#[tactic(auto, unfolding(crate::specs::Commands::built))]
fn path_of(alloc: Global, givens: Givens, last: Last) -> Result<Command, Stop>
    ensures ok { IfOk result (λ command. command ≡ built Head.Path givens.entry last.entry) }
    ensures err { IfErr result (λ stop. stop ≡ Stop.Memory) }
{
    let label = copy_last_name(alloc, last.name)?;
    Ok(Command::Path {
        from: givens.first.number(),
        to: givens.second.number(),
        direction: givens.third.direction(),
        label,
    })
}

#[tactic(auto, unfolding(crate::specs::Commands::built))]
fn levels_of(alloc: Global, givens: Givens, last: Last) -> Result<Command, Stop>
    ensures ok { IfOk result (λ command. command ≡ built Head.Levels givens.entry last.entry) }
    ensures err { IfErr result (λ stop. stop ≡ Stop.Memory) }
{
    let label = copy_last_name(alloc, last.name)?;
    Ok(Command::Levels {
        from: givens.first.number(),
        to: givens.second.number(),
        direction: givens.third.direction(),
        label,
    })
}

#[tactic(auto, unfolding(crate::specs::Commands::built))]
fn view_of(_givens: Givens, last: Last) -> Command
    ensures { result ≡ built Head.View _givens.entry last.entry }
{
    view_command(last.viewed)
}
