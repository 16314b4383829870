ghost use Rattle.std.specs.Prelude.{◌≡◌};
ghost use Rattle.graph_session.specs.Jobs.{command_of};

use crate::change::Change;
use crate::question::{Question, Route};
use plain_graph::Command;

/// What a command asks for, by who may ask for it.
#[derive(Clone, Copy)]
pub(crate) enum Job<'a> {
    /// Nothing: it is a line of blanks, which gets no reply.
    Blank,
    /// The end of the run, which gets none either.
    Quit,
    /// A snapshot, or none: of a session that reads.
    Snapshot(SnapshotAct),
    /// What only the session that writes may do.
    Act(Act<'a>),
    /// What is read of the graph, of whichever session.
    Question(Question<'a>),
}

/// What a session that reads does with its snapshot.
#[derive(Clone, Copy)]
pub(crate) enum SnapshotAct {
    Take,
    Release,
}

/// What the session that writes does.
#[derive(Clone, Copy)]
pub(crate) enum Act<'a> {
    Begin,
    Commit,
    Rollback,
    Checkpoint,
    Reopen,
    Change(Change<'a>),
}

impl<'a> Job<'a> {
    /// What the command asks for.
    pub(crate) fn of(command: &'a Command) -> Job<'a>
        ensures { command_of result ≡ command.now }
    {
        match command {
            Command::Blank => Job::Blank,
            Command::Quit => Job::Quit,
            Command::Snapshot => Job::Snapshot(SnapshotAct::Take),
            Command::Release => Job::Snapshot(SnapshotAct::Release),
            Command::Begin => Job::Act(Act::Begin),
            Command::Commit => Job::Act(Act::Commit),
            Command::Rollback => Job::Act(Act::Rollback),
            Command::Checkpoint => Job::Act(Act::Checkpoint),
            Command::Reopen => Job::Act(Act::Reopen),
            Command::Node { label, pairs } => Job::Act(Act::Change(Change::Node { label, pairs })),
            Command::Edge {
                from,
                label,
                to,
                pairs,
            } => Job::Act(Act::Change(Change::Edge {
                from: *from,
                label,
                to: *to,
                pairs,
            })),
            Command::Set { target, key, value } => Job::Act(Act::Change(Change::Set {
                target: *target,
                key,
                value,
            })),
            Command::Unset { target, key } => Job::Act(Act::Change(Change::Unset {
                target: *target,
                key,
            })),
            Command::Delete(target) => Job::Act(Act::Change(Change::Delete(*target))),
            Command::Index { label, key } => Job::Act(Act::Change(Change::Index { label, key })),
            Command::Mutate { reading, mutation } => {
                Job::Act(Act::Change(Change::Mutate { reading, mutation }))
            }
            Command::Check => Job::Question(Question::Check),
            Command::Stats => Job::Question(Question::Stats),
            Command::Find { label, key, value } => {
                Job::Question(Question::Find { label, key, value })
            }
            Command::Expand {
                id,
                direction,
                label,
            } => Job::Question(Question::Expand {
                id: *id,
                direction: *direction,
                label,
            }),
            Command::Degree {
                id,
                direction,
                label,
            } => Job::Question(Question::Degree {
                id: *id,
                direction: *direction,
                label,
            }),
            Command::Path {
                from,
                to,
                direction,
                label,
            } => Job::Question(Question::Path(Route {
                from: *from,
                to: *to,
                direction: *direction,
                label,
            })),
            Command::Levels {
                from,
                to,
                direction,
                label,
            } => Job::Question(Question::Levels(Route {
                from: *from,
                to: *to,
                direction: *direction,
                label,
            })),
            Command::View(target) => Job::Question(Question::View(*target)),
            Command::ViewNames => Job::Question(Question::ViewNames),
            Command::ViewIndexes => Job::Question(Question::ViewIndexes),
            Command::Query(query) => Job::Question(Question::Query(query)),
        }
    }
}
