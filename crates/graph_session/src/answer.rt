ghost use Rattle.std.specs.Prelude.{◌≡◌};
ghost use Rattle.change_parts.specs.Change.{full_of};
ghost use Rattle.graph_session.specs.Drafting.{full_answer};

use crate::results::Results;
use expand::ExpandFault;
use graph_ops::{ChangeFault, MutateFault};
use gremlin_parse::LineFault;
use plain_graph::Refusal;
use prop_index::LookupFault;
use rec_bytes::{
    Damage, Fault, GROUPS, INDEX, META, NAMES, NODES, PROPERTIES, RANGE_RULE, RELATIONSHIPS,
};

/// Stands for a damaged record that isn't named yet: the line looks for one before it replies.
const UNNAMED: Damage = Damage {
    file: META,
    id: NAMES as u32,
    rule: RANGE_RULE,
};

/// What a line is answered with that is no question.
#[derive(Drop)]
pub(crate) enum Answer {
    /// It was carried out.
    Done,
    /// It made a node of this identifier.
    NodeMade(u32),
    /// It made an edge of this identifier.
    EdgeMade(u32),
    /// It was carried out, and has these results.
    Results(Results),
    /// It is refused, and changes nothing.
    Refused(Refusal),
    /// There was no memory for it, the disk failed in it, or a record that it needs breaks a rule
    /// of the store. Without memory it changes nothing.
    Fault(Fault),
}

impl From<Fault> for Answer {
    ghost from_gives = { λ fault answer. answer ≡ answers.Fault fault };

    ghost use Rattle.graph_session.specs.declared.answer.Answer.TheVariants as answers;

    fn from(fault: Fault) -> Answer {
        Answer::Fault(fault)
    }
}

impl From<LineFault> for Answer {
    ghost from_gives = { λ fault answer. answer ≡ told_of fault };

    ghost use Rattle.graph_session.specs.Settling.{told_of};

    fn from(fault: LineFault) -> Answer {
        match fault {
            LineFault::Memory => Answer::Fault(Fault::Memory),
            LineFault::Syntax { at } => Answer::Refused(Refusal::Syntax { at }),
            LineFault::NameLength { at } => Answer::Refused(Refusal::NameLength { at }),
            LineFault::TextLength { at } => Answer::Refused(Refusal::TextLength { at }),
            LineFault::NumberRange { at } => Answer::Refused(Refusal::NumberRange { at }),
            LineFault::StepKind { at } => Answer::Refused(Refusal::StepKind { at }),
            LineFault::TooManySteps { at } => Answer::Refused(Refusal::TooManySteps { at }),
            LineFault::TimesRange { at } => Answer::Refused(Refusal::TimesRange { at }),
        }
    }
}

impl From<ExpandFault> for Answer {
    ghost from_gives = { λ fault answer. answer ≡ answer_for fault };

    ghost use Rattle.graph_session.specs.EdgeResults.{answer_for};

    fn from(fault: ExpandFault) -> Answer {
        match fault {
            ExpandFault::NoNode { id } => Answer::Refused(Refusal::NoNode { id }),
            ExpandFault::Memory => Answer::Fault(Fault::Memory),
            ExpandFault::Disk => Answer::Fault(Fault::Disk),
            ExpandFault::Damaged(damage) => Answer::Fault(Fault::Damaged(damage)),
        }
    }
}

impl From<LookupFault> for Answer {
    ghost from_gives = { λ fault answer. answer ≡ answer_for fault };

    ghost use Rattle.graph_session.specs.IndexResults.{answer_for};

    fn from(fault: LookupFault) -> Answer {
        match fault {
            LookupFault::NoIndex => Answer::Refused(Refusal::NoIndex),
            LookupFault::Memory => Answer::Fault(Fault::Memory),
            LookupFault::Disk => Answer::Fault(Fault::Disk),
            LookupFault::Damaged(damage) => Answer::Fault(Fault::Damaged(damage)),
        }
    }
}

impl From<ChangeFault> for Answer {
    ghost from_gives = { λ fault answer. answer ≡ answer_for fault };

    ghost use Rattle.graph_session.specs.Drafting.{answer_for};

    fn from(fault: ChangeFault) -> Answer {
        match fault {
            ChangeFault::NoNode { id } => Answer::Refused(Refusal::NoNode { id }),
            ChangeFault::NoEdge { id } => Answer::Refused(Refusal::NoEdge { id }),
            ChangeFault::IndexThere => Answer::Refused(Refusal::IndexThere),
            ChangeFault::TooManyIndexes => Answer::Refused(Refusal::TooManyIndexes),
            ChangeFault::IndexTooLarge { count } => {
                Answer::Refused(Refusal::IndexTooLarge { count })
            }
            ChangeFault::Full { file, .. } => full_answer(file),
            ChangeFault::NamesFull { .. } => Answer::Refused(Refusal::FullNames),
            ChangeFault::PropsFull { .. } => Answer::Refused(Refusal::TooManyProperties),
            ChangeFault::Memory => Answer::Fault(Fault::Memory),
            ChangeFault::Disk => Answer::Fault(Fault::Disk),
            ChangeFault::HasRelationships { id, .. } => {
                Answer::Refused(Refusal::HasRelationships { id })
            }
            ChangeFault::Damaged(damage) => Answer::Fault(Fault::Damaged(damage)),
        }
    }
}

impl From<MutateFault> for Answer {
    ghost from_gives = { λ fault answer. answer ≡ answer_for_changes fault };

    ghost use Rattle.graph_session.specs.Drafting.{answer_for_changes};

    fn from(fault: MutateFault) -> Answer {
        match fault {
            MutateFault::Refused(fault) => Answer::from(fault),
            MutateFault::Damaged => Answer::Fault(Fault::Damaged(UNNAMED)),
        }
    }
}

// The answer where a file is full. A graph has no groups, and a store that keeps the rules has room
// for those that an edge needs: where it has none, a record breaks a rule.
fn full_answer(file: u8) -> Answer
    ensures { result ≡ full_answer file }
{
    if file == GROUPS {
        return Answer::Fault(Fault::Damaged(UNNAMED));
    }
    Answer::Refused(full_of(file))
}

// Which part of the graph has no room, by its file.
fn full_of(file: u8) -> Refusal
    ensures { result ≡ full_of file }
{
    match file {
        NODES => Refusal::FullNodes,
        RELATIONSHIPS => Refusal::FullEdges,
        PROPERTIES => Refusal::FullProperties,
        INDEX => Refusal::FullIndex,
        _ => Refusal::FullStrings,
    }
}
