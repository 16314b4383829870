use crate::call::Call;
use crate::edges_met::direction_in;
use crate::error::RowError;
use crate::spelling::{spell, spell_fault};
use path_find::{Answer, Levels, Walk, WalkSearch, check_levels, find_path};
use plain_graph::NodeLevel;
use rec_bytes::MapSpace;
use std::alloc::{AllocError, Global};

/// The calls of `path_find`, and those that spoil the answer at hand.
pub(crate) fn answer(
    alloc: Global,
    space: &mut MapSpace,
    found: &mut Answer,
    call: &Call,
) -> Result<String, RowError> {
    match call.verb {
        b"find_path" => find(alloc, space, found, call),
        b"check_levels" => check(alloc, space, found, call),
        b"without_last" => spoil(alloc, found, false),
        b"with_higher_last" => spoil(alloc, found, true),
        _ => Err(RowError::Malformed),
    }
}

/// No walk and no levels.
pub(crate) fn no_answer(alloc: Global) -> Result<Box<Answer>, AllocError> {
    let found = Box::new(
        alloc,
        Answer {
            walk: Walk::new(Vec::new(alloc)),
            levels: Levels::new(Vec::new(alloc)),
        },
    )?;
    Ok(found)
}

fn find(
    alloc: Global,
    space: &mut MapSpace,
    found: &mut Answer,
    call: &Call,
) -> Result<String, RowError> {
    let (from, to, direction) = (call.at(0), call.at(1), direction_in(call, 2));
    match find_path(alloc, space, from, to, direction, call.after(3)) {
        Ok(answer) => *found = answer,
        Err(fault) => return spell_fault(alloc, &fault),
    }
    spell_answer(alloc, found)
}

/// Spells the nodes of the walk, and each node of the levels with its level.
fn spell_answer(alloc: Global, found: &Answer) -> Result<String, RowError> {
    let mut text = spell(alloc, &found.walk.as_slice())?;
    for row in found.levels.as_slice() {
        write!(text, " {}:{}", row.node, row.level)?;
    }
    Ok(text)
}

fn check(
    alloc: Global,
    space: &mut MapSpace,
    found: &Answer,
    call: &Call,
) -> Result<String, RowError> {
    let sought = WalkSearch {
        from: call.at(0),
        to: call.at(1),
        direction: direction_in(call, 2),
        labels: call.after(3),
    };
    let passes = check_levels(alloc, space, &sought, found);
    spell(alloc, &passes)
}

fn spoil(alloc: Global, found: &mut Answer, higher: bool) -> Result<String, RowError> {
    *found = spoiled(alloc, found, higher)?;
    spell_answer(alloc, found)
}

/// The answer without its last level, or with that one higher.
fn spoiled(alloc: Global, answer: &Answer, higher: bool) -> Result<Answer, AllocError> {
    let walk = Vec::from_slice(alloc, answer.walk.as_slice())?;
    let mut levels = Vec::from_slice(alloc, answer.levels.as_slice())?;
    if let Some(last) = levels.pop() {
        if higher {
            levels.push(NodeLevel {
                node: last.node,
                level: last.level.saturating_add(1),
            })?;
        }
    }
    Ok(Answer {
        walk: Walk::new(walk),
        levels: Levels::new(levels),
    })
}
