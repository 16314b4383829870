use crate::mutation::put_mutation;
use crate::query::put_query;
use crate::text::{put, put_number, put_value, word_of};
use plain_graph::{Command, Direction, Pairs, Target, Text};
use std::alloc::AllocError;

/// Writes the command as a line spells it, with one blank between two parts.
pub(crate) fn put_command(out: &mut Vec<u8>, command: &Command) -> Result<(), AllocError> {
    match command {
        Command::Blank => put(out, &[b"blank"]),
        Command::Begin => put(out, &[b"begin"]),
        Command::Commit => put(out, &[b"commit"]),
        Command::Rollback => put(out, &[b"rollback"]),
        Command::Checkpoint => put(out, &[b"checkpoint"]),
        Command::Check => put(out, &[b"check"]),
        Command::Stats => put(out, &[b"stats"]),
        Command::Reopen => put(out, &[b"reopen"]),
        Command::Snapshot => put(out, &[b"snapshot"]),
        Command::Release => put(out, &[b"release"]),
        Command::Quit => put(out, &[b"quit"]),
        Command::Node { label, pairs } => {
            put(out, &[b"node ", label.as_bytes()])?;
            put_pairs(out, pairs)
        }
        Command::Edge {
            from,
            label,
            to,
            pairs,
        } => {
            put_number(out, b"edge ", *from)?;
            put(out, &[b" ", label.as_bytes()])?;
            put_number(out, b" ", *to)?;
            put_pairs(out, pairs)
        }
        Command::Set { target, key, value } => {
            put_target(out, b"set ", *target)?;
            put(out, &[b" ", key.as_bytes(), b" "])?;
            put_value(out, value)
        }
        Command::Unset { target, key } => {
            put_target(out, b"unset ", *target)?;
            put(out, &[b" ", key.as_bytes()])
        }
        Command::Delete(target) => put_target(out, b"delete ", *target),
        Command::Index { label, key } => put_pair(out, b"index ", label, key),
        Command::Find { label, key, value } => {
            put_pair(out, b"find ", label, key)?;
            put(out, &[b" "])?;
            put_value(out, value)
        }
        Command::Expand { .. }
        | Command::Degree { .. }
        | Command::Path { .. }
        | Command::Levels { .. } => put_question(out, command),
        Command::View(target) => put_target(out, b"view ", *target),
        Command::ViewNames => put(out, &[b"view names"]),
        Command::ViewIndexes => put(out, &[b"view indexes"]),
        Command::Query(query) => put_query(out, query),
        Command::Mutate { reading, mutation } => put_mutation(out, reading, mutation),
    }
}

/// Writes a word, a label and a key.
fn put_pair(out: &mut Vec<u8>, word: &[u8], label: &Text, key: &Text) -> Result<(), AllocError> {
    put(out, &[word, label.as_bytes(), b" ", key.as_bytes()])
}

/// Writes a command that reads along edges of a direction.
fn put_question(out: &mut Vec<u8>, command: &Command) -> Result<(), AllocError> {
    match command {
        Command::Expand {
            id,
            direction,
            label,
        } => {
            put_number(out, b"expand ", *id)?;
            put(out, &[b" ", word_of(*direction)])?;
            put(out, &[b" ", label.as_bytes()])
        }
        Command::Degree {
            id,
            direction,
            label,
        } => {
            put_number(out, b"degree ", *id)?;
            put_way(out, *direction, label)
        }
        Command::Path {
            from,
            to,
            direction,
            label,
        } => {
            put_number(out, b"path ", *from)?;
            put_number(out, b" ", *to)?;
            put_way(out, *direction, label)
        }
        Command::Levels {
            from,
            to,
            direction,
            label,
        } => {
            put_number(out, b"levels ", *from)?;
            put_number(out, b" ", *to)?;
            put_way(out, *direction, label)
        }
        _ => Ok(()),
    }
}

/// Writes the direction and the name, if there is one, each after a blank.
fn put_way(
    out: &mut Vec<u8>,
    direction: Direction,
    label: &Option<Text>,
) -> Result<(), AllocError> {
    put(out, &[b" ", word_of(direction)])?;
    match label {
        Some(name) => put(out, &[b" ", name.as_bytes()]),
        None => Ok(()),
    }
}

/// Writes the pairs, each after a blank.
fn put_pairs(out: &mut Vec<u8>, pairs: &Pairs) -> Result<(), AllocError> {
    for pair in pairs.as_slice() {
        put(out, &[b" ", pair.key.as_bytes(), b"="])?;
        put_value(out, &pair.value)?;
    }
    Ok(())
}

/// Writes a word and the element.
fn put_target(out: &mut Vec<u8>, word: &[u8], target: Target) -> Result<(), AllocError> {
    out.extend_from_slice(word)?;
    match target {
        Target::Node(id) => put_number(out, b"node ", id),
        Target::Edge(id) => put_number(out, b"edge ", id),
    }
}
