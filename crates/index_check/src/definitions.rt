//! The chain of definitions, no two of which may be of one label and key.

ghost use Rattle.std.specs.Prelude.{◌≡◌, ◌<◌, ◌≤◌, IfNone, IfOk, IfSome, List, length, map, ℕ};
ghost use Rattle.std.specs.List.{All, list_any};
ghost use Rattle.rec_bytes.specs.Format.{index_file, most_ids};
ghost use Rattle.rec_bytes.specs.Frame.{IsRead};
ghost use Rattle.rec_bytes.specs.Space.{HasCause};
ghost use Rattle.store_rules.specs.IndexBreaking.{AreDefinitions};
ghost use Rattle.store_rules.specs.Views.{high};
ghost use Rattle.index_check.specs.Definitions.{
  are_twins,
  definition_at,
  definition_line,
  twin_in,
};

use rec_bytes::{
    DEFINITION, DEFINITION_KEY, DEFINITION_LABEL, DEFINITION_NEXT, INDEX, KIND, Key,
    META_DEFINITION, MOST_INDEXES, Reads, Rec, SpaceFault, meta_key,
};
use record_lists::{Line, follow};
use std::alloc::Global;

/// A definition in use.
#[derive(Clone, Copy)]
pub(crate) struct Definition {
    pub(crate) id: u32,
    pub(crate) label: u32,
    pub(crate) key: u32,
}

/// The definitions, by their links.
#[derive(Drop)]
pub(crate) struct DefinitionLine {}

impl Line for DefinitionLine {
    ghost kind = { λ _. definition_line };

    fn file(&self) -> u8 {
        INDEX
    }

    fn next(&self, rec: &Rec) -> u32 {
        rec.number(DEFINITION_NEXT)
    }

    fn fits(&self, _before: u32, _at: u32, rec: &Rec) -> bool {
        rec.byte(KIND) == DEFINITION
    }
}

/// The definitions in the order of their chain, or none where a store may not have them so.
pub(crate) fn find_definitions<R: Reads>(
    alloc: Global,
    space: &mut R,
    records: u32,
) -> Result<Option<Vec<u32>>, SpaceFault>
    requires records { records ≡ high (R.state space.old).records index_file }
    requires low { records ≤ most_ids }
    ensures found { R.tells → IfOk result (λ found. IfSome found
        (λ ids. AreDefinitions (R.state space.old).records ids.items)) }
    ensures none { R.tells → IfOk result (λ found. IfNone found ((xs : List ℕ)
        → ¬ AreDefinitions (R.state space.old).records xs)) }
    ensures low { IfOk result (λ found. IfSome found (λ ids. All (λ x. x < records) ids.items)) }
    ensures few { IfOk result (λ found. IfSome found (λ ids. length ids.items ≤ 16)) }
    ensures read { IsRead R.Reads space.old space.new }
    ensures cause { HasCause (R.faults space.old) (R.faults space.new) result }
{
    let meta = space.get(meta_key(INDEX))?;
    let first = meta.number(META_DEFINITION);
    let Some(ids) = follow(alloc, space, &DefinitionLine {}, first, records)? else {
        return Ok(None);
    };
    if ids.len() > MOST_INDEXES {
        return Ok(None);
    }
    Ok(Some(ids))
}

/// Reads a definition.
fn read_definition<R: Reads>(space: &mut R, id: u32) -> Result<Definition, SpaceFault>
    requires { id < most_ids }
    ensures is { R.tells → IfOk result
        (λ definition. definition ≡ definition_at (R.state space.old).records id) }
    ensures id { IfOk result (λ definition. definition.id ≡ id) }
    ensures read { IsRead R.Reads space.old space.new }
    ensures cause { HasCause (R.faults space.old) (R.faults space.new) result }
{
    let rec = space.get(Key { file: INDEX, id })?;
    Ok(Definition {
        id,
        label: rec.number(DEFINITION_LABEL),
        key: rec.number(DEFINITION_KEY),
    })
}

/// Reads these definitions.
pub(crate) fn read_definitions<R: Reads>(
    alloc: Global,
    space: &mut R,
    ids: &[u32],
) -> Result<Vec<Definition>, SpaceFault>
    requires { All (λ x. x < most_ids) ids.now }
    ensures are { R.tells → IfOk result (λ definitions. definitions.items
        ≡ map (definition_at (R.state space.old).records) ids.now) }
    ensures ids { IfOk result (λ definitions. map (λ d. d.id) definitions.items ≡ ids.now) }
    ensures read { IsRead R.Reads space.old space.new }
    ensures cause { HasCause (R.faults space.old) (R.faults space.new) result }
{
    let mut definitions = Vec::new(alloc);
    for id in ids {
        let definition = read_definition(space, *id)?;
        let Ok(()) = definitions.push(definition) else {
            return Err(SpaceFault::Memory);
        };
    }
    Ok(definitions)
}

/// Whether two definitions are of one label and key.
fn are_twins(one: &Definition, other: &Definition) -> bool
    ensures { result ≡ are_twins one.now other.now }
{
    one.id != other.id && one.label == other.label && one.key == other.key
}

/// Whether one of these has the label and the key of another definition.
fn has_twin(definitions: &[Definition], one: &Definition) -> bool
    ensures { result ≡ list_any (are_twins one.now) definitions.now }
{
    definitions.iter().any(|other| are_twins(one, other))
}

/// The first definition whose label and key another one has too.
pub(crate) fn find_twin(definitions: &[Definition]) -> Option<u32>
    ensures { result ≡ twin_in definitions.now definitions.now }
{
    for definition in definitions {
        if has_twin(definitions, definition) {
            return Some(definition.id);
        }
    }
    None
}
