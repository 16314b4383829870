//! The fifth rule of nodes and relationships: their properties, and their labels.

ghost use Rattle.std.specs.Prelude.{◌≡◌, ◌<◌, ◌≤◌, IfNone, IfOk, IfSome, List, false, length};
ghost use Rattle.std.specs.Prelude.{true, ℕ};
ghost use Rattle.std.specs.Bool.{Decides};
ghost use Rattle.std.specs.List.{All, list_all};
ghost use Rattle.rec_bytes.specs.Format.{most_ids, properties_file};
ghost use Rattle.rec_bytes.specs.Frame.{IsRead};
ghost use Rattle.rec_bytes.specs.Space.{HasCause};
ghost use Rattle.store_rules.specs.PropertyChange.{property_place};
ghost use Rattle.store_rules.specs.Views.{high};
ghost use Rattle.store_rules.specs.Breaking.{IsPropertyList, is_element_file};
ghost use Rattle.store_check.specs.Holding.{AreElementsRight};
ghost use Rattle.store_check.specs.Listing.{AreListed, IsUnlisted};
ghost use Rattle.record_lists.specs.Seen.{is_seen};
ghost use Rattle.record_lists.specs.Deciding.{AreMarksLow, BreaksRule};
ghost use Rattle.store_check.specs.Elements.{
  AreElements,
  AreItsProperties,
  AreKeys,
  HasName,
  IsInUse,
  IsOnElements,
  is_below,
};

use rec_bytes::{
    Damage, FREE, KIND, Key, MOST_PROPERTIES, NAMES, NODE_FIRST_PROPERTY, NODE_LABEL, NODES,
    PROPERTIES, PROPERTY_KEY, PROPERTY_NEXT, PROPERTY_RULE, RELATIONSHIP_FIRST_PROPERTY,
    RELATIONSHIPS, Reads, SpaceFault,
};
use record_lists::{
    Broke, Found, Heads, LiveLine, Sentence, are_distinct, broken, find_false, find_unseen, follow,
    list_heads, none_seen, numbers_of,
};
use std::alloc::Global;

/// Whether these are all below a mark.
fn are_below(numbers: &[u32], mark: u32) -> bool
    ensures { result ≡ list_all (is_below mark) numbers.now }
{
    for number in numbers {
        if *number >= mark {
            return false;
        }
    }
    true
}

/// Whether these are numbers of so many names, none of them twice. It sorts them.
fn are_keys(keys: &mut [u32], names: u32) -> bool
    ensures { Decides result (AreKeys names keys.old) }
{
    are_below(keys, names) && are_distinct(keys)
}

/// The properties from one on, or none where they are not as an element may have them.
fn property_list<R: Reads>(
    alloc: Global,
    space: &mut R,
    first: u32,
    mark: u32,
) -> Result<Option<Vec<u32>>, SpaceFault>
    requires mark { mark ≡ high (R.state space.old).records properties_file }
    requires low { mark ≤ most_ids }
    ensures found { R.tells → IfOk result (λ found. IfSome found
        (λ ids. IsPropertyList (R.state space.old).records first ids.items)) }
    ensures none { R.tells → IfOk result (λ found. IfNone found ((xs : List ℕ)
        → ¬ IsPropertyList (R.state space.old).records first xs)) }
    ensures low { IfOk result (λ found. IfSome found (λ ids. All (λ x. x < mark) ids.items)) }
    ensures read { IsRead R.Reads space.old space.new }
    ensures cause { HasCause (R.faults space.old) (R.faults space.new) result }
{
    let line = LiveLine::new(PROPERTIES, PROPERTY_NEXT);
    let Some(ids) = follow(alloc, space, &line, first, mark)? else {
        return Ok(None);
    };
    if ids.len() > MOST_PROPERTIES as usize {
        return Ok(None);
    }
    let mut keys = numbers_of(alloc, space, PROPERTIES, PROPERTY_KEY, &ids)?;
    if !are_keys(&mut keys, space.meta(NAMES).high) {
        return Ok(None);
    }
    Ok(Some(ids))
}

/// The nodes, or the relationships, at which lists of properties start.
#[derive(Drop)]
pub struct ElementHeads {
    pub(crate) file: u8,
    pub(crate) elements: u32,
    pub(crate) properties: u32,
}

impl Heads for ElementHeads {
    ghost has = { IsInUse };

    ghost lists = { AreItsProperties };

    ghost suits = { AreElements };

    ghost count = { λ heads. heads.elements };

    ghost bound = { λ heads. heads.properties };

    fn list<R: Reads>(&self, alloc: Global, space: &mut R, id: u32) -> Result<Found, SpaceFault> {
        let rec = space.get(Key {
            file: self.file,
            id,
        })?;
        if rec.byte(KIND) == FREE {
            return Ok(Found::Nothing);
        }
        let first = rec.number(property_place(self.file));
        match property_list(alloc, space, first, self.properties)? {
            Some(ids) => Ok(Found::Items(ids)),
            None => Ok(Found::Missing),
        }
    }
}

/// The place of an element's first property in its record.
fn property_place(file: u8) -> u8
    ensures is { result ≡ property_place file }
    ensures low { result ≤ 32 }
{
    if file == NODES {
        NODE_FIRST_PROPERTY
    } else {
        RELATIONSHIP_FIRST_PROPERTY
    }
}

/// The label of an element in use is a name.
#[derive(Drop)]
pub struct Named {
    pub(crate) file: u8,
    pub(crate) elements: u32,
}

impl Sentence for Named {
    ghost suits = { IsOnElements };

    ghost count = { λ sentence. sentence.elements };

    ghost says = { HasName };

    fn holds<R: Reads>(&self, space: &mut R, id: u32) -> Result<bool, SpaceFault> {
        let rec = space.get(Key {
            file: self.file,
            id,
        })?;
        Ok(rec.byte(KIND) == FREE || rec.number(NODE_LABEL) < space.meta(NAMES).high)
    }
}

/// Finds a node or a relationship whose properties or whose label are wrong, or a property that two
/// of them have. Where there is none, just the properties of elements are seen.
fn check_file<R: Reads>(
    alloc: Global,
    space: &mut R,
    file: u8,
    seen: &mut [bool],
) -> Result<Option<Damage>, SpaceFault>
    requires file { is_element_file file ≡ true }
    requires low { AreMarksLow (R.state space.old).records }
    requires seen { length seen.old ≡ high (R.state space.old).records properties_file }
    ensures none { R.tells → IfOk result (λ found. IfNone found
        (AreListed (R.state space.old).records file seen.old seen.new)) }
    ensures found { R.tells → IfOk result (λ found. IfSome found
        (IsUnlisted (R.state space.old).records file seen.old)) }
    ensures len { length seen.new ≡ length seen.old }
    ensures read { IsRead R.Reads space.old space.new }
    ensures cause { HasCause (R.faults space.old) (R.faults space.new) result }
{
    let elements = space.meta(file).high;
    let properties = space.meta(PROPERTIES).high;
    let heads = ElementHeads {
        file,
        elements,
        properties,
    };
    match list_heads(alloc, space, &heads, elements, seen)? {
        Some(Broke::Head(id)) => return Ok(Some(broken(file, id, PROPERTY_RULE))),
        Some(Broke::Item(id)) => return Ok(Some(broken(PROPERTIES, id, PROPERTY_RULE))),
        None => {}
    }
    match find_false(space, &Named { file, elements }, elements)? {
        Some(id) => Ok(Some(broken(file, id, PROPERTY_RULE))),
        None => Ok(None),
    }
}

/// Finds what breaks the fifth rule of elements and of properties, with a bit for each property,
/// none of them seen.
fn check_seen<R: Reads>(
    alloc: Global,
    space: &mut R,
    seen: &mut [bool],
) -> Result<Option<Damage>, SpaceFault>
    requires low { AreMarksLow (R.state space.old).records }
    requires seen { length seen.old ≡ high (R.state space.old).records properties_file }
    requires clear { (p : ℕ) → is_seen seen.old p ≡ false }
    ensures none { R.tells → IfOk result (λ found. IfNone found
        (AreElementsRight (R.state space.old).records)) }
    ensures found { R.tells → IfOk result (λ found. IfSome found
        (BreaksRule (R.state space.old).records (R.state space.old).shape 5)) }
    ensures read { IsRead R.Reads space.old space.new }
    ensures cause { HasCause (R.faults space.old) (R.faults space.new) result }
{
    if let Some(damage) = check_file(alloc, space, NODES, seen)? {
        return Ok(Some(damage));
    }
    if let Some(damage) = check_file(alloc, space, RELATIONSHIPS, seen)? {
        return Ok(Some(damage));
    }
    match find_unseen(space, PROPERTIES, seen)? {
        Some(id) => Ok(Some(broken(PROPERTIES, id, PROPERTY_RULE))),
        None => Ok(None),
    }
}

/// Finds what breaks the fifth rule of elements and of properties.
pub(crate) fn check_elements<R: Reads>(
    alloc: Global,
    space: &mut R,
) -> Result<Option<Damage>, SpaceFault>
    requires { AreMarksLow (R.state space.old).records }
    ensures none { R.tells → IfOk result (λ found. IfNone found
        (AreElementsRight (R.state space.old).records)) }
    ensures found { R.tells → IfOk result (λ found. IfSome found
        (BreaksRule (R.state space.old).records (R.state space.old).shape 5)) }
    ensures read { IsRead R.Reads space.old space.new }
    ensures cause { HasCause (R.faults space.old) (R.faults space.new) result }
{
    let Ok(mut seen) = none_seen(alloc, space.meta(PROPERTIES).high as usize) else {
        return Err(SpaceFault::Memory);
    };
    check_seen(alloc, space, &mut seen)
}
