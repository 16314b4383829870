ghost use Rattle.std.specs.Prelude.{◌≡◌, ◌≤◌, ◌<◌, All, IfOk, IfSome, length};
ghost use Rattle.rec_bytes.specs.declared.shape.Shape.{Shape};
ghost use Rattle.store_rules.specs.Views.{Records};
ghost use Rattle.store_rules.specs.Breaking.{damage};
ghost use Rattle.rec_bytes.specs.declared.fault.Fault.TheVariants as faults;
ghost use Rattle.traversal_run.specs.Naming.{FindsName, FindsNames, name_at, name_count};
ghost use Rattle.traversal_run.specs.Reading.{IsNamedStore};

use crate::sought::Guess;
use name_store::Names;
use plain_graph::Text;
use rec_bytes::{Damage, Fault, NAMES, PROPERTY_RULE, Reads};
use std::alloc::{AllocError, Global};

/// The number of a text among the names of the store.
#[inline(always)]
pub(crate) fn number_of<R: Reads>(
    space: &R,
    names: &Names,
    guess: &Guess,
    text: &[u8],
) -> Option<u32>
    ensures finds { IsNamedStore (R.state space.now).records (R.state space.now).shape
        names.now.names
        → FindsName (R.state space.now).records result text.now }
    ensures below { IfSome result (λ number. number < name_count (R.state space.now).records) }
{
    let number = guess.find(names, text)?;
    if number < space.meta(NAMES).high.min(names.count()) {
        Some(number)
    } else {
        None
    }
}

/// The number of a text that is sought once.
pub(crate) fn text_number<R: Reads>(space: &R, names: &Names, text: &Text) -> Option<u32>
    ensures finds { IsNamedStore (R.state space.now).records (R.state space.now).shape
        names.now.names
        → FindsName (R.state space.now).records result text.now }
    ensures below { IfSome result (λ number. number < name_count (R.state space.now).records) }
{
    number_of(space, names, &Guess::new(), text.as_bytes())
}

/// The numbers of these texts, but for those that are no names of the store.
pub(crate) fn numbers_of<R: Reads>(
    alloc: Global,
    space: &R,
    names: &Names,
    texts: &[Text],
) -> Result<Vec<u32>, AllocError>
    ensures finds { IsNamedStore (R.state space.now).records (R.state space.now).shape
        names.now.names
        → IfOk result (λ numbers.
        FindsNames (R.state space.now).records numbers.items texts.now) }
    ensures below { IfOk result (λ numbers.
        All (λ number. number < name_count (R.state space.now).records) numbers.items) }
{
    let mut numbers = Vec::new(alloc);
    for text in texts {
        if let Some(number) = text_number(space, names, text) {
            numbers.push(number)?;
        }
    }
    Ok(numbers)
}

/// How many names the store has.
pub(crate) fn name_mark<R: Reads>(space: &R) -> u32
    ensures { result ≡ name_count (R.state space.now).records }
{
    space.meta(NAMES).high
}

/// The text of a number among the names that are kept, and an empty one past them.
pub(crate) fn text_of(names: &Names, number: u32) -> &[u8]
    ensures is { (records : Records) (shape : Shape) → IsNamedStore records shape names.now.names
        → number < name_count records → result.now ≡ name_at records number }
    ensures short { length result.now ≤ 48 }
{
    if number < names.count() {
        names.text(number)
    } else {
        &[]
    }
}

/// The element has a label, a type or a key that is no name.
pub(crate) fn unnamed(file: u8, id: u32) -> Fault
    ensures { result ≡ faults.Damaged (damage file id 5) }
{
    Fault::Damaged(Damage {
        file,
        id,
        rule: PROPERTY_RULE,
    })
}
