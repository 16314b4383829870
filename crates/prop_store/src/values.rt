//! The value of a property, and its blocks.

ghost use Rattle.std.specs.Prelude.{◌≡◌, ℕ, List, IfErr, IfOk};
ghost use Rattle.plain_graph.specs.Forms.{IsKept};
ghost use Rattle.plain_graph.specs.Properties.{blocks_of};
ghost use Rattle.plain_graph.specs.declared.value.Value.{Value as StoredValue};
ghost use Rattle.rec_bytes.specs.Format.{strings_file};
ghost use Rattle.store_rules.specs.Properties.{content_of, value_from};
ghost use Rattle.store_rules.specs.Views.{rec_at};
ghost use Rattle.rec_bytes.specs.Fault.{HasFaultCause, NotDamaged};
ghost use Rattle.prop_store.specs.Blocks.{AreUsedOnce, HasBlocks, IsTextFault};
ghost use Rattle.prop_store.specs.GivenOut.{AreGivenOut};
ghost use Rattle.prop_store.specs.PropertyRow.{HasValue, IsReadRow, IsRow};
ghost use Rattle.prop_store.specs.Reading.{ReadsAtMost};

use crate::block_list::BlockList;
use crate::blocks::{block_ids, read_text};
use crate::form::Form;
use crate::property_row::PropertyRow;
use plain_graph::{Text, Value};
use rec_bytes::{Fault, PROPERTY_TEXT, Reads};
use std::alloc::Global;

/// Reads the value of a property.
pub(crate) fn read_value<R: Reads>(
    alloc: Global,
    space: &mut R,
    row: &PropertyRow,
) -> Result<Value, Fault>
    requires { IsRow row.now.id row.now }
    ensures met { R.tells → IfOk result (λ value. value
        ≡ value_from (rec_at (R.state space.old).records strings_file) (content_of row.now.rec)) }
    ensures not_damaged { R.tells → (value : StoredValue) (blocks : List ℕ)
        → HasValue (rec_at (R.state space.old).records strings_file) row.now.rec value blocks
        → AreGivenOut (R.state space.old).records strings_file blocks → NotDamaged result }
    ensures kept { IfOk result IsKept }
    ensures damaged { R.tells → IsReadRow (R.state space.old).records row.now
        → IfErr result (IsTextFault (R.state space.old) row.now.id) }
    ensures reads { IfOk result
        (λ value. ReadsAtMost (blocks_of value) (R.state space.old) (R.state space.new)) }
    ensures at_most { ReadsAtMost 22 (R.state space.old) (R.state space.new) }
    ensures onward { R.onward space.old space.new }
    ensures cause { HasFaultCause (R.faults space.old) (R.faults space.new) result }
{
    match row.form {
        Form::Number(number) => Ok(Value::Int(number)),
        Form::Truth(truth) => Ok(Value::Bool(truth)),
        Form::Inline(size) => {
            let bytes = Vec::from_slice(alloc, row.rec.text(PROPERTY_TEXT, size))?;
            Ok(Value::Text(Text::new(bytes)))
        }
        Form::Long { size, first } => {
            let bytes = read_text(alloc, space, row.id, first, size)?;
            Ok(Value::Text(Text::new(bytes)))
        }
    }
}

/// The blocks of a property's value, which are not read but for what they lead to.
pub(crate) fn value_blocks<R: Reads>(space: &mut R, row: &PropertyRow) -> Result<BlockList, Fault>
    requires { IsRow row.now.id row.now }
    ensures followed { R.tells → (value : StoredValue) (blocks : List ℕ)
        → HasValue (rec_at (R.state space.old).records strings_file) row.now.rec value blocks
        → IfOk result (λ ids. ids ≡ blocks) }
    ensures not_damaged { R.tells → (value : StoredValue) (blocks : List ℕ)
        → HasValue (rec_at (R.state space.old).records strings_file) row.now.rec value blocks
        → AreGivenOut (R.state space.old).records strings_file blocks → NotDamaged result }
    ensures has { R.tells → IsReadRow (R.state space.old).records row.now
        → IfOk result (HasBlocks (R.state space.old).records row.now.id) }
    ensures once { R.tells → IfOk result (AreUsedOnce (R.state space.old).records) }
    ensures damaged { R.tells → IsReadRow (R.state space.old).records row.now
        → IfErr result (IsTextFault (R.state space.old) row.now.id) }
    ensures at_most { ReadsAtMost 22 (R.state space.old) (R.state space.new) }
    ensures onward { R.onward space.old space.new }
    ensures cause { HasFaultCause (R.faults space.old) (R.faults space.new) result }
{
    match row.form {
        Form::Long { size, first } => block_ids(space, row.id, first, size),
        _ => Ok(BlockList::new()),
    }
}
