ghost use Rattle.std.specs.Prelude.{◌≡◌, IfErr, OnOk};
ghost use Rattle.rec_bytes.specs.Format.{properties_file};
ghost use Rattle.rec_bytes.specs.Space.{after_get};
ghost use Rattle.store_rules.specs.Views.{rec_at};
ghost use Rattle.rec_bytes.specs.Fault.{HasFaultCause, NotDamaged};
ghost use Rattle.prop_store.specs.GivenOut.{IsGivenOut};
ghost use Rattle.prop_store.specs.PropertyRow.{HasContent, IsReadRow, IsRow, IsRowFault};
ghost use Rattle.prop_store.specs.Reading.{ReadsAtMost};

use crate::damaged::damaged;
use crate::form::{Form, form_of};
use crate::given_out::test_link;
use rec_bytes::{FREE, Fault, KIND, Key, PROPERTIES, PROPERTY_RULE, RANGE_RULE, Reads, Rec};

/// A property as its record says it.
#[derive(Clone, Copy)]
pub(crate) struct PropertyRow {
    /// Its identifier, which the record doesn't hold.
    pub id: u32,
    /// Its record.
    pub rec: Rec,
    /// What the record says of its value.
    pub form: Form,
}

impl PropertyRow {
    /// A row to read one into.
    pub(crate) const BLANK: PropertyRow = PropertyRow {
        id: 0,
        rec: Rec::ZEROS,
        form: Form::Truth(false),
    };
}

/// Reads the property of an element that a link of this record leads to into the caller's row, so
/// that its record is not copied. The record of the link is damaged where it leads past the mark,
/// the element where it leads to a record that is not in use, and the property where it is of no
/// known form.
pub(crate) fn property_at<R: Reads>(
    space: &mut R,
    element: Key,
    from: Key,
    id: u32,
    row: &mut PropertyRow,
) -> Result<(), Fault>
    ensures row { OnOk result (IsRow id row.new) }
    ensures got { R.tells → OnOk result
        (row.new.rec ≡ rec_at (R.state space.old).records properties_file id) }
    ensures not_damaged { R.tells → IsGivenOut (R.state space.old).records properties_file id
        → HasContent (rec_at (R.state space.old).records properties_file id)
        → NotDamaged result }
    ensures read { R.tells → OnOk result (IsReadRow (R.state space.old).records row.new) }
    ensures damaged { R.tells → IfErr result (IsRowFault (R.state space.old) element from id) }
    ensures state { OnOk result (R.state space.new ≡ after_get (R.state space.old)) }
    ensures at_most { ReadsAtMost 1 (R.state space.old) (R.state space.new) }
    ensures onward { R.onward space.old space.new }
    ensures cause { HasFaultCause (R.faults space.old) (R.faults space.new) result }
{
    test_link(space, from, PROPERTIES, id)?;
    let key = Key {
        file: PROPERTIES,
        id,
    };
    space.get_into(key, &mut row.rec)?;
    if row.rec.byte(KIND) == FREE {
        return Err(damaged(element.file, element.id, PROPERTY_RULE));
    }
    match form_of(&row.rec) {
        Some(form) => {
            row.id = id;
            row.form = form;
            Ok(())
        }
        None => Err(damaged(PROPERTIES, id, RANGE_RULE)),
    }
}
