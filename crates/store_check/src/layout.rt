ghost use Rattle.std.specs.Prelude.{◌≡◌, ◌≤◌, ◌+◌, ◌*◌, false, map, true};
ghost use Rattle.std.specs.Bool.{Decides};
ghost use Rattle.std.specs.List.{list_all, list_any};
ghost use Rattle.rec_bytes.specs.RecordFiles.{is_meta_file};
ghost use Rattle.rec_bytes.specs.Record.{field};
ghost use Rattle.store_rules.specs.Ranges.{
  Fits,
  all_point,
  block_layout,
  definition_layout,
  entry_layout,
  free_layout,
  group_layout,
  heads_layout,
  index_layout,
  laid,
  name_layout,
  node_layout,
  pointers_from,
  property_layout,
  relationship_layout,
  used_layout,
};
ghost use Rattle.store_rules.specs.Views.{high};
ghost use Rattle.store_check.specs.Layouts.{HasLayoutOf, IsBlankBut, has_place, is_placed};
ghost use Rattle.store_check.specs.Layouts.{is_right_in};
ghost use Rattle.store_check.specs.Layouts.{pointer_like, pointer_of, range_of};

use rec_bytes::{
    BLOCK, BLOCK_LENGTH, BLOCK_NEXT, BLOCK_TEXT, BLOCK_TEXT_BYTES, BOOL, COUNTED, DEFINITION,
    DEFINITION_HEAD_COUNT, DEFINITION_HEADS, DEFINITION_LABEL, DEFINITION_NEXT, DENSE, FREE,
    FREE_NEXT, GROUP_FIRST_IN, GROUP_FIRST_LOOP, GROUP_FIRST_OUT, GROUP_NEXT, GROUP_OWNER,
    GROUP_PREVIOUS, GROUP_TYPE, GROUPED, GROUPS, HEADS, HEADS_COUNT, HEADS_FIRST, INDEX, INDEXED,
    INDEXED_NEXT, INDEXED_NODE, INDEXED_PREVIOUS, INT, KIND, MOST_TEXT_BYTES, NAME_LENGTH,
    NAME_TEXT, NAME_TEXT_BYTES, NAMED, NAMES, NIL, NODE_FIRST_LINK, NODE_FIRST_PROPERTY,
    NODE_LABEL, NODES, PROPERTIES, PROPERTY_FIRST_BLOCK, PROPERTY_KEY, PROPERTY_LENGTH,
    PROPERTY_NEXT, PROPERTY_NUMBER, PROPERTY_TEXT, PROPERTY_TEXT_BYTES, PROPERTY_TRUTH, RELATED,
    RELATIONSHIP_FIRST_PROPERTY, RELATIONSHIP_SOURCE, RELATIONSHIP_SOURCE_NEXT,
    RELATIONSHIP_SOURCE_PREVIOUS, RELATIONSHIP_TARGET, RELATIONSHIP_TARGET_NEXT,
    RELATIONSHIP_TARGET_PREVIOUS, RELATIONSHIP_TYPE, RELATIONSHIPS, Reads, Rec, SPARSE, STRINGS,
    TEXT_IN_BLOCKS, TEXT_INLINE,
};

/// A number of a record that names a record: its place, the file of that record, and whether it may
/// be none.
#[derive(Clone, Copy)]
pub(crate) struct Pointer {
    place: u8,
    into: u8,
    optional: bool,
}

impl Pointer {
    /// A number that names a record of the file, or none.
    fn may(place: u8, into: u8) -> Pointer
        ensures { result ≡ record { place = place; into = into; optional = true } }
    {
        Pointer {
            place,
            into,
            optional: true,
        }
    }

    /// A number that names a record of the file.
    fn must(place: u8, into: u8) -> Pointer
        ensures { result ≡ record { place = place; into = into; optional = false } }
    {
        Pointer {
            place,
            into,
            optional: false,
        }
    }

    /// Whether it is right in a record: below the mark of its file, or none where it may be.
    fn is_right<R: Reads>(&self, space: &R, rec: &Rec) -> bool
        requires { is_placed self.now ≡ true }
        ensures { result ≡ is_right_in (high (R.state space.now).records) rec.now self.now }
    {
        let number = rec.number(self.place);
        number < space.meta(self.into).high || self.optional && number == NIL
    }
}

/// So many bytes of a record from a place on.
#[derive(Clone, Copy)]
pub(crate) struct Range {
    at: u8,
    size: u8,
}

impl Range {
    fn of(at: u8, size: u8) -> Range
        ensures { result ≡ record { at = at; size = size } }
    {
        Range { at, size }
    }

    fn has(&self, place: u8) -> bool
        ensures { result ≡ has_place place self.now }
    {
        self.at <= place && (place as u16) < self.at as u16 + self.size as u16
    }
}

/// Whether all these are right in a record.
fn all_point<R: Reads>(space: &R, rec: &Rec, pointers: &[Pointer]) -> bool
    requires { list_all is_placed pointers.now ≡ true }
    ensures { result
        ≡ list_all (is_right_in (high (R.state space.now).records) rec.now) pointers.now }
{
    for pointer in pointers {
        if !pointer.is_right(space, rec) {
            return false;
        }
    }
    true
}

/// Whether a place is among the bytes in use.
fn is_used(place: u8, used: &[Range]) -> bool
    ensures { result ≡ list_any (has_place place) used.now }
{
    for range in used {
        if range.has(place) {
            return true;
        }
    }
    false
}

/// Whether the bytes that are not in use are zero.
fn is_blank_outside(rec: &Rec, used: &[Range]) -> bool
    ensures { Decides result (IsBlankBut used.now rec.now) }
{
    for place in 0..64 {
        if rec.byte(place) != 0 && !is_used(place, used) {
            return false;
        }
    }
    true
}

/// Whether so many numbers from this one on are right in a record.
fn all_from<R: Reads>(space: &R, rec: &Rec, first: Pointer, count: u8) -> bool
    requires place { first.place + 4 * count ≤ 64 }
    requires file { is_meta_file first.into ≡ true }
    ensures { result ≡ all_point (high (R.state space.now).records) rec.now
        (pointers_from count (pointer_like first) first.place) }
{
    for number in 0..count {
        let pointer = Pointer {
            place: first.place + 4 * number,
            ..first
        };
        if !pointer.is_right(space, rec) {
            return false;
        }
    }
    true
}

/// Whether these are right in a record, and the bytes that are not in use are zero.
fn is_laid<R: Reads>(space: &R, rec: &Rec, pointers: &[Pointer], used: &[Range]) -> bool
    requires { list_all is_placed pointers.now ≡ true }
    ensures { Decides result (HasLayoutOf (high (R.state space.now).records) rec.now
        (laid (map pointer_of pointers.now) (map range_of used.now))) }
{
    all_point(space, rec, pointers) && is_blank_outside(rec, used)
}

/// Whether a record is a free one of the file.
fn is_free<R: Reads>(space: &R, rec: &Rec, file: u8) -> bool
    requires { is_meta_file file ≡ true }
    ensures { Decides result
        (HasLayoutOf (high (R.state space.now).records) rec.now (free_layout file)) }
{
    is_laid(
        space,
        rec,
        &[Pointer::may(FREE_NEXT, file)],
        &[Range::of(FREE_NEXT, 4)],
    )
}

/// Whether a record is a node whose first link points into the file.
fn is_node<R: Reads>(space: &R, rec: &Rec, into: u8) -> bool
    requires { is_meta_file into ≡ true }
    ensures { Decides result
        (HasLayoutOf (high (R.state space.now).records) rec.now (node_layout into)) }
{
    is_laid(
        space,
        rec,
        &[
            Pointer::may(NODE_FIRST_LINK, into),
            Pointer::may(NODE_FIRST_PROPERTY, PROPERTIES),
        ],
        &[Range::of(KIND, 1), Range::of(NODE_LABEL, 16)],
    )
}

/// Whether a record is a relationship.
fn is_relationship<R: Reads>(space: &R, rec: &Rec) -> bool
    ensures { Decides result
        (HasLayoutOf (high (R.state space.now).records) rec.now relationship_layout) }
{
    is_laid(
        space,
        rec,
        &[
            Pointer::must(RELATIONSHIP_SOURCE, NODES),
            Pointer::must(RELATIONSHIP_TARGET, NODES),
            Pointer::may(RELATIONSHIP_SOURCE_PREVIOUS, RELATIONSHIPS),
            Pointer::may(RELATIONSHIP_SOURCE_NEXT, RELATIONSHIPS),
            Pointer::may(RELATIONSHIP_TARGET_PREVIOUS, RELATIONSHIPS),
            Pointer::may(RELATIONSHIP_TARGET_NEXT, RELATIONSHIPS),
            Pointer::may(RELATIONSHIP_FIRST_PROPERTY, PROPERTIES),
        ],
        &[Range::of(KIND, 1), Range::of(RELATIONSHIP_TYPE, 32)],
    )
}

/// Whether a record is a group, with so many bytes in use from its type on.
fn is_group<R: Reads>(space: &R, rec: &Rec, size: u8) -> bool
    ensures { Decides result
        (HasLayoutOf (high (R.state space.now).records) rec.now (group_layout size)) }
{
    is_laid(
        space,
        rec,
        &[
            Pointer::must(GROUP_OWNER, NODES),
            Pointer::may(GROUP_PREVIOUS, GROUPS),
            Pointer::may(GROUP_NEXT, GROUPS),
            Pointer::may(GROUP_FIRST_OUT, RELATIONSHIPS),
            Pointer::may(GROUP_FIRST_IN, RELATIONSHIPS),
            Pointer::may(GROUP_FIRST_LOOP, RELATIONSHIPS),
        ],
        &[Range::of(KIND, 1), Range::of(GROUP_TYPE, size)],
    )
}

/// Whether a record is a property.
fn is_property<R: Reads>(space: &R, rec: &Rec) -> bool
    ensures { Decides result (HasLayoutOf (high (R.state space.now).records) rec.now
        (property_layout rec.now (field 1 rec.now 0) (field 2 rec.now 2))) }
{
    let next = Pointer::may(PROPERTY_NEXT, PROPERTIES);
    let first = Pointer::may(PROPERTY_FIRST_BLOCK, STRINGS);
    let kind = Range::of(KIND, 1);
    let key = Range::of(PROPERTY_KEY, 8);
    let size = rec.short(PROPERTY_LENGTH);
    match rec.byte(KIND) {
        INT => {
            let number = Range::of(PROPERTY_NUMBER, 8);
            is_laid(space, rec, &[next], &[kind, key, number])
        }
        BOOL if rec.byte(PROPERTY_TRUTH) <= 1 => {
            let truth = Range::of(PROPERTY_TRUTH, 1);
            is_laid(space, rec, &[next], &[kind, key, truth])
        }
        TEXT_INLINE if size as usize <= PROPERTY_TEXT_BYTES => {
            let length = Range::of(PROPERTY_LENGTH, 10);
            let text = Range::of(PROPERTY_TEXT, size as u8);
            is_laid(space, rec, &[next], &[kind, length, text])
        }
        TEXT_IN_BLOCKS if size as usize > PROPERTY_TEXT_BYTES && size <= MOST_TEXT_BYTES => {
            let length = Range::of(PROPERTY_LENGTH, 14);
            is_laid(space, rec, &[next, first], &[kind, length])
        }
        _ => false,
    }
}

/// Whether a record is a block.
fn is_block<R: Reads>(space: &R, rec: &Rec) -> bool
    ensures { Decides result (HasLayoutOf (high (R.state space.now).records) rec.now
        (block_layout (field 1 rec.now 1))) }
{
    let size = rec.byte(BLOCK_LENGTH);
    size != 0
        && size as usize <= BLOCK_TEXT_BYTES
        && is_laid(
            space,
            rec,
            &[Pointer::may(BLOCK_NEXT, STRINGS)],
            &[
                Range::of(KIND, 2),
                Range::of(BLOCK_NEXT, 4),
                Range::of(BLOCK_TEXT, size),
            ],
        )
}

/// Whether a record is a name.
fn is_name<R: Reads>(space: &R, rec: &Rec) -> bool
    ensures { Decides result
        (HasLayoutOf (high (R.state space.now).records) rec.now (name_layout (field 1 rec.now 1))) }
{
    let size = rec.byte(NAME_LENGTH);
    size != 0
        && size as usize <= NAME_TEXT_BYTES
        && is_laid(
            space,
            rec,
            &[],
            &[Range::of(KIND, 2), Range::of(NAME_TEXT, size)],
        )
}

/// Whether a record is a definition of the index.
fn is_definition<R: Reads>(space: &R, rec: &Rec) -> bool
    ensures { Decides result
        (HasLayoutOf (high (R.state space.now).records) rec.now definition_layout) }
{
    let next = Pointer::may(DEFINITION_NEXT, INDEX);
    let heads = Pointer::must(DEFINITION_HEADS, INDEX);
    let used = [Range::of(KIND, 1), Range::of(DEFINITION_LABEL, 60)];
    is_laid(space, rec, &[next], &used) && all_from(space, rec, heads, DEFINITION_HEAD_COUNT)
}

/// Whether a record is one of heads of the index.
fn is_heads<R: Reads>(space: &R, rec: &Rec) -> bool
    ensures { Decides result
        (HasLayoutOf (high (R.state space.now).records) rec.now heads_layout) }
{
    let firsts = Pointer::may(HEADS_FIRST, INDEX);
    let used = [Range::of(KIND, 1), Range::of(HEADS_FIRST, 60)];
    is_laid(space, rec, &[], &used) && all_from(space, rec, firsts, HEADS_COUNT)
}

/// Whether a record is an entry of the index.
fn is_entry<R: Reads>(space: &R, rec: &Rec) -> bool
    ensures { Decides result
        (HasLayoutOf (high (R.state space.now).records) rec.now entry_layout) }
{
    is_laid(
        space,
        rec,
        &[
            Pointer::must(INDEXED_NODE, NODES),
            Pointer::may(INDEXED_PREVIOUS, INDEX),
            Pointer::may(INDEXED_NEXT, INDEX),
        ],
        &[Range::of(KIND, 1), Range::of(INDEXED_NODE, 20)],
    )
}

/// Whether a record is one in use of the index.
fn is_index_record<R: Reads>(space: &R, rec: &Rec) -> bool
    ensures { Decides result (HasLayoutOf (high (R.state space.now).records) rec.now
        (index_layout (field 1 rec.now 0))) }
{
    match rec.byte(KIND) {
        DEFINITION => is_definition(space, rec),
        HEADS => is_heads(space, rec),
        INDEXED => is_entry(space, rec),
        _ => false,
    }
}

/// Whether a record is in use, and of a kind of its file.
fn is_used_record<R: Reads>(space: &R, file: u8, rec: &Rec) -> bool
    ensures { Decides result (HasLayoutOf (high (R.state space.now).records) rec.now
        (used_layout file rec.now (field 1 rec.now 0))) }
{
    let kind = rec.byte(KIND);
    match file {
        NODES if kind == SPARSE => is_node(space, rec, RELATIONSHIPS),
        NODES => kind == DENSE && is_node(space, rec, GROUPS),
        RELATIONSHIPS => kind == RELATED && is_relationship(space, rec),
        GROUPS if kind == GROUPED => is_group(space, rec, 28),
        GROUPS => kind == COUNTED && is_group(space, rec, 40),
        PROPERTIES => is_property(space, rec),
        STRINGS => kind == BLOCK && is_block(space, rec),
        NAMES => kind == NAMED && is_name(space, rec),
        INDEX => is_index_record(space, rec),
        _ => false,
    }
}

/// Whether a record of the file is of a known kind, its numbers are ones that may stand there, and
/// its other bytes are zero.
pub(crate) fn fits<R: Reads>(space: &R, file: u8, rec: &Rec) -> bool
    requires { is_meta_file file ≡ true }
    ensures { Decides result (Fits (high (R.state space.now).records) file rec.now) }
{
    if rec.byte(KIND) == FREE {
        file != NAMES && is_free(space, rec, file)
    } else {
        is_used_record(space, file, rec)
    }
}
