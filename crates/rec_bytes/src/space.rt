//! Spaces of records: what is read of one and what is written to one, whatever holds the records.

ghost use Rattle.std.specs.Prelude.{
  ◌≡◌,
  ◌+◌,
  ◌≤◌,
  [],
  ◌∷◌,
  IfErr,
  IfOk,
  IsOk,
  OnErr,
  OnOk,
  length,
  true,
  ℕ,
};
ghost use Rattle.std.specs.Borrow.{sem};
ghost use Rattle.rec_bytes.specs.Key.{IsKey};
ghost use Rattle.rec_bytes.specs.Lending.{LendsRecord};
ghost use Rattle.rec_bytes.specs.Record.{field};
ghost use Rattle.rec_bytes.specs.RecordFiles.{is_meta_file, meta_key_of};
ghost use Rattle.rec_bytes.specs.Footprint.{Wrote};
ghost use Rattle.rec_bytes.specs.Shape.{is_allowed};
ghost use Rattle.rec_bytes.specs.Space.{
  HasCause,
  State,
  WritesOnly,
  after_get,
  after_meta,
  after_put,
  after_set,
  meta_of,
};

use crate::key::Key;
use crate::meta::Meta;
use crate::record::Rec;
use crate::record_files::meta_key;
use crate::shape::Shape;

/// Why a space refused a call.
#[derive(Clone, Copy, Debug, PartialEq, Eq)]
pub enum SpaceFault {
    /// There was no memory for another record.
    Memory,
    /// The disk failed.
    Disk,
}

/// A space that is read.
pub trait Reads {
    /// Holds where what is read is what the space stands for.
    ghost tells: { Type 0 };

    /// What the space stands for.
    ghost state: { Self → State };

    /// How often the disk has failed.
    ghost faults: { Self → ℕ };

    /// What calls of a space leave of what is beneath it.
    ghost onward: { Self → Self → Type 0 };

    /// The record at a key.
    fn get(&mut self, key: Key) -> Result<Rec, SpaceFault>
        requires { IsKey key }
        ensures got { tells → IfOk result (λ rec. rec ≡ (state self.old).records key) }
        ensures whole { IfOk result (λ rec. length rec.bytes ≡ 64) }
        ensures state { state self.new ≡ after_get (state self.old) }
        ensures refused { IfErr result (λ fault. fault ≡ SpaceFault.Disk) }
        ensures onward { onward self.old self.new }
        ensures cause { HasCause (faults self.old) (faults self.new) result };

    /// Reads the record at a key into the caller's, which an error leaves as it was. It costs less
    /// than `get`, whose result is copied in pieces.
    fn get_into(&mut self, key: Key, rec: &mut Rec) -> Result<(), SpaceFault>
        requires { IsKey key }
        ensures got { tells → OnOk result (rec.new ≡ (state self.old).records key) }
        ensures err { OnErr result (rec.new ≡ rec.old) }
        ensures state { state self.new ≡ after_get (state self.old) }
        ensures refused { IfErr result (λ fault. fault ≡ SpaceFault.Disk) }
        ensures onward { onward self.old self.new }
        ensures cause { HasCause (faults self.old) (faults self.new) result }
    {
        *rec = self.get(key)?;
        Ok(())
    }

    /// What the meta record of a file says. It is at hand, so it counts as no read.
    fn meta(&self, file: u8) -> Meta
        requires { is_meta_file file ≡ true }
        ensures { result ≡ meta_of (state self.now) file };

    /// The shape of the store.
    fn shape(&self) -> Shape
        ensures is { result ≡ (state self.now).shape }
        ensures allowed { is_allowed result ≡ true };

    /// Nothing was called.
    ghost stays_onward: { (a : Self) → onward a a };

    /// Further calls.
    ghost further_onward: { (a b c : Self) → onward a b → onward b c → onward a c };

    /// No call changes the shape.
    ghost onward_shape: { (a b : Self) → onward a b → (state b).shape ≡ (state a).shape };
}

/// A space that is written.
pub trait Space: Reads {
    /// Replaces a record.
    fn put(&mut self, key: Key, rec: Rec) -> Result<(), SpaceFault>
        requires { IsKey key }
        ensures ok { OnOk result (Self.state self.new ≡ after_put (Self.state self.old) key rec) }
        ensures err { OnErr result (Self.state self.new ≡ Self.state self.old) }
        ensures in_place { (Self.state self.old).written key ≡ true → IsOk result }
        ensures refused { IfErr result (λ fault. fault ≡ SpaceFault.Memory) }
        ensures onward { Self.onward self.old self.new }
        ensures cause { HasCause (Self.faults self.old) (Self.faults self.new) result };

    /// Reads a record and hands it out for writing in place.
    fn edit(&mut self, key: Key) -> Result<&mut Rec, SpaceFault>
        requires { IsKey key }
        ensures* lends { sem 𝓛 (LendsRecord Self.row Self.state Self.faults Self.onward
            self.entry key result) }
        ensures got { Self.tells
            → IfOk result (λ rec. rec.now ≡ (Self.state self.old).records key) };
}

/// Writes the number in the four bytes of a record from a place on.
#[tactic(auto, using(crate::proofs::Footprints::writing))]
pub fn set_number<S: Space>(space: &mut S, key: Key, at: u8, value: u32) -> Result<(), SpaceFault>
    requires key { IsKey key }
    requires place { at + 4 ≤ 64 }
    ensures ok { S.tells
        → OnOk result (S.state space.new ≡ after_set (S.state space.old) key 4 at value) }
    ensures got { OnOk result (field 4 ((S.state space.new).records key) at ≡ value) }
    ensures err { OnErr result (S.state space.new ≡ after_get (S.state space.old)) }
    ensures writes { WritesOnly (S.state space.old) (S.state space.new) (key ∷ []) }
    ensures wrote { Wrote (S.state space.old) (S.state space.new) (key ∷ []) [] 0 }
    ensures onward { S.onward space.old space.new }
    ensures cause { HasCause (S.faults space.old) (S.faults space.new) result }
{
    let rec = space.edit(key)?;
    rec.set_number(at, value);
    Ok(())
}

/// Writes the byte of a record at a place.
#[tactic(auto, using(crate::proofs::Footprints::writing))]
pub fn set_byte<S: Space>(space: &mut S, key: Key, at: u8, value: u8) -> Result<(), SpaceFault>
    requires key { IsKey key }
    requires place { at + 1 ≤ 64 }
    ensures ok { S.tells
        → OnOk result (S.state space.new ≡ after_set (S.state space.old) key 1 at value) }
    ensures got { OnOk result (field 1 ((S.state space.new).records key) at ≡ value) }
    ensures err { OnErr result (S.state space.new ≡ after_get (S.state space.old)) }
    ensures writes { WritesOnly (S.state space.old) (S.state space.new) (key ∷ []) }
    ensures wrote { Wrote (S.state space.old) (S.state space.new) (key ∷ []) [] 0 }
    ensures onward { S.onward space.old space.new }
    ensures cause { HasCause (S.faults space.old) (S.faults space.new) result }
{
    let rec = space.edit(key)?;
    rec.set_byte(at, value);
    Ok(())
}

/// Writes what the meta record of a file says.
#[tactic(auto, using(crate::proofs::Footprints::writing))]
pub fn change_meta<S: Space>(space: &mut S, file: u8, meta: Meta) -> Result<(), SpaceFault>
    requires { is_meta_file file ≡ true }
    ensures ok { S.tells
        → OnOk result (S.state space.new ≡ after_meta (S.state space.old) file meta) }
    ensures got { OnOk result (meta_of (S.state space.new) file ≡ meta) }
    ensures err { OnErr result (S.state space.new ≡ after_get (S.state space.old)) }
    ensures writes { WritesOnly (S.state space.old) (S.state space.new) (meta_key_of file ∷ []) }
    ensures wrote { Wrote (S.state space.old) (S.state space.new) (meta_key_of file ∷ []) [] 0 }
    ensures onward { S.onward space.old space.new }
    ensures cause { HasCause (S.faults space.old) (S.faults space.new) result }
{
    let rec = space.edit(meta_key(file))?;
    meta.write(rec);
    Ok(())
}
