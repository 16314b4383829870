ghost use Rattle.std.specs.Prelude.{◌≡◌, ◌≢◌, ◌≤◌, ◌<◌, ℕ, ◌∷◌, []};
ghost use Rattle.std.specs.Prelude.{Contains, Some, length, slice_get};
ghost use Rattle.std.specs.Prelude.{Err, IfErr, IfOk, IsOk, OnErr, OnOk};
ghost use Rattle.plain_graph.specs.Graph.{UsesName};
ghost use Rattle.plain_graph.specs.Names.{IsShortName};
ghost use Rattle.rec_bytes.specs.Format.{most_names, name_text_bytes, names_file};
ghost use Rattle.rec_bytes.specs.RecordFiles.{meta_key_of};
ghost use Rattle.rec_bytes.specs.Space.{WritesOnly};
ghost use Rattle.store_rules.specs.Graph.{names_of};
ghost use Rattle.store_rules.specs.Rules.{AreAllLive};
ghost use Rattle.name_store.specs.InternFault.{HasInternCause};
ghost use Rattle.name_store.specs.Interning.{IsFullFault, interned, named};
ghost use Rattle.name_store.specs.NameRecord.{name_key};

use crate::name_record::name_record;
use crate::{InternFault, Names};
use rec_bytes::{Key, MOST_NAMES, Meta, NAMES, Space, change_meta};

impl Names {
    /// The number of a name. One that is new goes after the others and gets a record in the space.
    /// Where that fails the names stay, and the space may have changed in part. The names take
    /// their memory before the first write.
    pub fn intern<S: Space>(&mut self, space: &mut S, text: &[u8]) -> Result<u32, InternFault>
        requires { IsShortName text.now }
        ensures ok { S.tells → OnOk result
            (S.state space.new ≡ interned (S.state space.old) self.old.names text.now) }
        ensures names { OnOk result (UsesName self.old.names text.now self.new.names) }
        ensures number { IfOk result (λ id. slice_get self.new.names id ≡ Some text.now) }
        ensures known { Contains self.old.names text.now
            → IsOk result × (S.state space.new ≡ S.state space.old) }
        ensures full { length self.old.names ≡ most_names → (¬ Contains self.old.names text.now)
            → (result ≡ Err (InternFault.NamesFull most_names))
            × (S.state space.new ≡ S.state space.old) }
        ensures full_only { IfErr result (IsFullFault self.old.names text.now) }
        ensures err { OnErr result (self.new.names ≡ self.old.names) }
        ensures named { S.tells → OnOk result
            (self.old.names ≡ names_of (S.state space.old).records
            → self.new.names ≡ names_of (S.state space.new).records) }
        ensures live { S.tells → OnOk result
            (AreAllLive (S.state space.old).records names_file
            → AreAllLive (S.state space.new).records names_file) }
        ensures writes { WritesOnly (S.state space.old) (S.state space.new)
            (name_key (length self.old.names) ∷ meta_key_of names_file ∷ []) }
        ensures onward { S.onward space.old space.new }
        ensures cause { HasInternCause (S.faults space.old) (S.faults space.new) result }
    {
        if let Some(id) = self.find(text) {
            return Ok(id);
        }
        let id = self.count();
        if id == MOST_NAMES {
            return Err(InternFault::NamesFull { count: id });
        }
        let Ok(name) = self.reserve(text) else {
            return Err(InternFault::Memory);
        };
        write_name(space, id, text)?;
        self.push_reserved(name);
        Ok(id)
    }
}

/// Writes the record of a new name and counts it.
#[tactic(auto, unfolding(crate::specs::Interning::named))]
fn write_name<S: Space>(space: &mut S, id: u32, text: &[u8]) -> Result<(), InternFault>
    requires few { id < most_names }
    requires short { length text.now ≤ name_text_bytes }
    ensures ok { S.tells → OnOk result
        (S.state space.new ≡ named (S.state space.old) id text.now) }
    ensures not_full { (count : ℕ) → result ≢ Err (InternFault.NamesFull count) }
    ensures writes { WritesOnly (S.state space.old) (S.state space.new)
        (name_key id ∷ meta_key_of names_file ∷ []) }
    ensures onward { S.onward space.old space.new }
    ensures cause { HasInternCause (S.faults space.old) (S.faults space.new) result }
{
    space.put(Key { file: NAMES, id }, name_record(text))?;
    let meta = space.meta(NAMES);
    let counted = Meta {
        high: meta.high.saturating_add(1),
        free: meta.free,
        live: meta.live.saturating_add(1),
    };
    change_meta(space, NAMES, counted)?;
    Ok(())
}
