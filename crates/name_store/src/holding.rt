ghost use Rattle.std.specs.Prelude.{◌≡◌, ◌≢◌};
ghost use Rattle.std.specs.Prelude.{Contains, Err, Some, length, slice_get};
ghost use Rattle.std.specs.Prelude.{IfErr, IfOk, OnErr, OnOk};
ghost use Rattle.plain_graph.specs.Graph.{UsesName};
ghost use Rattle.plain_graph.specs.Names.{IsShortName};
ghost use Rattle.rec_bytes.specs.Format.{most_names};
ghost use Rattle.name_store.specs.Interning.{IsFullFault};

use crate::{InternFault, Names};
use rec_bytes::MOST_NAMES;

impl Names {
    /// The number of a name in memory alone: one that is new goes after the others and gets no
    /// record. It is for the names of a line that is refused, where these are only counted.
    pub fn hold(&mut self, text: &[u8]) -> Result<u32, InternFault>
        requires { IsShortName text.now }
        ensures names { OnOk result (UsesName self.old.names text.now self.new.names) }
        ensures number { IfOk result (λ id. slice_get self.new.names id ≡ Some text.now) }
        ensures full { length self.old.names ≡ most_names → (¬ Contains self.old.names text.now)
            → result ≡ Err (InternFault.NamesFull most_names) }
        ensures full_only { IfErr result (IsFullFault self.old.names text.now) }
        ensures err { OnErr result (self.new.names ≡ self.old.names) }
        ensures not_disk { result ≢ Err InternFault.Disk }
    {
        if let Some(id) = self.find(text) {
            return Ok(id);
        }
        let id = self.count();
        if id == MOST_NAMES {
            return Err(InternFault::NamesFull { count: id });
        }
        let Ok(name) = self.reserve(text) else {
            return Err(InternFault::Memory);
        };
        self.push_reserved(name);
        Ok(id)
    }
}
