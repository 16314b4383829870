ghost use Rattle.std.specs.Prelude.{◌≡◌, ◌≤◌, ◌<◌, ◌+◌, ◌++◌, ◌∷◌, [], OnOk, Some, length};
ghost use Rattle.std.specs.List.{slice_get};
ghost use Rattle.follower.specs.Shipment.{most_shipped};
ghost use Rattle.follower.specs.Shipping.{shipment_bytes};

use follower::write_shipment;
use rec_bytes::WriteSet;
use std::alloc::{AllocError, Global};
use std::marker::Model;

/// The shipments of a sender, in the order of their numbers, the first with the number 1. Contracts
/// see their bytes.
#[derive(Drop)]
pub(crate) struct Shipments {
    all: Vec<Vec<u8>>,
}

impl Model for Shipments {
    ghost use Rattle.std.specs.Prelude.{List, ℕ};
    ghost use Rattle.graph_console.specs.Following.{bytes_of};

    ghost Value = { List (List ℕ) };

    ghost view = { λ s. bytes_of s.all.items };
}

impl Shipments {
    /// None.
    pub(crate) fn new(alloc: Global) -> Shipments
        ensures { result ≡ [] }
    {
        Shipments {
            all: Vec::new(alloc),
        }
    }

    /// How many there are.
    pub(crate) fn len(&self) -> usize
        ensures { result ≡ length self.now }
    {
        self.all.len()
    }

    /// The one at this index, from 0.
    pub(crate) fn at(&self, index: usize) -> &[u8]
        requires { index < length self.now }
        ensures { slice_get self.now index ≡ Some result.now }
    {
        &self.all[index]
    }

    /// Makes one more, of these records.
    pub(crate) fn add(&mut self, alloc: Global, records: &WriteSet) -> Result<(), AllocError>
        requires { length records.now.pairs ≤ most_shipped }
        ensures { OnOk result (self.new
            ≡ self.old ++ shipment_bytes (length self.old + 1) records.now.pairs ∷ []) }
    {
        let number = self.all.len() as u64 + 1;
        let mut bytes = Vec::new(alloc);
        write_shipment(number, records, &mut bytes)?;
        self.all.push(bytes)?;
        Ok(())
    }
}
