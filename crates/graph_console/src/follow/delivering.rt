ghost use Rattle.std.specs.Prelude.{◌≡◌, ◌≤◌, ◌<◌, ◌+◌, ◌*◌, ℕ, IfOk, List, OnOk, Some, length};
ghost use Rattle.std.specs.Prelude.{true};
ghost use Rattle.std.specs.List.{slice_get};
ghost use Rattle.rec_bytes.specs.Shape.{is_allowed};
ghost use Rattle.rec_bytes.specs.declared.shape.Shape.{Shape};
ghost use Rattle.txn_core.specs.Config.{shape_of};
ghost use Rattle.follower.specs.Sent.{IsSent};
ghost use Rattle.follower.specs.Viewing.{HaveSameDisk, view};
ghost use Rattle.graph_console.specs.Follow.{all_delivered, deliver, deliver_drawn, deliver_first};
ghost use Rattle.graph_console.specs.Follow.{none_delivered};
ghost use Rattle.graph_console.specs.Following.{HasTaken, TakesAll, count_delivered};

use crate::follow::delivered::Delivered;
use crate::follow::shipments::Shipments;
use crate::sample::generator::Generator;
use disk_model::Disk;
use follower::{Accept, Follower};
use std::alloc::{AllocError, Global};
use txn_core::{Config, NotOpened};

/// How many deliveries are drawn for each shipment.
const ROUNDS: usize = 4;

/// Makes a follower on the disk, and delivers the shipments to it.
pub(crate) fn deliver_all<D: Disk>(
    alloc: Global,
    config: Config,
    generator: &mut Generator,
    shipments: &Shipments,
    disk: &mut D,
) -> Result<Delivered, AllocError>
    requires allowed { is_allowed (shape_of config) ≡ true }
    requires few { length shipments.now ≤ 2000 }
    ensures { IfOk result (TakesAll D.Disk (shape_of config) shipments.now generator.old
        disk.old disk.new) }
{
    match Follower::open(alloc, disk, config) {
        Ok(mut follower) => {
            let delivered = deliver_each(&mut follower, generator, shipments);
            let _ = follower.close();
            delivered
        }
        Err(
            NotOpened {
                why: _why,
                disk: _handed_back,
            },
        ) => Err(AllocError),
    }
}

/// Delivers shipments to a follower: some that are drawn, and then each once.
fn deliver_each<D: Disk>(
    follower: &mut Follower<'_, D>,
    generator: &mut Generator,
    shipments: &Shipments,
) -> Result<Delivered, AllocError>
    requires live { (view follower.old).live ≡ true }
    requires few { length shipments.now ≤ 2000 }
    ensures delivers { D.tells_reads → (shape : Shape) → IsSent shape shipments.now
        → HasTaken D.Disk shape shipments.now none_delivered (view follower.old)
        → IfOk result (λ delivered.
        (delivered ≡ all_delivered (length shipments.now) generator.old)
        × HasTaken D.Disk shape shipments.now delivered (view follower.new)) }
    ensures same_disk { HaveSameDisk follower.old follower.new }
{
    let drawn = deliver_drawn(follower, generator, shipments)?;
    deliver_first(follower, shipments, drawn)
}

/// Delivers shipments that are drawn.
fn deliver_drawn<D: Disk>(
    follower: &mut Follower<'_, D>,
    generator: &mut Generator,
    shipments: &Shipments,
) -> Result<Delivered, AllocError>
    requires live { (view follower.old).live ≡ true }
    requires few { length shipments.now ≤ 2000 }
    ensures live { OnOk result ((view follower.new).live ≡ true) }
    ensures count { IfOk result (λ delivered.
        count_delivered delivered ≡ 4 * length shipments.now) }
    ensures delivers { D.tells_reads → (shape : Shape) → IsSent shape shipments.now
        → HasTaken D.Disk shape shipments.now none_delivered (view follower.old)
        → IfOk result (λ delivered.
        (delivered
        ≡ deliver_drawn (length shipments.now) generator.old (4 * length shipments.now))
        × HasTaken D.Disk shape shipments.now delivered (view follower.new)) }
    ensures same_disk { HaveSameDisk follower.old follower.new }
{
    let mut delivered = Delivered {
        applied: 0,
        old: 0,
        gap: 0,
    };
    let count = shipments.len();
    'draws: for _draw in 0..ROUNDS * count {
        let index = generator.draw() % count as u64;
        delivered = deliver(follower, shipments.at(index as usize), delivered)?;
    }
    Ok(delivered)
}

/// Delivers each shipment once.
fn deliver_first<D: Disk>(
    follower: &mut Follower<'_, D>,
    shipments: &Shipments,
    drawn: Delivered,
) -> Result<Delivered, AllocError>
    requires live { (view follower.old).live ≡ true }
    requires few { length shipments.now ≤ 2000 }
    requires count { count_delivered drawn ≤ 8000 }
    ensures delivers { D.tells_reads → (shape : Shape) → IsSent shape shipments.now
        → HasTaken D.Disk shape shipments.now drawn (view follower.old)
        → IfOk result (λ delivered. (delivered ≡ deliver_first (length shipments.now) drawn)
        × HasTaken D.Disk shape shipments.now delivered (view follower.new)) }
    ensures same_disk { HaveSameDisk follower.old follower.new }
{
    let mut delivered = drawn;
    'shipments: for index in 0..shipments.len() {
        delivered = deliver(follower, shipments.at(index), delivered)?;
    }
    Ok(delivered)
}

/// Delivers a shipment, and counts what came of it. A fault of the disk is want of memory: it is in
/// memory, and fails only where a file has no room left.
fn deliver<D: Disk>(
    follower: &mut Follower<'_, D>,
    bytes: &[u8],
    so_far: Delivered,
) -> Result<Delivered, AllocError>
    requires live { (view follower.old).live ≡ true }
    requires few { count_delivered so_far < 10000 }
    ensures live { OnOk result ((view follower.new).live ≡ true) }
    ensures count { IfOk result (λ delivered.
        count_delivered delivered ≡ count_delivered so_far + 1) }
    ensures delivers { D.tells_reads → (shape : Shape) (sent : List (List ℕ)) (place : ℕ)
        → IsSent shape sent → slice_get sent place ≡ Some bytes.now
        → HasTaken D.Disk shape sent so_far (view follower.old)
        → IfOk result (λ delivered. (delivered ≡ deliver (place + 1) so_far)
        × HasTaken D.Disk shape sent delivered (view follower.new)) }
    ensures same_disk { HaveSameDisk follower.old follower.new }
{
    match follower.accept(bytes) {
        Accept::Applied { number: _ } => Ok(Delivered {
            applied: so_far.applied + 1,
            ..so_far
        }),
        Accept::Old { have: _ } => Ok(Delivered {
            old: so_far.old + 1,
            ..so_far
        }),
        Accept::Gap { have: _ } => Ok(Delivered {
            gap: so_far.gap + 1,
            ..so_far
        }),
        Accept::Bad { at: _ } | Accept::Memory | Accept::Disk => Err(AllocError),
    }
}
