ghost use Rattle.std.specs.Prelude.{◌≡◌, ◌<◌, ◌≤◌, ◌^◌, ℕ, List, length};
ghost use Rattle.disk_model.specs.Contents.{Files};
ghost use Rattle.rec_bytes.specs.declared.shape.Shape.{Shape as AShape};
ghost use Rattle.stored_graph.specs.Stands.{IsZeros, StandsFor};
ghost use Rattle.txn_core.specs.Config.{shape_of};
ghost use Rattle.txn_core.specs.declared.config.Config.{Config as AConfig};
ghost use Rattle.follower.specs.Running.{Event, FollowsAlways, IsSound, May, Run, World, start_of};
ghost use Rattle.follower.specs.Sent.{HoldsSent, IsSent, sent_graph};
ghost use Rattle.follower.specs.Taken.{follower_records, number_in};

use disk_model::Disk;

/// What holds of a follower over every run: the shipments come in any order, lost and again, and it
/// is stopped at any moment and opened again. The events of a run are what the calls' own clauses
/// say.
pub fn keeps_to_what_was_sent<D: Disk>()
    // Each image of its disk stands for what the sender had after its first transactions.
    ensures follows { D.tells_reads → D.tells_images → (config : AConfig) (sent : List (List ℕ))
        (disk : D) (events : List (Event D)) (end : World D) → IsSent (shape_of config) sent
        → ((image : Files) → D.may_leave disk image → IsZeros image)
        → Run D.Disk config sent events (start_of D.Disk disk) end
        → FollowsAlways D.Disk (shape_of config) sent end }

    // An opening fails only for want of memory, or where the disk failed.
    ensures sound { D.tells_reads → D.tells_images → (config : AConfig) (sent : List (List ℕ))
        (disk : D) (events : List (Event D)) (end : World D) (event : Event D)
        → IsSent (shape_of config) sent
        → ((image : Files) → D.may_leave disk image → IsZeros image)
        → Run D.Disk config sent events (start_of D.Disk disk) end
        → May D.Disk config sent event end → IsSound D.Disk event end }

    // What an image with so many of them stands for.
    ensures stands { (shape : AShape) (sent : List (List ℕ)) (j : ℕ) (content : Files)
        → IsSent shape sent → j ≤ length sent → HoldsSent shape sent j content
        → StandsFor content shape (sent_graph shape sent j) }

    // The number that stands in an image is that of the last of these transactions.
    ensures number { (config : AConfig) (sent : List (List ℕ)) (j : ℕ) → j < 2 ^ 64
        → number_in (follower_records (shape_of config) sent j) ≡ j }
{}
