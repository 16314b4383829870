ghost use Rattle.std.specs.Prelude.{◌≤◌, ◌+◌, ◌^◌, ℕ, length, OnOk};
ghost use Rattle.fault_count.specs.Cause.{HasCause};
ghost use Rattle.disk_model.specs.Contents.{Files, Holds, Same, SameOutside, IsFile};
ghost use Rattle.disk_model.specs.Disk.{TornIn, NoMore, Settled, Elapses};

use fault_count::Failed;

/// Nine files of bytes, numbered from 0. A type of disk may tell what a read gives, and it may tell
/// which contents a loss of power leaves; contracts that speak of either have that as their
/// premise.
pub trait Disk {
    /// Holds where the disk tells what a read gives.
    ghost tells_reads: { Type 0 };

    /// What a read gives.
    ghost reads: { Self → Files };

    /// Holds where the disk tells its images: the contents that a loss of power may leave.
    ghost tells_images: { Type 0 };

    /// The images of this moment.
    ghost may_leave: { Self → Files → Type 0 };

    /// A number that doesn't fall.
    ghost moment: { Self → ℕ };

    /// The images of some moment from that one on, inside a call or between two.
    ghost left_since: { Self → ℕ → Files → Type 0 };

    /// How often the disk has failed.
    ghost faults: { Self → ℕ };

    /// Fills `out` with the bytes from `at` on, zeros past the end. After a failure `out` holds
    /// anything.
    fn read(&mut self, file: u8, at: u64, out: &mut [u8]) -> Result<(), Failed>
        requires file { IsFile file }
        requires within { at + length out.old ≤ 2 ^ 40 }
        ensures bytes { tells_reads → OnOk result (Holds file at out.new (reads self.old)) }
        ensures keeps { Same (reads self.old) (reads self.new) }
        ensures crash { tells_images → NoMore (may_leave self.old) (may_leave self.new) }
        ensures time { tells_images → Elapses (moment self.old) (moment self.new)
            (left_since self.old) (left_since self.new) (may_leave self.new) }
        ensures cause { HasCause (faults self.old) (faults self.new) result };

    /// Writes the bytes from `at` on. Until a sync of the file succeeds, an image has any bytes in
    /// that range, also at a moment inside the call and where it fails. After a failure a read
    /// gives any bytes there.
    fn write(&mut self, file: u8, at: u64, bytes: &[u8]) -> Result<(), Failed>
        requires file { IsFile file }
        requires within { at + length bytes.now ≤ 2 ^ 40 }
        ensures written { tells_reads → OnOk result (Holds file at bytes.now (reads self.new)) }
        ensures elsewhere { SameOutside file at (length bytes.now) (reads self.old)
            (reads self.new) }
        ensures crash { tells_images
            → TornIn file at (length bytes.now) (may_leave self.old) (may_leave self.new) }
        ensures time { tells_images → Elapses (moment self.old) (moment self.new)
            (left_since self.old) (left_since self.new) (may_leave self.new) }
        ensures cause { HasCause (faults self.old) (faults self.new) result };

    /// After a success each image has the file as it is read.
    fn sync(&mut self, file: u8) -> Result<(), Failed>
        requires file { IsFile file }
        ensures keeps { Same (reads self.old) (reads self.new) }
        ensures crash { tells_images → NoMore (may_leave self.old) (may_leave self.new) }
        ensures settled { tells_reads → tells_images
            → OnOk result (Settled file (reads self.old) (may_leave self.new)) }
        ensures time { tells_images → Elapses (moment self.old) (moment self.new)
            (left_since self.old) (left_since self.new) (may_leave self.new) }
        ensures cause { HasCause (faults self.old) (faults self.new) result };

    /// What a read gives is an image.
    ghost read_is_image: { (disk : Self) → tells_reads → tells_images
        → may_leave disk (reads disk) };

    /// This moment is one of those since an earlier one.
    ghost counts_now: { (disk : Self) (t : ℕ) (image : Files) → tells_images → t ≤ moment disk
        → may_leave disk image → left_since disk t image };

    /// Since this moment there is no other.
    ghost only_now: { (disk : Self) (image : Files) → tells_images
        → left_since disk (moment disk) image → may_leave disk image };
}
