ghost use Rattle.std.specs.Prelude.{◌≡◌, ◌≤◌, ◌+◌, ◌^◌, length};
ghost use Rattle.fault_count.specs.Cause.{HasCause};
ghost use Rattle.host_edge.specs.Counting.{CountsFailure};
ghost use Rattle.disk_model.specs.Contents.{IsFile};

use crate::counting::counted;
use crate::named_file::{NamedFile, sync_folder};
use disk_model::Disk;
use fault_count::{Count, Failed};
use std::io;
use std::marker::Model;

/// The names of the files, each at its number.
const FILES: [&str; 9] = [
    "graph.0", "graph.1", "graph.2", "graph.3", "graph.4", "graph.5", "graph.6", "graph.7",
    "graph.8",
];

/// The files `graph.0` to `graph.8` of the current folder. A file is opened at the first call on
/// it, or at the first sync of any file, and made where it is missing. One that can't be opened or
/// made is a fault of that call. A read or write that the system cuts short or a signal interrupts
/// goes on. Contracts see the count of faults, and nothing of what the files hold.
#[derive(Drop)]
pub struct FileDisk {
    rt: HostRuntime,
    files: [NamedFile; 9],
    // All files were open then, so the folder keeps an entry of each.
    has_synced_folder: bool,
    faults: Count,
}

impl Model for FileDisk {
    ghost use Rattle.std.specs.Prelude.{ℕ};

    ghost Value = { ℕ };

    ghost view = { λ d. d.faults };
}

impl FileDisk {
    /// A disk that hasn't touched a file yet.
    pub fn new(rt: HostRuntime) -> FileDisk
        ensures { result ≡ 0 }
    {
        FileDisk {
            rt,
            files: FILES.map(NamedFile::new),
            has_synced_folder: false,
            faults: Count::new(),
        }
    }

    // Makes a file's bytes durable, and its entry in the folder.
    fn sync_file(&mut self, file: u8) -> io::Result<()>
        requires { IsFile file }
        ensures { self.new ≡ self.old }
    {
        let rt = self.rt;
        self.files[file as usize].sync(&rt)?;
        if !self.has_synced_folder {
            sync_entries(&rt, &mut self.files)?;
            self.has_synced_folder = true;
        }
        Ok(())
    }
}

// Makes the entries of all files in the folder durable by one sync of it. Each file is there before
// that sync, and none is made after it. Files that were there count too, since the run that made
// them may have ended before it synced the folder.
fn sync_entries(rt: &HostRuntime, files: &mut [NamedFile; 9]) -> io::Result<()> {
    for file in files.iter_mut() {
        file.open(rt)?;
    }
    sync_folder(rt)
}

impl Disk for FileDisk {
    ghost tells_reads = { ⊥ };

    ghost reads = { λ _ _ _. 0 };

    ghost tells_images = { ⊥ };

    ghost may_leave = { λ _ _. ⊥ };

    ghost moment = { λ _. 0 };

    ghost left_since = { λ _ _ _. ⊥ };

    ghost faults = { λ d. d };

    fn read(&mut self, file: u8, at: u64, out: &mut [u8]) -> Result<(), Failed>
        requires file { IsFile file }
        requires within { at + length out.old ≤ 2 ^ 40 }
        ensures count { CountsFailure self.old self.new result }
        ensures cause { HasCause self.old self.new result }
    {
        let rt = self.rt;
        let answer = self.files[file as usize].read(&rt, at, out);
        counted(&mut self.faults, answer)
    }

    fn write(&mut self, file: u8, at: u64, bytes: &[u8]) -> Result<(), Failed>
        requires file { IsFile file }
        requires within { at + length bytes.now ≤ 2 ^ 40 }
        ensures count { CountsFailure self.old self.new result }
        ensures cause { HasCause self.old self.new result }
    {
        let rt = self.rt;
        let answer = self.files[file as usize].write(&rt, at, bytes);
        counted(&mut self.faults, answer)
    }

    /// After a sync of a file that succeeds, a loss of power takes neither its bytes, its length
    /// nor its entry in the folder. The first sync of a run makes the entries of all files durable;
    /// if that fails, it is a fault of the call, and the next sync tries again.
    fn sync(&mut self, file: u8) -> Result<(), Failed>
        requires file { IsFile file }
        ensures count { CountsFailure self.old self.new result }
        ensures cause { HasCause self.old self.new result }
    {
        let answer = self.sync_file(file);
        counted(&mut self.faults, answer)
    }

    ghost read_is_image = { λ _ tells _. absurd tells };

    ghost counts_now = { λ _ _ _ tells _ _. absurd tells };

    ghost only_now = { λ _ _ tells _. absurd tells };
}
