ghost use Rattle.std.specs.Prelude.{◌≤◌, ◌+◌, ◌^◌, length};

use std::fs::{File, OpenOptions};
use std::io::{self, ErrorKind};
use std::os::fd::{AsRawFd, RawFd};
use std::os::unix::fs::FileExt;

/// The number of standard error. A duplicate of a file has a higher one.
const LAST_STREAM: RawFd = 2;

/// A file of the current folder. It is opened at the first call on it, made where it is missing.
#[derive(Drop)]
pub(crate) struct NamedFile {
    name: &'static str,
    file: Option<File>,
}

impl NamedFile {
    /// Reaches no file yet.
    pub(crate) fn new(name: &'static str) -> NamedFile {
        NamedFile { name, file: None }
    }

    /// Fills `out` with the bytes from `at` on, zeros past the end.
    pub(crate) fn read(&mut self, rt: &HostRuntime, at: u64, out: &mut [u8]) -> io::Result<()>
        requires { at + length out.old ≤ 2 ^ 40 }
    {
        let file = self.opened(rt)?;
        let given = match file.read_at(out, at) {
            Ok(given) => given,
            Err(error) if error.kind() == ErrorKind::Interrupted => 0,
            Err(error) => return Err(error),
        };
        let rest = &mut out[given..];
        if rest.is_empty() {
            return Ok(());
        }
        // The zeros stay where the file ends before `out` does.
        rest.fill(0);
        match file.read_exact_at(rest, at + given as u64) {
            Err(error) if error.kind() == ErrorKind::UnexpectedEof => Ok(()),
            answer => answer,
        }
    }

    /// Writes the bytes from `at` on.
    pub(crate) fn write(&mut self, rt: &HostRuntime, at: u64, bytes: &[u8]) -> io::Result<()> {
        self.opened(rt)?.write_all_at(bytes, at)
    }

    /// Makes the file's bytes and its length durable, and not its entry in the folder.
    pub(crate) fn sync(&mut self, rt: &HostRuntime) -> io::Result<()> {
        // A sync of the data includes a length that grew.
        self.opened(rt)?.sync_data()
    }

    /// Opens the file, if no call on it has done so, and makes it where it is missing.
    pub(crate) fn open(&mut self, rt: &HostRuntime) -> io::Result<()> {
        self.opened(rt)?;
        Ok(())
    }

    fn opened(&mut self, rt: &HostRuntime) -> io::Result<&File> {
        match self.file {
            Some(ref file) => Ok(file),
            None => Ok(self.file.insert(open_or_make(rt, self.name)?)),
        }
    }
}

fn open_or_make(rt: &HostRuntime, name: &str) -> io::Result<File> {
    let file = OpenOptions::new()
        .read(true)
        .write(true)
        .create(true)
        .open(rt, name)?;
    above_streams(file)
}

/// The file under a number above those of the three standard streams. Where a stream was closed
/// before the program began, the system may give its number to this file, and what the program then
/// writes to the stream would go into the file.
fn above_streams(file: File) -> io::Result<File> {
    if file.as_raw_fd() > LAST_STREAM {
        return Ok(file);
    }
    file.try_clone()
}

/// Makes the entries of the current folder durable. Some file systems sync no folder, and say so.
pub(crate) fn sync_folder(rt: &HostRuntime) -> io::Result<()> {
    match File::open(rt, ".")?.sync_all() {
        Err(error) if error.kind() == ErrorKind::InvalidInput => Ok(()),
        answer => answer,
    }
}
