ghost use Rattle.std.specs.Prelude.{◌≡◌, IfOk};
ghost use Rattle.disk_model.specs.Contents.{Same};
ghost use Rattle.disk_model.specs.Marks.{with_draws};
ghost use Rattle.disk_model.specs.PlainDisk.{rooms_of, contents, AllZeros};

use crate::generator::Generator;
use crate::plain_file::PlainFile;
use std::alloc::{AllocError, Global};

/// Files with the rooms of these that mark no place.
pub(crate) fn no_marks(alloc: Global, files: &[PlainFile]) -> Result<Vec<PlainFile>, AllocError>
    ensures rooms { IfOk result (λ marks. rooms_of marks.items ≡ rooms_of files.now) }
    ensures zeros { IfOk result (λ marks. AllZeros marks.items) }
{
    let mut marks = Vec::with_capacity(alloc, files.len())?;
    for file in files {
        marks.push(PlainFile::zeros(alloc, file.room())?)?;
    }
    Ok(marks)
}

/// Puts the next byte drawn from the seed at each marked place.
pub(crate) fn draw_marked(files: &mut [PlainFile], marks: &[PlainFile], seed: u64)
    requires { rooms_of marks.now ≡ rooms_of files.old }
    ensures rooms { rooms_of files.new ≡ rooms_of files.old }
    ensures bytes { Same (with_draws seed marks.now (contents files.old)) (contents files.new) }
{
    let mut generator = Generator::new(seed);
    for i in 0..files.len() {
        files[i].draw_marked(&marks[i], &mut generator);
    }
}
