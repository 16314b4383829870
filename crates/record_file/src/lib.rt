//! The records of a store in their files: 64 bytes each, record N at the place 64 * N. Reading or
//! writing one is one call of the disk, and so is reading all of the meta file, or writing records
//! that stand one behind the other.
#![tactic(auto)]

mod meta_file;
mod place;
mod reading;
mod run;
mod writing;

pub use meta_file::MetaFile;
pub use reading::read_record;
pub use run::Run;
pub use writing::write_record;
