use crate::OpenFault;
use disk_model::Disk;

/// Why a store was not opened, and its disk, which is handed back.
#[derive(Drop)]
pub struct NotOpened<'d, D: Disk> {
    pub why: OpenFault,
    pub disk: &'d mut D,
}
