/// The error of a call whose one refusal is the disk.
pub type DiskFault = fault_count::Failed;
