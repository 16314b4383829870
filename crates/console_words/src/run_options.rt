/// The options of a run; those that aren't given are left open.
#[derive(Clone, Copy)]
pub struct RunOptions {
    /// The number behind `--threshold`, 2 to 200.
    pub threshold: Option<u16>,
    /// The number behind `--limit`, 16 to 16,777,216.
    pub limit: Option<u32>,
}
