/// How many there are of each part of a graph. Blocks hold the texts of more than 40 bytes, 48
/// bytes each.
#[derive(Clone, Copy)]
pub struct Counts {
    pub nodes: u32,
    pub edges: u32,
    pub properties: u32,
    pub blocks: u32,
    pub names: u32,
}
