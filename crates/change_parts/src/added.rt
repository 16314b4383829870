/// What was added, and the weight of the change: how many records it puts, meta records aside.
#[derive(Clone, Copy, Debug, PartialEq, Eq)]
pub struct Added {
    pub id: u32,
    pub weight: u32,
}
