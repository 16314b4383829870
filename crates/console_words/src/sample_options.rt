/// The numbers of a sample, or of one that a follower takes over; both are always given.
#[derive(Clone, Copy)]
pub struct SampleOptions {
    /// The number that the lines are drawn from, 0 to 18,446,744,073,709,551,615.
    pub seed: u64,
    /// How many lines, 1 to 20,000; 1 to 2,000 for a follower.
    pub count: u32,
}
