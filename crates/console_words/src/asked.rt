use crate::{RunOptions, SampleOptions};

/// What the words ask for.
#[derive(Clone, Copy)]
pub enum Asked {
    /// A run over the store.
    Run(RunOptions),
    /// A sample: lines drawn from a seed, over a store in memory.
    Sample(SampleOptions),
    /// A sample whose lines a follower takes over.
    Follow(SampleOptions),
}
