//! What a disk, a source or a sink says when it fails, the count of its failures, and the one word
//! by which every layer says that an answer had that cause. A call costs a few instructions.
#![tactic(auto)]

mod count;
mod failed;

pub use count::Count;
pub use failed::Failed;
